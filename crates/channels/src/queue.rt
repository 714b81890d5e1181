//! The first-in first-out queue, a ring in memory that is lent to it.
ghost use Rattle.std.specs.Prelude.{◌≡◌, ◌≤◌, length};

use crate::ring::{end_of, first_of};
use wire::channel::{Channel, Full};
use wire::message::Message;

/// The messages lie in `len` cells from `start` on, going round at the end; a `start` at the end means the first cell.
// A ring by hand, since none of the kit's queues lies in lent memory.
#[derive(Drop)]
pub struct Queue<'a> {
    cells: &'a mut [Message],
    start: usize,
    len: usize,
    ghost within: { start ≤ length cells.now },
    ghost few: { len ≤ length cells.now },
}

impl<'a> Queue<'a> {
    ghost use Rattle.wire.specs.Channel.{empty};
    ghost use Rattle.channels.specs.Queue.{contents_of, LiesIn};

    /// Nothing waits, and every cell is a free place; what the cells held is of no account.
    pub fn new(cells: &'a mut [Message]) -> Self
        ensures empty { contents_of result ≡ empty (length cells.old) }
        ensures lies { LiesIn cells.entry result }
    {
        Queue {
            cells,
            start: 0,
            len: 0,
        }
    }
}

impl Channel for Queue<'_> {
    ghost use Rattle.wire.specs.Channel.{Taken};
    ghost use Rattle.channels.specs.Queue.{contents_of, GivesOldest};

    ghost contents = { contents_of };

    #[tactic(auto, using(crate::proofs::Rings::ring_takes, crate::proofs::Rings::ring_room))]
    fn put(&mut self, m: Message) -> Result<(), Full> {
        if self.len >= self.cells.len() {
            return Err(Full);
        }
        let at = end_of(self.start, self.len, self.cells.len());
        self.cells[at] = m;
        self.len += 1;
        Ok(())
    }

    /// It gives the oldest.
    fn take(&mut self) -> Option<Message>
        ensures meets { Taken (contents_of self.old) (contents_of self.new) result }
        ensures oldest { GivesOldest self.old self.new result }
    {
        if self.len == 0 {
            return None;
        }
        let at = first_of(self.start, self.cells.len());
        let m = self.cells[at];
        self.start = at + 1;
        self.len -= 1;
        Some(m)
    }

    #[tactic(auto, using(crate::proofs::Rings::length_ring))]
    fn waiting(&self) -> u32 {
        u32::try_from(self.len).unwrap_or(u32::MAX)
    }

    fn free(&self) -> u32 {
        u32::try_from(self.cells.len() - self.len).unwrap_or(u32::MAX)
    }
}
