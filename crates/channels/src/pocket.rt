//! The pocket of the delaying layer, a ring in memory of its own.
ghost use Rattle.std.specs.Prelude.{◌≡◌, ◌+◌, ◌<◌, ◌≤◌, ◌↔◌, [], ◌∷◌, ◌++◌, length, IsOk, OnOk, OnErr, IfNone};
ghost use Rattle.channels.specs.Sizes.{pocket_max};
ghost use Rattle.channels.specs.Queue.{Oldest};

use crate::ring::{end_of, first_of};
use crate::sizes::POCKET_MAX;
use std::marker::Model;
use wire::channel::Full;
use wire::message::Message;

// The messages lie in `len` cells from `start` on, as those of a queue do.
// A ring by hand: an `ArrayVec` gives its first element by moving all others, and the kit's ring lies on the heap.
#[derive(Drop)]
pub(crate) struct Pocket {
    cells: [Message; POCKET_MAX],
    start: usize,
    len: usize,
}

// Clauses see the messages, oldest first.
impl Model for Pocket {
    ghost use Rattle.std.specs.Prelude.{◌≡◌, ◌≤◌, length};
    ghost use Rattle.channels.specs.Sizes.{pocket_max};
    ghost use Rattle.channels.specs.Ring.{ring};
    ghost use Rattle.channels.specs.Pocket.{Kept};

    ghost Value = { Kept };

    ghost view = { λ p. record { items = ring p.cells p.start p.len } };

    ghost invariant = { λ p.
        (p.start ≤ pocket_max) × (p.len ≤ pocket_max) × (length p.cells ≡ pocket_max) };
}

impl Pocket {
    // Nothing is kept; what the cells hold is of no account.
    pub(crate) fn new() -> Self
        ensures { result.items ≡ [] }
    {
        Pocket {
            cells: [Message::default(); POCKET_MAX],
            start: 0,
            len: 0,
        }
    }

    // How many messages are kept.
    #[tactic(auto, using(crate::proofs::Rings::length_ring))]
    pub(crate) fn len(&self) -> usize
        ensures all { result ≡ length self.now.items }
        ensures few { result ≤ pocket_max }
    {
        self.len
    }

    // How many more it takes.
    #[tactic(auto, using(crate::proofs::Rings::length_ring))]
    pub(crate) fn room(&self) -> usize
        ensures { result + length self.now.items ≡ pocket_max }
    {
        POCKET_MAX - self.len
    }

    // The message is the newest.
    #[tactic(auto, using(crate::proofs::Rings::length_ring, crate::proofs::Rings::ring_push))]
    pub(crate) fn push(&mut self, m: Message)
        requires room { length self.old.items < pocket_max }
        ensures { self.new.items ≡ self.old.items ++ m ∷ [] }
    {
        let at = end_of(self.start, self.len, POCKET_MAX);
        self.cells[at] = m;
        self.len += 1;
    }

    // As `push`, or sent back where the pocket is full.
    pub(crate) fn try_push(&mut self, m: Message) -> Result<(), Full>
        ensures variant { IsOk result ↔ (length self.old.items < pocket_max) }
        ensures ok { OnOk result (self.new.items ≡ self.old.items ++ m ∷ []) }
        ensures err { OnErr result (self.new ≡ self.old) }
        ensures full { OnErr result (length self.old.items ≡ pocket_max) }
    {
        if self.len() >= POCKET_MAX {
            return Err(Full);
        }
        self.push(m);
        Ok(())
    }

    // The oldest message leaves the pocket; none leaves it where it is empty.
    #[tactic(auto, using(crate::proofs::Rings::ring_gives))]
    pub(crate) fn pop(&mut self) -> Option<Message>
        ensures oldest { Oldest self.old.items self.new.items result }
        ensures none { IfNone result (self.new ≡ self.old) }
    {
        if self.len == 0 {
            return None;
        }
        let at = first_of(self.start, POCKET_MAX);
        let m = self.cells[at];
        self.start = at + 1;
        self.len -= 1;
        Some(m)
    }
}
