//! The slot channel: a table of slots of its own, which gives the lowest message.
ghost use Rattle.std.specs.Prelude.{◌≡◌, ◌≤◌, [], length, IfNone};
ghost use Rattle.channels.specs.Sizes.{slots_max};
ghost use Rattle.channels.specs.Table.{somes, gaps, lower, Unused, Found, pick};

use crate::sizes::SLOTS_MAX;
use wire::channel::{Channel, Full};
use wire::message::Message;

/// Each slot holds a message or is unused.
#[derive(Drop)]
pub struct Slots {
    table: [Option<Message>; SLOTS_MAX],
    ghost long: { length table ≡ slots_max },
}

// Does a come before b: by round, then replica, then client, then kind?
fn lower(a: &Message, b: &Message) -> bool
    ensures { result ≡ lower a.now b.now }
{
    (a.round, a.replica, a.client, a.kind) < (b.round, b.replica, b.client, b.kind)
}

// The first slot that is unused.
#[tactic(auto, using(crate::proofs::Slotted::first_unused))]
fn unused(table: &[Option<Message>]) -> Option<usize>
    ensures { Unused table.now result }
{
    table.iter().position(|s| s.is_none())
}

// How many slots are unused.
// Counted down by those in use: `is_some` is a slot's tag as it stands, so nothing branches.
fn count_unused(table: &[Option<Message>]) -> usize
    ensures counted { result ≡ gaps table.now }
    ensures few { result ≤ length table.now }
{
    table.iter().fold(table.len(), |n, s| n.wrapping_sub(usize::from(s.is_some())))
}

// The lower of what was found so far and what lies in the slot i, the first of equals.
// Inlined, as `lowest` is: what is found then stays in registers also where a layer takes from the table.
#[inline(always)]
fn better(
    best: Option<(usize, Message)>,
    i: usize,
    slot: &Option<Message>,
) -> Option<(usize, Message)>
    ensures { result ≡ pick best i slot.now }
{
    match slot {
        Some(m) if best.is_none_or(|b| lower(m, &b.1)) => Some((i, *m)),
        _ => best,
    }
}

// Where a lowest message lies, with that message.
#[tactic(auto, using(crate::proofs::Slotted::none_held))]
#[inline(always)]
fn lowest(table: &[Option<Message>]) -> Option<(usize, Message)>
    ensures found { Found table.now (length table.now) result }
    ensures none { IfNone result (somes table.now ≡ []) }
{
    let mut best: Option<(usize, Message)> = None;
    for (i, slot) in table.iter().enumerate() {
        best = better(best, i, slot);
    }
    best
}

impl Slots {
    ghost use Rattle.wire.specs.Channel.{empty};
    ghost use Rattle.channels.specs.Slots.{contents_of};

    /// Nothing waits, and every slot is a free place.
    pub fn new() -> Self
        ensures { contents_of result ≡ empty slots_max }
    {
        Slots {
            table: [None; SLOTS_MAX],
        }
    }
}

impl Channel for Slots {
    ghost use Rattle.wire.specs.Channel.{Taken};
    ghost use Rattle.channels.specs.Slots.{contents_of, GivesLowest};

    ghost contents = { contents_of };

    #[tactic(auto, using(crate::proofs::Slotted::filled_holds, crate::proofs::Slotted::filled_leaves))]
    fn put(&mut self, m: Message) -> Result<(), Full> {
        let i = unused(&self.table).ok_or(Full)?;
        self.table[i] = Some(m);
        Ok(())
    }

    /// It gives the lowest: none that waited is before it.
    #[tactic(auto, using(crate::proofs::Slotted::freed_holds, crate::proofs::Slotted::freed_leaves))]
    fn take(&mut self) -> Option<Message>
        ensures meets { Taken (contents_of self.old) (contents_of self.new) result }
        ensures lowest { GivesLowest self.old result }
    {
        let (i, m) = lowest(&self.table)?;
        self.table[i] = None;
        Some(m)
    }

    #[tactic(auto, using(crate::proofs::Slotted::somes_gaps))]
    fn waiting(&self) -> u32 {
        (SLOTS_MAX - count_unused(&self.table)) as u32
    }

    fn free(&self) -> u32 {
        count_unused(&self.table) as u32
    }
}
