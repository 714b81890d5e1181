//! The slips of one round, at most one of each replica, in memory that is lent.
ghost use Rattle.std.specs.Prelude.{◌≡◌, ◌≤◌, length};

use crate::slip::Slip;

/// The first len places hold slips; the others are free. One tally serves receipts, readings and reply messages.
#[derive(Drop)]
pub struct Tally<'a, T: Slip> {
    places: &'a mut [T],
    len: usize,
    ghost fits: { len ≤ length places.now },
}

impl<'a, T: Slip + Drop> Tally<'a, T> {
    ghost use Rattle.quorum.specs.Tally.{from, adds, held, GoesOn, Adds};

    /// Goes on with the first len places; a len above the number of places is lowered to it.
    pub fn over(places: &'a mut [T], len: usize) -> Tally<'a, T>
        ensures { GoesOn places.entry len result }
    {
        let len = len.min(places.len());
        Tally { places, len }
    }

    /// How many slips are held.
    pub fn count(&self) -> usize
        ensures { result ≡ length (held self.now) }
    {
        self.len
    }

    // Is one of the slips from the replica?
    // A loop, since `any` takes half as many instructions again for each slip.
    fn is_from(slips: &[T], replica: u8) -> bool
        ensures { result ≡ from T.Slip.sent_by replica slips.now }
    {
        for s in slips {
            if s.sender() == replica {
                return true;
            }
        }
        false
    }

    /// Is a slip of the replica held?
    pub fn has(&self, replica: u8) -> bool
        ensures { result ≡ from T.Slip.sent_by replica (held self.now) }
    {
        Self::is_from(&self.places[..self.len], replica)
    }

    // Is the slip's replica not counted yet, and a place left?
    fn takes(&self, slip: &T) -> bool
        ensures { result ≡ adds T.Slip.sent_by self.now.places.now self.now.len slip.now }
    {
        !self.has(slip.sender()) && self.len < self.places.len()
    }

    /// Adds the slip, unless its replica is counted already or no place is left.
    #[tactic(auto, using(crate::proofs::From::once_added))]
    pub fn add(&mut self, slip: T) -> bool
        ensures { Adds self.old slip self.new result }
    {
        if !self.takes(&slip) {
            return false;
        }
        self.places[self.len] = slip;
        self.len += 1;
        true
    }
}
