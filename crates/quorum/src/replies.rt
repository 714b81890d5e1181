//! The slips that a client has counted in a round, in fixed memory.
ghost use Rattle.std.specs.Prelude.{◌≡◌, take, if◌then◌else◌, slice_set};
ghost use Rattle.quorum.specs.Tally.{adds};
ghost use Rattle.quorum.specs.Replies.{NoneCounted, with_slip};

use crate::slip::{Reading, Receipt, Slip};
use crate::tally::Tally;
use settings::limits::REPLICAS_MAX;

// Adds the slip behind the first len places, unless its replica is counted already or no place is left.
// A function of its own: a tally that a generic struct lends a field to leaves the checker no tie to it.
#[tactic(auto, using(crate::proofs::From::adds_lowered))]
fn add_to<T: Slip + Drop>(places: &mut [T], len: usize, slip: T) -> bool
    ensures said { result ≡ adds T.sent_by places.old len slip }
    ensures after { places.new ≡ (if result then slice_set places.old len slip else places.old) }
{
    Tally::over(places, len).add(slip)
}

/// The slips of one round: the first got places; the others are free.
// An array with a count beside it, since an `ArrayVec` is not `Copy`, as every client that holds this is.
#[derive(Debug, Clone, Copy, PartialEq)]
pub struct Replies<T> {
    /// how many are counted
    pub got: usize,
    pub slips: [T; REPLICAS_MAX as usize],
}

/// The receipts of a write's or a tell's round.
pub type Receipts = Replies<Receipt>;

/// The readings of a read's first round.
pub type Readings = Replies<Reading>;

impl<T: Slip + Default + Copy> Replies<T> {
    /// None is counted yet.
    pub fn none() -> Replies<T>
        ensures { NoneCounted T.is_default result }
    {
        Replies {
            got: 0,
            slips: [T::default(); REPLICAS_MAX as usize],
        }
    }
}

impl<T: Slip + Drop> Replies<T> {
    /// Counts a slip of a replica that is not counted yet.
    // Inlined, since the slip would else go through memory.
    #[inline(always)]
    pub fn add(&mut self, s: T) -> bool
        ensures said { result ≡ adds T.sent_by self.old.slips self.old.got s }
        ensures after { self.new ≡ with_slip T.sent_by self.old s }
    {
        let fresh = add_to(&mut self.slips, self.got, s);
        if fresh {
            self.got += 1;
        }
        fresh
    }

    /// How many are counted.
    pub fn count(&self) -> usize
        ensures { result ≡ self.now.got }
    {
        self.got
    }

    /// The slips that are counted.
    #[tactic(auto, using(std::proofs::lemmas::List::take_all))]
    pub fn held(&self) -> &[T]
        ensures { result.now ≡ take self.now.got self.now.slips }
    {
        self.slips.get(..self.got).unwrap_or(&self.slips)
    }
}
