//! Is there a set of replies at one version that is large enough and has enough marks in common?
//!
//! A set of replies with given marks in common is as good as the mask of these marks and all the
//! replies that have them, so the search goes over masks and not over sets.
ghost use Rattle.std.specs.Prelude.{◌≡◌, ◌-◌, ◌*◌, count_by, count_ones};
ghost use Rattle.quorum.specs.Agree.{agreed};
ghost use Rattle.quorum.specs.Masks.{covers, used_at, largest, mask_agrees};

use crate::slip::Reading;
use settings::checked::Checked;

// How many replies are at version h and have every mark of the mask.
fn covering(slips: &[Reading], h: u32, mask: u8) -> usize
    ensures { result ≡ count_by (covers h mask) slips.now }
{
    slips
        .iter()
        .filter(|s| s.version == h && s.marks & mask == mask)
        .count()
}

// The marks that any reply at version h has.
fn used_marks(slips: &[Reading], h: u32) -> u8
    ensures { result ≡ used_at h slips.now }
{
    slips.iter().fold(
        0,
        |used, s| if s.version == h { used | s.marks } else { used },
    )
}

// The largest a, up to groups + 1, for which the mask has a + extra marks; 0 where there is none.
fn largest_for(k: &Checked, mask: u8, extra: u32) -> u32
    ensures { result ≡ largest k.now.groups extra (count_ones mask) }
{
    let spare = mask.count_ones().saturating_sub(extra);
    spare.min(u32::from(k.groups) + 1)
}

// How many replies a set for a has to have.
fn needed(k: &Checked, a: u32) -> usize
    ensures { result ≡ k.now.replicas - a * k.now.tolerated }
{
    let out = (a as usize).saturating_mul(usize::from(k.tolerated));
    usize::from(k.replicas).saturating_sub(out)
}

// Do the replies at version h that have every mark of the mask suffice, for the largest a?
fn mask_agrees(k: &Checked, slips: &[Reading], h: u32, mask: u8, extra: u32) -> bool
    ensures { result ≡ mask_agrees k.now.replicas k.now.tolerated k.now.groups h extra slips.now mask }
{
    let a = largest_for(k, mask, extra);
    a >= 1 && covering(slips, h, mask) >= needed(k, a)
}

// Is there, for some a from 1 to groups + 1, a set of replicas - a * tolerated replies, all at
// version h, with a + extra marks in common?
#[tactic(auto, using(crate::proofs::Searching::agreed_by_mask, crate::proofs::Searching::not_agreed))]
pub(crate) fn some_set_agrees(k: &Checked, slips: &[Reading], h: u32, extra: u32) -> bool
    ensures { result ≡ agreed k.now.replicas k.now.tolerated k.now.groups h extra slips.now }
{
    // All eight marks first: they are common to the empty set, which suffices if no reply is needed.
    if mask_agrees(k, slips, h, 255, extra) {
        return true;
    }
    let used = used_marks(slips, h);
    for mask in 0..255u8 {
        if used & mask == mask && mask_agrees(k, slips, h, mask, extra) {
            return true;
        }
    }
    false
}
