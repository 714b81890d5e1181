//! What the replies of a first round say of the highest version among them.
ghost use Rattle.std.specs.Prelude.{◌≡◌, unwrap_or};
ghost use Rattle.quorum.specs.Slip.{blank_reading};
ghost use Rattle.quorum.specs.Highest.{highest_by, notes_at, lowest_at};

use crate::slip::{Reading, VersionedSlip};

/// The highest version among the slips, 0 where there is none.
pub fn highest<T: VersionedSlip>(slips: &[T]) -> u32
    ensures { result ≡ highest_by T.version_of slips.now }
{
    let mut top: u32 = 0;
    for s in slips {
        top = top.max(s.version());
    }
    top
}

// How many replies have the note h.
pub(crate) fn notes_at(slips: &[Reading], h: u32) -> usize
    ensures { result ≡ notes_at h slips.now }
{
    let mut n: usize = 0;
    for s in slips {
        if s.note == h {
            n += 1;
        }
    }
    n
}

// The reply of the lowest replica among those at version h, the first of equals.
pub(crate) fn lowest_at(slips: &[Reading], h: u32) -> Option<Reading>
    ensures { unwrap_or result blank_reading ≡ lowest_at h slips.now }
{
    let mut lowest: Option<Reading> = None;
    for s in slips {
        if s.version == h && lowest.is_none_or(|l| s.replica < l.replica) {
            lowest = Some(*s);
        }
    }
    lowest
}

#[cfg(test)]
mod tests {
    use super::*;
    use wire::message::Message;

    #[test]
    fn reply_messages_name_versions(rt: HostRuntime) {
        let replies = [3, 7, 5].map(|version| Message {
            version,
            ..Message::default()
        });
        assert_eq!(rt; highest(&replies), 7);
    }
}
