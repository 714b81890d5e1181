//! Deciding a read by the replies of its first round.
ghost use Rattle.std.specs.Prelude.{◌≡◌};
ghost use Rattle.quorum.specs.Decide.{verdict_at, decided_at, decided};

use crate::agree::some_set_agrees;
use crate::highest::{highest, lowest_at, notes_at};
use crate::slip::Reading;
use settings::checked::Checked;

/// How a first round ends.
#[derive(Debug, Clone, Copy, PartialEq, Eq)]
pub enum Verdict {
    /// the read ends and shows the highest version
    Highest,
    /// the read needs its second round
    Due,
    /// the read ends and shows the version before the highest
    Previous,
}

/// The highest version of a first round, its value and the one before, and how the round ends.
#[derive(Debug, Clone, Copy, PartialEq, Eq)]
pub struct Decided {
    /// the highest version
    pub version: u32,
    /// its value
    pub value: i32,
    /// the value of the version before it
    pub previous: i32,
    pub verdict: Verdict,
}

// The first rule that fits at version h.
fn verdict_at(k: &Checked, slips: &[Reading], h: u32) -> Verdict
    ensures { result ≡ verdict_at k.now h slips.now }
{
    if h == 0 {
        return Verdict::Highest;
    }
    let notes = notes_at(slips, h);
    if notes > usize::from(k.tolerated) || some_set_agrees(k, slips, h, 1) {
        return Verdict::Highest;
    }
    if notes >= 1 || some_set_agrees(k, slips, h, 0) {
        return Verdict::Due;
    }
    Verdict::Previous
}

// What the replies decide at version h.
fn decide_at(k: &Checked, slips: &[Reading], h: u32) -> Decided
    ensures { result ≡ decided_at k.now h slips.now }
{
    let shown = lowest_at(slips, h).unwrap_or_default();
    let verdict = verdict_at(k, slips, h);
    Decided {
        version: h,
        value: shown.value,
        previous: shown.previous,
        verdict,
    }
}

/// What the replies of a first round decide.
pub fn decide(k: &Checked, slips: &[Reading]) -> Decided
    ensures { result ≡ decided k.now slips.now }
{
    decide_at(k, slips, highest(slips))
}

#[cfg(test)]
mod tests {
    use super::*;
    use settings::given::Settings;

    // The reply of a replica, where the first `many` are at version 1 with these marks and this
    // note, and the others at version 0 with none. Mark 1 is the writer's, 2 and 4 are those of the
    // two groups.
    fn reply(many: u8, marks: u8, note: u32, replica: u8) -> Reading {
        let old = Reading {
            replica,
            ..Reading::default()
        };
        if replica <= many {
            Reading {
                version: 1,
                marks,
                note,
                ..old
            }
        } else {
            old
        }
    }

    // The version that the read shows, or none if it is due.
    fn shown(d: Decided) -> Option<u32> {
        match d.verdict {
            Verdict::Highest => Some(d.version),
            Verdict::Due => None,
            Verdict::Previous => Some(d.version.saturating_sub(1)),
        }
    }

    // Four of five replicas reply, of which one is tolerated; there are two groups.
    #[test]
    fn examples_decide_as_marked(rt: HostRuntime) {
        let given = Settings {
            replicas: 5,
            tolerated: 1,
            groups: 2,
            readers: 2,
            initial: 0,
        };
        let k = Checked::try_from(given);
        assert!(rt; k.is_ok());
        let Ok(k) = k else { return };
        let examples = [
            (0, 0, 0, Some(0)),
            (2, 5, 0, Some(0)),
            (1, 7, 0, Some(0)),
            (4, 5, 0, Some(1)),
            (3, 7, 0, Some(1)),
            (2, 4, 1, Some(1)),
            (3, 5, 0, None),
            (2, 7, 0, None),
            (1, 4, 1, None),
        ];
        for (many, marks, note, wanted) in examples {
            let replies = [1, 2, 3, 4].map(|replica| reply(many, marks, note, replica));
            assert_eq!(rt; shown(decide(&k, &replies)), wanted);
        }
    }
}
