//! Which channel the program's arguments name.
ghost use Rattle.std.specs.Prelude.{map};
ghost use Rattle.rehearse.specs.Words.{Chosen};

use runner::choice::Choice;

/// The choice of the words behind the program's own name; none for any other words.
pub(crate) fn chosen(words: &[&str]) -> Option<Choice>
    ensures { Chosen (map (λ w. w.now) words.now) result }
{
    match *words {
        ["queue"] => Some(Choice::Queue),
        ["slots"] => Some(Choice::Slots),
        ["delay", n, "queue"] => Some(Choice::DelayQueue(n.parse().ok()?)),
        ["delay", n, "slots"] => Some(Choice::DelaySlots(n.parse().ok()?)),
        ["delay", n, "delay", m, "queue"] => {
            Some(Choice::DelayTwice(n.parse().ok()?, m.parse().ok()?))
        }
        _ => None,
    }
}
