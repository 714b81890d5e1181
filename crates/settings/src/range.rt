//! The ranges of the numbers of settings, and of values.
ghost use Rattle.std.specs.Prelude.{◌≡◌};
ghost use Rattle.settings.specs.Range.{in_ranges, value_in_range};

use crate::given::Settings;
use crate::limits::{
    GROUPS_MAX, READERS_MAX, REPLICAS_MAX, REPLICAS_MIN, TOLERATED_MAX, VALUE_MAX,
};

// Is each number within its range?
pub(crate) fn in_ranges(s: &Settings) -> bool
    ensures { result ≡ in_ranges s.now }
{
    (REPLICAS_MIN..=REPLICAS_MAX).contains(&s.replicas)
        && (1..=TOLERATED_MAX).contains(&s.tolerated)
        && (1..=GROUPS_MAX).contains(&s.groups)
        && (1..=READERS_MAX).contains(&s.readers)
}

/// Is the value within its range, which an initial value has too?
pub fn value_in_range(value: i32) -> bool
    ensures { result ≡ value_in_range value }
{
    (-VALUE_MAX..=VALUE_MAX).contains(&value)
}
