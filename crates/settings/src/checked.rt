//! Settings that passed the check, and the marks that they give to clients.
ghost use Rattle.std.specs.Prelude.{◌≡◌, ◌+◌, ◌-◌, ◌*◌, ◌<◌, ◌≤◌, pos, negsuc, ◌≤ℤ◌};
ghost use Rattle.settings.specs.Limits.{replicas_min, replicas_max, tolerated_max, groups_max, readers_max, value_max};

use crate::fault::SettingsFault;
use crate::given::Settings;
use crate::range::{in_ranges, value_in_range};

/// Settings that passed: every value of this type keeps the ranges, and (V + 2)t is below S.
#[derive(Debug, Clone, Copy, PartialEq, Eq)]
pub struct Checked {
    /// S: how many replicas hold a copy, 4 to 32
    pub replicas: u8,
    /// t: how many of them may be out, 1 to 10
    pub tolerated: u8,
    /// V: into how many groups the readers fall, 1 to 7
    pub groups: u8,
    /// R: how many readers there are, 1 to 64
    pub readers: u8,
    /// between -9,999,999 and 9,999,999
    pub initial: i32,
    ghost replicated: { (replicas_min ≤ replicas) × (replicas ≤ replicas_max) },
    ghost tolerant: { (1 ≤ tolerated) × (tolerated ≤ tolerated_max) },
    ghost grouped: { (1 ≤ groups) × (groups ≤ groups_max) },
    ghost read: { (1 ≤ readers) × (readers ≤ readers_max) },
    ghost overlap: { (groups + 2) * tolerated < replicas },
    ghost valued: { (negsuc (value_max - 1) ≤ℤ initial) × (initial ≤ℤ pos value_max) },
}

/// The check: the settings pass, or the first fault.
impl TryFrom<Settings> for Checked {
    type Error = SettingsFault;

    ghost use Rattle.settings.specs.Checked.{Passes};

    ghost try_from_gives = { Passes };

    fn try_from(s: Settings) -> Result<Self, SettingsFault> {
        if !in_ranges(&s) {
            return Err(SettingsFault::Range);
        }
        if (s.groups + 2) * s.tolerated >= s.replicas {
            return Err(SettingsFault::Overlap);
        }
        if !value_in_range(s.initial) {
            return Err(SettingsFault::Initial);
        }
        Ok(Checked {
            replicas: s.replicas as u8,
            tolerated: s.tolerated as u8,
            groups: s.groups as u8,
            readers: s.readers as u8,
            initial: s.initial,
        })
    }
}

impl Checked {
    ghost use Rattle.settings.specs.Checked.{mark_of};

    /// The mark of a client: bit 0 for the writer, bit 1 + its group for a reader.
    pub fn mark(&self, client: u8) -> u8
        ensures { result ≡ mark_of self.now client }
    {
        if client == 0 {
            return 1;
        }
        1u8 << (1 + client % self.groups)
    }
}
