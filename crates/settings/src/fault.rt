//! The faults of settings, and their numbers.
ghost use Rattle.std.specs.Prelude.{◌≡◌};
ghost use Rattle.settings.specs.Fault.{settings_fault_number};

/// Why settings do not pass.
#[derive(Debug, Clone, Copy, PartialEq, Eq)]
pub enum SettingsFault {
    /// a number is outside its range
    Range,
    /// too few replicas for so many groups and replicas out
    Overlap,
    /// the initial value is outside its range
    Initial,
}

impl SettingsFault {
    /// The number that a listing shows, 1 to 3.
    pub fn number(self) -> u32
        ensures { result ≡ settings_fault_number self }
    {
        match self {
            SettingsFault::Range => 1,
            SettingsFault::Overlap => 2,
            SettingsFault::Initial => 3,
        }
    }
}
