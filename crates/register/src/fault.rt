//! The faults of opening and running, and their numbers.
ghost use Rattle.std.specs.Prelude.{◌≡◌};
ghost use Rattle.register.specs.declared.fault.RegisterFault.TheVariants.{Settings, Channel};
ghost use Rattle.register.specs.Fault.{fault_number};

use settings::fault::SettingsFault;

/// Why a register cannot open over a channel.
#[derive(Debug, Clone, Copy, PartialEq, Eq)]
pub enum ChannelFault {
    /// messages already wait in it
    NotEmpty,
    /// it has fewer free places than there are replicas
    TooFew,
}

/// Why a register was not opened, or a list of orders not run.
#[derive(Debug, Clone, Copy, PartialEq, Eq)]
pub enum RegisterFault {
    /// the settings do not pass
    Settings(SettingsFault),
    /// the channel is not fit to open over
    Channel(ChannelFault),
    /// the answer list is shorter than the order list
    Answers,
}

impl From<SettingsFault> for RegisterFault {
    ghost from_gives = { λ a r. r ≡ Settings a };

    fn from(a: SettingsFault) -> RegisterFault {
        RegisterFault::Settings(a)
    }
}

impl From<ChannelFault> for RegisterFault {
    ghost from_gives = { λ a r. r ≡ Channel a };

    fn from(a: ChannelFault) -> RegisterFault {
        RegisterFault::Channel(a)
    }
}

impl RegisterFault {
    /// The number that a listing shows, 1 to 6.
    pub fn number(self) -> u32
        ensures { result ≡ fault_number self }
    {
        match self {
            RegisterFault::Settings(f) => f.number(),
            RegisterFault::Channel(ChannelFault::NotEmpty) => 4,
            RegisterFault::Channel(ChannelFault::TooFew) => 5,
            RegisterFault::Answers => 6,
        }
    }
}
