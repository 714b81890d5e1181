//! What can go wrong in a drill; the lower fault is carried whole.
ghost use Rattle.std.specs.Prelude.{◌≡◌, Some};
ghost use Rattle.runner.specs.declared.fault.DrillFault.TheVariants.{Sheet, Register};
ghost use Rattle.runner.specs.Fault.{fault_number, fault_line, fault_text};

use register::fault::RegisterFault;
use sheet::fault::SheetFault;
use std::fmt;

/// A channel's fault stands inside the register's.
#[derive(Debug, Clone, Copy, PartialEq, Eq)]
pub enum DrillFault<'a> {
    /// Of the sheet, or of the listing's space.
    Sheet(SheetFault<'a>),
    /// Of the settings, or of the memory handed in.
    Register(RegisterFault),
}

impl<'a> From<SheetFault<'a>> for DrillFault<'a> {
    ghost from_gives = { λ a r. r ≡ Sheet a };

    fn from(a: SheetFault<'a>) -> DrillFault<'a> {
        DrillFault::Sheet(a)
    }
}

impl<'a> From<RegisterFault> for DrillFault<'a> {
    ghost from_gives = { λ a r. r ≡ Register a };

    fn from(a: RegisterFault) -> DrillFault<'a> {
        DrillFault::Register(a)
    }
}

impl fmt::Display for DrillFault<'_> {
    ghost output = { λ f. Some (fault_text f) };

    fn fmt<W: fmt::Write>(&self, f: &mut fmt::Formatter<W>) -> fmt::Result {
        write!(f, "fault {} {}", self.number(), self.line())
    }
}

impl<'a> DrillFault<'a> {
    /// 1 to 6 of the register and the channel, 31 to 36 of the sheet and the listing.
    pub fn number(self) -> u32
        ensures { result ≡ fault_number self.entry }
    {
        match self {
            DrillFault::Sheet(f) => f.number(),
            DrillFault::Register(f) => f.number(),
        }
    }

    /// The sheet's line, 0 for a listing; 2, the line of the settings, for the register and the channel.
    pub fn line(self) -> usize
        ensures { result ≡ fault_line self.entry }
    {
        match self {
            DrillFault::Sheet(f) => f.line(),
            DrillFault::Register(_) => 2,
        }
    }
}
