//! What is wrong with a sheet or a listing: number, line and word.
ghost use Rattle.std.specs.Prelude.{◌≡◌};
ghost use Rattle.sheet.specs.Fault.{shown};

/// What is wrong. A word is a part of the sheet, and lines count from 1.
#[derive(Clone, Copy, Debug, PartialEq, Eq)]
pub enum SheetFault<'a> {
    /// a word or a separator is not of the form
    Form { line: usize, word: &'a [u8] },
    /// a number is above its limit
    Limit { line: usize, word: &'a [u8] },
    /// the sheet ends where a word or a separator is due
    Ended { line: usize },
    /// bytes stand after the last order
    Surplus { line: usize, word: &'a [u8] },
    /// the sheet has more orders than there are places handed in
    Orders { line: usize, word: &'a [u8] },
    /// the listing's space is too short
    Listing,
}

impl<'a> SheetFault<'a> {
    /// 31 to 36, in the order of the cases.
    pub fn number(self) -> u32
        ensures { result ≡ (shown self.entry).number }
    {
        match self {
            SheetFault::Form { .. } => 31,
            SheetFault::Limit { .. } => 32,
            SheetFault::Ended { .. } => 33,
            SheetFault::Surplus { .. } => 34,
            SheetFault::Orders { .. } => 35,
            SheetFault::Listing => 36,
        }
    }

    /// 0 for a listing.
    pub fn line(self) -> usize
        ensures { result ≡ (shown self.entry).line }
    {
        match self {
            SheetFault::Form { line, .. }
            | SheetFault::Limit { line, .. }
            | SheetFault::Ended { line }
            | SheetFault::Surplus { line, .. }
            | SheetFault::Orders { line, .. } => line,
            SheetFault::Listing => 0,
        }
    }

    /// Empty where the sheet ended, and for a listing.
    pub fn word(self) -> &'a [u8]
        ensures { result.now ≡ (shown self.entry).word }
    {
        match self {
            SheetFault::Form { word, .. }
            | SheetFault::Limit { word, .. }
            | SheetFault::Surplus { word, .. }
            | SheetFault::Orders { word, .. } => word,
            SheetFault::Ended { .. } | SheetFault::Listing => b"",
        }
    }
}
