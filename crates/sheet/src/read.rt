//! The sheet reader: settings are handed over, and orders are filled into the places handed in.
ghost use Rattle.std.specs.Prelude.{◌≡◌};
ghost use Rattle.sheet.specs.Read.{Outcome, ReadsExactly, RefusesExactly};

use crate::cursor::Cursor;
use crate::fault::SheetFault;
use orders::order::Order;
use settings::given::Settings;

/// What a sheet gives: its settings, and how many orders were filled.
#[derive(Debug, Clone, Copy, PartialEq, Eq)]
pub struct Reading {
    pub settings: Settings,
    pub count: usize,
}

/// Reads a sheet. Orders before a fault are filled, and settings are handed over on success only.
pub fn read<'a>(sheet: &'a [u8], orders: &mut [Order]) -> Result<Reading, SheetFault<'a>>
    ensures outcome { Outcome sheet.now orders.old orders.new result }
    ensures exact { ReadsExactly sheet.now orders.old orders.new result }
    ensures only { RefusesExactly sheet.now orders.old orders.new result }
{
    let mut cursor = Cursor {
        rest: sheet,
        line: 1,
    };
    cursor.whole(orders)
}

impl<'a> Cursor<'a> {
    // From the first line to the end.
    #[inline(always)]
    fn whole(&mut self, orders: &mut [Order]) -> Result<Reading, SheetFault<'a>>
        requires first { self.old.line ≡ 1 }
        ensures outcome { Outcome self.old.rest.now orders.old orders.new result }
        ensures exact { ReadsExactly self.old.rest.now orders.old orders.new result }
        ensures only { RefusesExactly self.old.rest.now orders.old orders.new result }
    {
        let reading = self.head(orders.len())?;
        self.fill(orders, reading.count)?;
        self.finish()?;
        Ok(reading)
    }
}
