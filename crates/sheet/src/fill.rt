//! The lines of the orders, each filled into its place.
ghost use Rattle.std.specs.Prelude.{◌<◌, ◌≤◌, length};
ghost use Rattle.settings.specs.Limits.{orders_max};
ghost use Rattle.sheet.specs.Steps.{Fills};

use crate::cursor::Cursor;
use crate::fault::SheetFault;
use orders::order::Order;

impl<'a> Cursor<'a> {
    pub(crate) fn fill(&mut self, orders: &mut [Order], count: usize) -> Result<(), SheetFault<'a>>
        requires few { count ≤ orders_max }
        requires room { count ≤ length orders.old }
        ensures { Fills count self.old orders.old orders.new self.new result }
    {
        for place in &mut orders[..count] {
            *place = self.order()?;
        }
        Ok(())
    }
}
