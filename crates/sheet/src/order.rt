//! The line of one order.
ghost use Rattle.std.specs.Prelude.{◌<◌};
ghost use Rattle.sheet.specs.Form.{order_words, kind_words, about_words, FineOrder, OfKind};
ghost use Rattle.sheet.specs.Steps.{Reads};

use crate::cursor::Cursor;
use crate::fault::SheetFault;
use crate::kind::{Kind, kind_in};
use orders::order::Order;
use settings::limits::NUMBER_MAX;

impl<'a> Cursor<'a> {
    pub(crate) fn order(&mut self) -> Result<Order, SheetFault<'a>>
        ensures { Reads FineOrder order_words self.old self.new result }
    {
        let kind = self.kind()?;
        self.order_of(kind)
    }

    // Not by `field`: which separator is due depends on what the word is.
    fn kind(&mut self) -> Result<Kind, SheetFault<'a>>
        ensures { Reads (λ _. Unit {0}) kind_words self.old self.new result }
    {
        let word = self.word()?;
        let kind = kind_in(word, self.line)?;
        self.close(word, kind.separator())?;
        Ok(kind)
    }

    // What the order is about.
    fn order_of(&mut self, kind: Kind) -> Result<Order, SheetFault<'a>>
        ensures { Reads (OfKind kind) about_words self.old self.new result }
    {
        match kind {
            Kind::Write => self.value(b'\n').map(Order::Write),
            Kind::Read => self.number(NUMBER_MAX, b'\n').map(Order::Read),
            Kind::Tell => self.number(NUMBER_MAX, b'\n').map(Order::Tell),
            Kind::Carry => Ok(Order::Carry),
            Kind::ReplicaOut => self.number(NUMBER_MAX, b'\n').map(Order::ReplicaOut),
            Kind::ClientOut => self.number(NUMBER_MAX, b'\n').map(Order::ClientOut),
        }
    }
}
