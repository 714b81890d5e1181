//! A session: opens a register and does a list of orders.
ghost use Rattle.std.specs.Prelude.{IfOk, IfErr};
ghost use Rattle.register.specs.Session.{SessionRan, NotDone};

use crate::fault::RegisterFault;
use crate::open::{check, make};
use crate::register::Register;
use orders::answer::Answer;
use orders::order::Order;
use settings::given::Settings;
use wire::channel::Channel;

/// Opens a register and does the orders; gives the register as they leave it. A fault leaves channel and answers as
/// they were.
pub fn open_and_run<C: Channel>(
    s: Settings,
    c: &mut C,
    orders: &[Order],
    answers: &mut [Answer],
) -> Result<Register, RegisterFault>
    ensures done { IfOk result (SessionRan s (C.contents c.old) orders.now answers.old answers.new (C.contents c.new)) }
    ensures not_done { IfErr result (NotDone s (C.contents c.old) orders.now answers.old answers.new c.old c.new) }
{
    // Not by `open`: its result would have to be taken apart, which moves the table of clients once more.
    let settings = check(s, c)?;
    let mut register = make(settings);
    register.run(c, orders, answers)?;
    Ok(register)
}
