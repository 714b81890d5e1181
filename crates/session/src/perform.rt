//! The call that opens a register and runs a list of orders, with what the laws say of it.
ghost use Rattle.std.specs.Prelude.{IfOk, IfErr};
ghost use Rattle.session.specs.Perform.{Done};
ghost use Rattle.register.specs.Session.{NotDone};
ghost use Rattle.theory.specs.Stand.{Laws};

use orders::{Answer, Order};
use register::session::open_and_run;
use register::{Register, RegisterFault};
use settings::Settings;
use wire::Channel;

/// Opens a register over any channel and does the orders: they are a past from the opening, this past keeps the laws,
/// and so does every other. A fault leaves channel and answers as they were: the settings or the channel do not open,
/// or the answers are fewer than the orders.
#[tactic(auto, using(crate::proofs::Session::done))]
pub fn perform<C: Channel>(
    s: Settings,
    c: &mut C,
    orders: &[Order],
    answers: &mut [Answer],
) -> Result<Register, RegisterFault>
    ensures done { IfOk result (Done s (C.contents c.old) orders.now answers.old answers.new (C.contents c.new)) }
    ensures not_done { IfErr result (NotDone s (C.contents c.old) orders.now answers.old answers.new c.old c.new) }
    ensures laws { Laws }
{
    open_and_run(s, c, orders, answers)
}
