//! The drill: a sheet in, a listing out, over any channel.
ghost use Rattle.std.specs.Prelude.{◌≡◌, ◌≤◌, length};
ghost use Rattle.runner.specs.Drill.{DrillsIn, Plays};
ghost use Rattle.runner.specs.Memory.{SameLenders};

use crate::fault::DrillFault;
use crate::memory::Memory;
use orders::answer::Answer;
use orders::order::Order;
use session::perform::perform;
use sheet::listing::write_listing;
use sheet::page::Position;
use sheet::read::{Reading, read};
use wire::channel::Channel;

// Does the orders that were read, and lists their answers.
// The parts one by one and no `Memory`, since after `&done[..n]` no fact ties what a reborrow of its field gives back
// to the answers that were written. done: the places for the answers.
fn play<'a, C: Channel>(
    head: Reading,
    c: &mut C,
    orders: &[Order],
    done: &mut [Answer],
    out: &mut [u8],
    at: &mut Position,
) -> Result<usize, DrillFault<'a>>
    requires { head.count ≤ length orders.now }
    ensures { Plays C.contents head orders.now c.old done.old out.old at.old c.new done.new out.new at.new result }
{
    let n = head.count;
    let _register = perform(head.settings, c, &orders[..n], done)?;
    let written = write_listing(&done[..n], out, at)?;
    Ok(written)
}

/// Reads the sheet, opens a register over the channel, runs the orders and writes the listing: its length, or the first
/// fault.
pub fn drill<'a, C: Channel>(
    sheet: &'a [u8],
    c: &mut C,
    memory: &mut Memory,
) -> Result<usize, DrillFault<'a>>
    ensures drilled { DrillsIn C.contents sheet.now c.old memory.old c.new memory.new result }
    ensures lent { SameLenders memory.old memory.new }
{
    let orders = &mut *memory.orders;
    let answers = &mut *memory.answers;
    let out = &mut *memory.out;
    let at = &mut *memory.at;
    let head = read(sheet, orders)?;
    play(head, c, orders, answers, out, at)
}
