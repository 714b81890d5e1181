//! The forms of channel that a rehearsal offers.
ghost use Rattle.runner.specs.Memory.{SameLenders};
ghost use Rattle.runner.specs.Rehearse.{RehearsedIn};
ghost use Rattle.runner.specs.Choice.{new_channel};

use crate::drill::drill;
use crate::fault::DrillFault;
use crate::memory::Memory;
use channels::delay::Delay;
use channels::queue::Queue;
use channels::slots::Slots;
use wire::message::Message;

/// A replica's number may be any byte: a layer over one that the sheet does not have delays nothing.
#[derive(Debug, Clone, Copy, PartialEq, Eq)]
pub enum Choice {
    Queue,
    Slots,
    /// A layer that delays the replica, over a queue.
    DelayQueue(u8),
    /// A layer that delays the replica, over a slot table.
    DelaySlots(u8),
    /// Two layers over a queue, the upper one first.
    DelayTwice(u8, u8),
}

/// A drill over a new channel of the form chosen; a queue lies in the cells.
pub fn rehearse_by<'a>(
    choice: Choice,
    cells: &mut [Message],
    sheet: &'a [u8],
    memory: &mut Memory,
) -> Result<usize, DrillFault<'a>>
    ensures rehearsed { RehearsedIn sheet.now (new_channel choice cells.old) memory.old memory.new result }
    ensures lent { SameLenders memory.old memory.new }
{
    match choice {
        Choice::Queue => drill(sheet, &mut Queue::new(cells), memory),
        Choice::Slots => drill(sheet, &mut Slots::new(), memory),
        Choice::DelayQueue(n) => drill(sheet, &mut Delay::new(Queue::new(cells), n), memory),
        Choice::DelaySlots(n) => drill(sheet, &mut Delay::new(Slots::new(), n), memory),
        Choice::DelayTwice(n, m) => {
            let below = Delay::new(Queue::new(cells), m);
            drill(sheet, &mut Delay::new(below, n), memory)
        }
    }
}
