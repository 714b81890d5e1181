//! One sheet: rehearsed, and what is printed of it.
ghost use Rattle.std.specs.Prelude.{◌≡◌, OnOk, Err, [], length};
ghost use Rattle.std.specs.Io.KnownBytes.{Appends};
ghost use Rattle.console.specs.Print.{told, Prints};
ghost use Rattle.console.specs.Sizes.{queue_cells, places, listing_bytes};

use crate::failure::Failure;
use crate::sizes::{LISTING_BYTES, PLACES, QUEUE_CELLS};
use orders::answer::Answer;
use orders::order::Order;
use runner::choice::{Choice, rehearse_by};
use runner::fault::DrillFault;
use runner::memory::Memory;
use sheet::Position;
use std::alloc::Global;
use std::io::Write;
use wire::message::Message;

// A line with the fault.
fn write_fault<W: Write>(alloc: Global, fault: DrillFault, w: &mut W) -> Result<(), Failure>
    ensures { OnOk result (Appends (W.contents w.old) (W.contents w.new) (told (Err fault.entry) [])) }
{
    let line = format!(in alloc; "{fault}\n")?;
    w.write_all(line.as_bytes())?;
    Ok(())
}

// Rehearses the sheet in the memory lent, and writes what comes of it.
#[tactic(auto, using(crate::proofs::Printing::prints, crate::proofs::Printing::tells))]
fn write_outcome<W: Write>(
    alloc: Global,
    choice: Choice,
    cells: &mut [Message],
    sheet: &[u8],
    memory: &mut Memory,
    w: &mut W,
) -> Result<(), Failure>
    requires cells { length cells.old ≡ queue_cells }
    requires orders { length memory.old.orders.now ≡ places }
    requires answers { length memory.old.answers.now ≡ places }
    requires out { length memory.old.out.now ≡ listing_bytes }
    ensures { OnOk result (Prints choice sheet.now (W.contents w.old) (W.contents w.new)) }
{
    match rehearse_by(choice, cells, sheet, memory) {
        Ok(n) => w.write_all(&memory.out[..n])?,
        Err(fault) => write_fault(alloc, fault, w)?,
    }
    Ok(())
}

/// Rehearses the sheet over a new channel, and writes its listing, or a line with the fault. An error is of memory, or
/// of the writer, which may then hold a part.
pub fn print<W: Write>(
    alloc: Global,
    choice: Choice,
    sheet: &[u8],
    w: &mut W,
) -> Result<(), Failure>
    ensures { OnOk result (Prints choice sheet.now (W.contents w.old) (W.contents w.new)) }
{
    let mut cells = vec![in alloc; Message::default(); QUEUE_CELLS]?;
    let mut orders = vec![in alloc; Order::Carry; PLACES]?;
    let mut answers = vec![in alloc; Answer::Dropped; PLACES]?;
    let mut out = vec![in alloc; 0u8; LISTING_BYTES]?;
    let mut at = Position { len: 0 };
    let mut memory = Memory {
        orders: &mut orders,
        answers: &mut answers,
        out: &mut out,
        at: &mut at,
    };
    write_outcome(alloc, choice, &mut cells, sheet, &mut memory, w)
}
