//! A whole program: a sheet in, what comes of it out.
ghost use Rattle.std.specs.Prelude.{◌≡◌, take, IfOk, IfSome, OnOk};
ghost use Rattle.console.specs.Print.{PrintsInput};
ghost use Rattle.console.specs.Print.{first_bytes};

use crate::failure::Failure;
use crate::print::print;
use crate::sizes::SHEET_BYTES;
use runner::choice::Choice;
use std::alloc::Global;
use std::io::{self, Read, Write};

// The first bytes of the input, as many as a sheet may have.
#[tactic(auto, unfolding(crate::specs::Print::first_bytes))]
fn read_sheet<R: Read + Drop>(alloc: Global, input: R) -> io::Result<Vec<u8>>
    ensures { IfOk result (λ sheet. IfSome (first_bytes (R.remaining input)) (λ xs. sheet.items ≡ xs)) }
{
    let mut sheet = Vec::new(alloc);
    input.take(SHEET_BYTES).read_to_end(&mut sheet)?;
    Ok(sheet)
}

/// Takes the first 65,536 bytes of the input for the sheet. An error is of memory, or of the input or the writer.
#[tactic(auto, using(crate::proofs::Printing::prints_of))]
pub fn run<R: Read + Drop, W: Write>(
    alloc: Global,
    choice: Choice,
    input: R,
    w: &mut W,
) -> Result<(), Failure>
    ensures { OnOk result (PrintsInput choice (R.remaining input) (W.contents w.old) (W.contents w.new)) }
{
    let sheet = read_sheet(alloc, input)?;
    print(alloc, choice, &sheet, w)
}
