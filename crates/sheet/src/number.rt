//! Numbers and values: a word is judged, its form before its size.
ghost use Rattle.std.specs.Prelude.{◌≡◌, ◌^◌, ◌<◌, ◌≤◌, true, MatchOption};
ghost use Rattle.sheet.specs.Word.{amount, numeral};
ghost use Rattle.sheet.specs.Form.{number, value, fixed};
ghost use Rattle.sheet.specs.Steps.{Counts, Values, Judges, JudgesCount, Bounds};

use crate::fault::SheetFault;
use crate::word::Word;
use settings::limits::{NUMBER_MAX, ORDERS_MAX};

// The number that digits write, where it is below 2 ^ 32.
// Not by `parse`, which asks for text: each byte would be looked at once more.
fn amount_of(digits: &[u8]) -> Option<u32>
    requires { numeral digits.now ≡ true }
    ensures { MatchOption result (2 ^ 32 ≤ amount digits.now) (λ n. n ≡ amount digits.now) }
{
    let mut n: u64 = 0;
    for b in digits {
        n = n * 10 + u64::from(*b - b'0');
        if n > u64::from(u32::MAX) {
            return None;
        }
    }
    Some(n as u32)
}

// The number that the digits of a word write, up to a limit.
fn bounded<'a>(
    word: &'a [u8],
    digits: &[u8],
    limit: u32,
    line: usize,
) -> Result<u32, SheetFault<'a>>
    requires { numeral digits.now ≡ true }
    ensures { Bounds limit digits.now word.now line result }
{
    amount_of(digits)
        .filter(|n| *n <= limit)
        .ok_or(SheetFault::Limit { line, word })
}

pub(crate) fn number_in<'a>(word: &'a [u8], limit: u32, line: usize) -> Result<u32, SheetFault<'a>>
    ensures { Judges (Counts limit word.now) (number limit) word.now line result }
{
    match Word::judge(word) {
        Word::Digits(digits) => bounded(word, digits, limit, line),
        _ => Err(SheetFault::Form { line, word }),
    }
}

pub(crate) fn value_in<'a>(word: &'a [u8], line: usize) -> Result<i32, SheetFault<'a>>
    ensures { Judges (Values word.now) value word.now line result }
{
    match Word::judge(word) {
        Word::Digits(digits) => Ok(bounded(word, digits, NUMBER_MAX, line)? as i32),
        Word::Negative(digits) => Ok(-(bounded(word, digits, NUMBER_MAX, line)? as i32)),
        Word::Name(_) => Err(SheetFault::Form { line, word }),
    }
}

pub(crate) fn fixed_in<'a>(word: &'a [u8], text: &[u8], line: usize) -> Result<(), SheetFault<'a>>
    ensures { Judges (λ _. word.now ≡ text.now) (fixed text.now) word.now line result }
{
    if word == text {
        return Ok(());
    }
    Err(SheetFault::Form { line, word })
}

// The number of orders, which the places handed in must hold.
pub(crate) fn count_in<'a>(
    word: &'a [u8],
    places: usize,
    line: usize,
) -> Result<usize, SheetFault<'a>>
    ensures { JudgesCount places word.now line result }
{
    let count = number_in(word, ORDERS_MAX, line)? as usize;
    if count > places {
        return Err(SheetFault::Orders { line, word });
    }
    Ok(count)
}
