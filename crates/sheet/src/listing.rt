//! The listing writer: whole lines, or none of a line that does not fit.
ghost use Rattle.std.specs.Prelude.{◌≡◌, is_ok, IfErr};
ghost use Rattle.sheet.specs.declared.fault.SheetFault.TheVariants.{Listing};
ghost use Rattle.sheet.specs.Fault.{shown};
ghost use Rattle.sheet.specs.Page.{Put, Lined};
ghost use Rattle.sheet.specs.Listing.{plain_answer, line_of, Lists};

use crate::fault::SheetFault;
use crate::page::{Full, LineGuard, Position, digit};
use orders::answer::{Answer, Listed};

impl Position {
    // A line that shows no version, value and rounds, as most do. With a code from 100 to 109 and a short who it is one
    // array, which costs less than its words one by one.
    #[inline(always)]
    fn plain(&mut self, out: &mut [u8], code: u32, who: u32) -> Result<(), Full>
        ensures { Put out.old self.old.len out.new self.new.len (line_of (plain_answer code who)) (is_ok result) }
    {
        if code >= 100 && code < 110 && who < 100 {
            let last = digit(code - 100);
            if who < 10 {
                let one = digit(who);
                let text = [
                    b'1', b'0', last, b' ', one, b' ', b'0', b' ', b'0', b' ', b'0', b'\n',
                ];
                return self.bytes(out, &text);
            }
            let (ten, one) = (digit(who / 10), digit(who % 10));
            let text = [
                b'1', b'0', last, b' ', ten, one, b' ', b'0', b' ', b'0', b' ', b'0', b'\n',
            ];
            return self.bytes(out, &text);
        }
        self.number(out, code, b' ')?;
        self.number(out, who, b' ')?;
        self.bytes(out, b"0 0 0\n")
    }

    #[inline(always)]
    fn line(&mut self, out: &mut [u8], l: Listed) -> Result<(), Full>
        ensures { Put out.old self.old.len out.new self.new.len (line_of l) (is_ok result) }
    {
        if l.version == 0 && l.value == 0 && l.rounds == 0 {
            return self.plain(out, l.code, l.who);
        }
        self.number(out, l.code, b' ')?;
        self.number(out, l.who, b' ')?;
        self.number(out, l.version, b' ')?;
        self.closed(out, l.value, b' ')?;
        self.number(out, l.rounds, b'\n')
    }
}

// A line, or nothing: the length is then where it was.
fn write_line(listed: Listed, out: &mut [u8], at: &mut Position) -> Result<(), SheetFault<'static>>
    ensures wrote { Lined out.old at.old.len out.new at.new.len (line_of listed) (is_ok result) }
    ensures says { IfErr result (λ f. shown f ≡ shown Listing) }
{
    let start = at.len;
    let mut guard = LineGuard {
        at,
        start,
        complete: false,
    };
    guard.at.line(out, listed).map_err(|_| SheetFault::Listing)?;
    guard.complete = true;
    Ok(())
}

/// A line for each answer, from the start of the space. Where one does not fit, the lines before it stand.
pub fn write_listing(
    answers: &[Answer],
    out: &mut [u8],
    at: &mut Position,
) -> Result<usize, SheetFault<'static>>
    ensures { Lists answers.now out.new at.new result }
{
    at.len = 0;
    for a in answers {
        write_line((*a).into(), out, at)?;
    }
    Ok(at.len)
}
