//! A space for text: how far it is written, and a guard that puts it back.
ghost use Rattle.std.specs.Prelude.{◌≡◌, ◌+◌, ◌<◌, decimal, is_ok, if◌then◌else◌};
ghost use Rattle.sheet.specs.Word.{closed};
ghost use Rattle.sheet.specs.Page.{Put};

use itoa::{Buffer, Integer};

// No byte more fits.
#[derive(Clone, Copy)]
pub(crate) struct Full;

/// Where a listing stands: how many bytes of its space are written.
#[derive(Debug, Clone, Copy, PartialEq, Eq)]
pub struct Position {
    pub len: usize,
}

// The digit of a number below 10.
pub(crate) fn digit(n: u32) -> u8
    requires { n < 10 }
    ensures { result ≡ 48 + n }
{
    b'0' + n as u8
}

impl Position {
    pub(crate) fn bytes(&mut self, out: &mut [u8], text: &[u8]) -> Result<(), Full>
        ensures { Put out.old self.old.len out.new self.new.len text.now (is_ok result) }
    {
        let end = self.len.checked_add(text.len()).ok_or(Full)?;
        if end > out.len() {
            return Err(Full);
        }
        out[self.len..end].copy_from_slice(text);
        self.len = end;
        Ok(())
    }

    // A number or a value, and its separator.
    pub(crate) fn closed<I: Integer>(
        &mut self,
        out: &mut [u8],
        n: I,
        separator: u8,
    ) -> Result<(), Full>
        ensures { Put out.old self.old.len out.new self.new.len (closed (I.text n) separator) (is_ok result) }
    {
        self.bytes(out, Buffer::new().format(n).as_bytes())?;
        self.bytes(out, &[separator])
    }

    // A number and its separator. Most are short, and a buffer for any number costs a short one several times as much.
    // Inlined, as `plain` and `line` are, so that a line goes from its answer to the space with no call between.
    #[inline(always)]
    pub(crate) fn number(&mut self, out: &mut [u8], n: u32, separator: u8) -> Result<(), Full>
        ensures { Put out.old self.old.len out.new self.new.len (closed (decimal n) separator) (is_ok result) }
    {
        if n < 10 {
            return self.bytes(out, &[digit(n), separator]);
        }
        if n < 100 {
            return self.bytes(out, &[digit(n / 10), digit(n % 10), separator]);
        }
        self.closed(out, n, separator)
    }
}

/// Puts the length back to where the line began, unless the line was completed.
pub(crate) struct LineGuard<'a> {
    pub(crate) at: &'a mut Position,
    pub(crate) start: usize,
    pub(crate) complete: bool,
}

impl Drop for LineGuard<'_> {
    fn drop(self)
        ensures len { self.exit.0.now.len ≡ (if self.entry.complete then self.entry.at.now.len else self.entry.start) }
    {
        if !self.complete {
            self.at.len = self.start;
        }
        let LineGuard {
            at: _,
            start: _,
            complete: _,
        } = self;
    }
}
