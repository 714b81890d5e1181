//! A cursor over a sheet: it takes a word and its separator at a time, and counts line ends.
ghost use Rattle.std.specs.Prelude.{◌≡◌, ◌+◌, ◌^◌, ◌<◌, length};
ghost use Rattle.sheet.specs.Word.{word_of};

use crate::fault::SheetFault;
use crate::word::word_len;

#[derive(Drop)]
pub(crate) struct Cursor<'a> {
    pub(crate) rest: &'a [u8],
    pub(crate) line: usize,
    ghost counted: { line + length rest.now < 2 ^ 64 },
}

impl<'a> Cursor<'a> {
    ghost use Rattle.sheet.specs.Steps.{Sees, Closes, Finishes};

    // The word that stands next.
    pub(crate) fn word(&self) -> Result<&'a [u8], SheetFault<'a>>
        ensures { Sees self.now result }
    {
        let rest = self.rest;
        if rest.is_empty() {
            return Err(SheetFault::Ended { line: self.line });
        }
        Ok(&rest[..word_len(rest)])
    }

    // Takes a judged word and the separator that is due behind it.
    pub(crate) fn close(&mut self, word: &'a [u8], separator: u8) -> Result<(), SheetFault<'a>>
        requires next { word.now ≡ word_of self.old.rest.now }
        ensures { Closes word.now separator self.old self.new result }
    {
        let line = self.line;
        match self.rest[word.len()..].split_first() {
            None => Err(SheetFault::Ended { line }),
            Some((found, rest)) if *found == separator => {
                self.rest = rest;
                self.line += usize::from(separator == b'\n');
                Ok(())
            }
            Some(_) => Err(SheetFault::Form { line, word }),
        }
    }

    // Nothing may stand behind the last order.
    pub(crate) fn finish(&self) -> Result<(), SheetFault<'a>>
        ensures { Finishes self.now result }
    {
        if self.rest.is_empty() {
            return Ok(());
        }
        Err(SheetFault::Surplus {
            line: self.line,
            word: self.rest,
        })
    }
}
