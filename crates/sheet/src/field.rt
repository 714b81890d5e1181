//! Single fields of a sheet: a word that is due, and its separator.
ghost use Rattle.std.specs.Prelude.{◌<◌, ◌≤◌};
ghost use Rattle.sheet.specs.Form.{fixed_words, number_words, value_words, SmallValue};
ghost use Rattle.sheet.specs.Steps.{Reads, ReadsField};

use crate::cursor::Cursor;
use crate::fault::SheetFault;
use crate::number::{fixed_in, number_in, value_in};

impl<'a> Cursor<'a> {
    // What the next word is judged to be, with the separator behind it.
    // Inlined, as `value` is, since its result would else go through memory at each word.
    #[inline(always)]
    pub(crate) fn field<T: Drop, F: FnOnce(&'a [u8], usize) -> Result<T, SheetFault<'a>>>(
        &mut self,
        judge: F,
        separator: u8,
    ) -> Result<T, SheetFault<'a>>
        requires judged { F.IsAlwaysCallable judge }
        ensures { ReadsField (λ word r. F.post judge word self.old.line r) separator self.old self.new result }
    {
        let word = self.word()?;
        let value = judge(word, self.line)?;
        self.close(word, separator)?;
        Ok(value)
    }

    // A number up to a limit.
    pub(crate) fn number(&mut self, limit: u32, separator: u8) -> Result<u32, SheetFault<'a>>
        ensures { Reads (λ n. n ≤ limit) (number_words limit separator) self.old self.new result }
    {
        self.field(|word, line| number_in(word, limit, line), separator)
    }

    // A value.
    #[inline(always)]
    pub(crate) fn value(&mut self, separator: u8) -> Result<i32, SheetFault<'a>>
        ensures { Reads SmallValue (value_words separator) self.old self.new result }
    {
        self.field(value_in, separator)
    }

    // This word and no other.
    pub(crate) fn fixed(&mut self, text: &[u8], separator: u8) -> Result<(), SheetFault<'a>>
        ensures { Reads (λ _. Unit {0}) (λ _. fixed_words text.now separator) self.old self.new result }
    {
        self.field(|word, line| fixed_in(word, text, line), separator)
    }
}
