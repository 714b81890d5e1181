//! Words of a sheet: how far one runs, and which sort it is.
ghost use Rattle.std.specs.Prelude.{◌≡◌};
ghost use Rattle.std.specs.List.{prefix_len};
ghost use Rattle.sheet.specs.Word.{in_word, numeral, sort_of, sorted};

/// A judged word. Each case holds a part of the sheet.
#[derive(Clone, Copy)]
pub(crate) enum Word<'a> {
    /// a number
    Digits(&'a [u8]),
    /// a number other than 0 after a minus sign, without the sign
    Negative(&'a [u8]),
    /// any other word
    Name(&'a [u8]),
}

// The number of bytes of the word that stands first.
pub(crate) fn word_len(rest: &[u8]) -> usize
    ensures { result ≡ prefix_len in_word rest.now }
{
    rest.iter()
        .position(|b| *b == b' ' || *b == b'\n')
        .unwrap_or(rest.len())
}

fn is_numeral(word: &[u8]) -> bool
    ensures { result ≡ numeral word.now }
{
    match word {
        [] | [b'0', _, ..] => false,
        _ => word.iter().all(|b| b.is_ascii_digit()),
    }
}

impl<'a> Word<'a> {
    /// No number has a leading zero, and `-0` is none: such a word is a name, as the empty one is.
    pub(crate) fn judge(word: &'a [u8]) -> Word<'a>
        ensures { sort_of result ≡ sorted word.now }
    {
        match word {
            _ if is_numeral(word) => Word::Digits(word),
            [b'-', b'0', ..] => Word::Name(word),
            [b'-', digits @ ..] if is_numeral(digits) => Word::Negative(digits),
            _ => Word::Name(word),
        }
    }
}
