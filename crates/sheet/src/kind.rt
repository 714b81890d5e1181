//! The kinds of orders, by the word at the start of a line.
ghost use Rattle.std.specs.Prelude.{◌≡◌};
ghost use Rattle.sheet.specs.Form.{kind};
ghost use Rattle.sheet.specs.Kind.{word_for, separator_for, kind_at};
ghost use Rattle.sheet.specs.Steps.{Judges};

use crate::fault::SheetFault;

// The kind alone: what the order is about stands behind it, and is not read yet.
#[derive(Clone, Copy)]
pub(crate) enum Kind {
    Write,
    Read,
    Tell,
    Carry,
    ReplicaOut,
    ClientOut,
}

impl Kind {
    pub(crate) fn separator(self) -> u8
        ensures { result ≡ separator_for self }
    {
        match self {
            Kind::Carry => b'\n',
            Kind::Write | Kind::Read | Kind::Tell | Kind::ReplicaOut | Kind::ClientOut => b' ',
        }
    }
}

fn kind_of(word: &[u8]) -> Option<Kind>
    ensures { result ≡ kind_at word.now }
{
    let [byte] = word else {
        return None;
    };
    match char::from(*byte) {
        'w' => Some(Kind::Write),
        'r' => Some(Kind::Read),
        't' => Some(Kind::Tell),
        'c' => Some(Kind::Carry),
        'b' => Some(Kind::ReplicaOut),
        'x' => Some(Kind::ClientOut),
        _ => None,
    }
}

pub(crate) fn kind_in<'a>(word: &'a [u8], line: usize) -> Result<Kind, SheetFault<'a>>
    ensures { Judges (λ k. word.now ≡ word_for k) kind word.now line result }
{
    kind_of(word).ok_or(SheetFault::Form { line, word })
}
