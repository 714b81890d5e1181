//! The six kinds of message, by name and by number.
ghost use Rattle.std.specs.Prelude.{◌≡◌, ◌+◌};
ghost use Rattle.wire.specs.Kind.{kind_of, number_of, Named, is_request};

/// What a message is about: 1 to 3 ask a replica, 4 to 6 are its replies to a client.
#[derive(Debug, Clone, Copy, PartialEq, Eq)]
pub enum Kind {
    Write,
    Read,
    Tell,
    WriteReply,
    ReadReply,
    TellReply,
}

/// A number that names no kind.
#[derive(Debug, Clone, Copy, PartialEq, Eq)]
pub struct UnknownKind(pub u8);

impl TryFrom<u8> for Kind {
    type Error = UnknownKind;

    ghost try_from_gives = { Named };

    fn try_from(number: u8) -> Result<Self, UnknownKind> {
        match number {
            1 => Ok(Kind::Write),
            2 => Ok(Kind::Read),
            3 => Ok(Kind::Tell),
            4 => Ok(Kind::WriteReply),
            5 => Ok(Kind::ReadReply),
            6 => Ok(Kind::TellReply),
            _ => Err(UnknownKind(number)),
        }
    }
}

impl From<Kind> for u8 {
    ghost from_gives = { λ k n. n ≡ number_of k };

    fn from(kind: Kind) -> u8 {
        match kind {
            Kind::Write => 1,
            Kind::Read => 2,
            Kind::Tell => 3,
            Kind::WriteReply => 4,
            Kind::ReadReply => 5,
            Kind::TellReply => 6,
        }
    }
}

impl Kind {
    /// Does a message of this kind go to a replica?
    pub fn is_request(self) -> bool
        ensures { result ≡ is_request (number_of self) }
    {
        matches!(self, Kind::Write | Kind::Read | Kind::Tell)
    }

    /// The kind of a replica's reply; a reply has none.
    pub fn reply(self) -> Option<Kind>
        ensures { result ≡ kind_of (number_of self + 3) }
    {
        match self {
            Kind::Write => Some(Kind::WriteReply),
            Kind::Read => Some(Kind::ReadReply),
            Kind::Tell => Some(Kind::TellReply),
            Kind::WriteReply | Kind::ReadReply | Kind::TellReply => None,
        }
    }
}
