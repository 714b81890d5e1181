//! Answers and refusals, by name; `Listed` has the five numbers that a listing shows of an answer.
ghost use Rattle.std.specs.Prelude.{◌≡◌};
ghost use Rattle.orders.specs.Answer.{number_of, listed_as, bare_of};

/// Why a call was sent back.
#[derive(Debug, Clone, Copy, PartialEq, Eq)]
pub enum Refusal {
    /// no such reader, replica or client
    Unknown,
    /// the client is out
    Withdrawn,
    /// the client's last call has not ended
    Busy,
    /// no read is due
    NotDue,
    /// the value is outside its range
    ValueRange,
    /// the client's round number has come to its limit
    RoundLimit,
    /// the channel has too few free places
    NoRoom,
    /// no message waits
    NothingWaits,
    /// the replica is already out
    AlreadyOut,
    /// as many replicas are out as may be
    OutLimit,
}

/// An ended write or read, with what it shows.
#[derive(Debug, Clone, Copy, PartialEq, Eq)]
pub struct Ending {
    pub client: u8,
    pub rounds: u8,
    pub version: u32,
    pub value: i32,
}

/// What one call came to.
#[derive(Debug, Clone, Copy, PartialEq, Eq)]
pub enum Answer {
    /// the call was accepted; for a write 0, else the number given
    Accepted(u32),
    /// the replica replied to this client's message
    Replied(u8),
    /// the replica or client addressed is out
    Lost(u8),
    /// stale at the replica, or a reply that does not count
    Ignored(u8),
    /// the reply was counted, and did not decide
    Counted(u8),
    /// the client's call ended
    Ended(Ending),
    /// the client's read became due
    BecameDue(u8),
    /// no such kind, replica or client
    Dropped,
    /// the call was sent back; the number as it was given
    Refused(Refusal, u32),
}

/// An answer as a listing shows it; what the answer has not is 0.
#[derive(Debug, Clone, Copy, PartialEq, Eq, Default)]
pub struct Listed {
    /// as the listing prints it; `Answer` has the names
    pub code: u32,
    pub who: u32,
    pub version: u32,
    pub value: i32,
    pub rounds: u32,
}

impl From<Refusal> for u32 {
    ghost from_gives = { λ r n. n ≡ number_of r };

    fn from(refusal: Refusal) -> u32 {
        match refusal {
            Refusal::Unknown => 11,
            Refusal::Withdrawn => 12,
            Refusal::Busy => 13,
            Refusal::NotDue => 14,
            Refusal::ValueRange => 15,
            Refusal::RoundLimit => 16,
            Refusal::NoRoom => 17,
            Refusal::NothingWaits => 18,
            Refusal::AlreadyOut => 19,
            Refusal::OutLimit => 20,
        }
    }
}

// A code with whom it names, and nothing shown.
fn bare(code: u32, who: u32) -> Listed
    ensures { result ≡ bare_of code who }
{
    Listed {
        code,
        who,
        ..Listed::default()
    }
}

impl From<Answer> for Listed {
    ghost from_gives = { λ a l. l ≡ listed_as a };

    fn from(answer: Answer) -> Listed {
        match answer {
            Answer::Accepted(who) => bare(100, who),
            Answer::Replied(client) => bare(101, u32::from(client)),
            Answer::Lost(client) => bare(102, u32::from(client)),
            Answer::Ignored(client) => bare(103, u32::from(client)),
            Answer::Counted(client) => bare(104, u32::from(client)),
            Answer::Ended(e) => Listed {
                code: 105,
                who: u32::from(e.client),
                version: e.version,
                value: e.value,
                rounds: u32::from(e.rounds),
            },
            Answer::BecameDue(client) => bare(106, u32::from(client)),
            Answer::Dropped => bare(107, 0),
            Answer::Refused(refusal, who) => bare(u32::from(refusal), who),
        }
    }
}
