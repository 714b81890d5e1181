//! What a client keeps of a reply: a bare receipt, or a reading.
ghost use Rattle.std.specs.Prelude.{◌≡◌, ℕ};
ghost use Rattle.quorum.specs.Slip.{receipt_of, reading_of};

use wire::message::Message;

/// What names the replica that sent it.
pub trait Slip {
    ghost sent_by: { Self → ℕ };

    fn sender(&self) -> u8
        ensures { result ≡ sent_by self.now };
}

/// What also names a version.
pub trait VersionedSlip: Slip {
    ghost version_of: { Self → ℕ };

    fn version(&self) -> u32
        ensures { result ≡ version_of self.now };
}

/// That a replica has replied to a write or a tell.
#[derive(Debug, Default, Clone, Copy, PartialEq, Eq)]
pub struct Receipt {
    pub replica: u8,
}

/// What a replica replied to a read.
#[derive(Debug, Clone, Copy, PartialEq, Eq, Default)]
pub struct Reading {
    pub replica: u8,
    pub marks: u8,
    pub version: u32,
    pub value: i32,
    pub previous: i32,
    pub note: u32,
}

impl Slip for Receipt {
    ghost sent_by = { λ s. s.replica };

    fn sender(&self) -> u8 {
        self.replica
    }
}

impl From<Message> for Receipt {
    ghost from_gives = { λ m r. r ≡ receipt_of m };

    fn from(m: Message) -> Receipt {
        Receipt { replica: m.replica }
    }
}

impl Slip for Reading {
    ghost sent_by = { λ s. s.replica };

    fn sender(&self) -> u8 {
        self.replica
    }
}

impl VersionedSlip for Reading {
    ghost version_of = { λ s. s.version };

    fn version(&self) -> u32 {
        self.version
    }
}

impl From<Message> for Reading {
    ghost from_gives = { λ m r. r ≡ reading_of m };

    fn from(m: Message) -> Reading {
        Reading {
            replica: m.replica,
            version: m.version,
            value: m.value,
            previous: m.previous,
            marks: m.marks,
            note: m.note,
        }
    }
}

impl Slip for Message {
    ghost sent_by = { λ m. m.replica };

    fn sender(&self) -> u8 {
        self.replica
    }
}

impl VersionedSlip for Message {
    ghost version_of = { λ m. m.version };

    fn version(&self) -> u32 {
        self.version
    }
}
