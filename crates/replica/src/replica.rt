//! A replica's record: how it is made from a row, and what a message does to it.
ghost use Rattle.std.specs.Prelude.{◌≡◌, ◌+◌, ◌<◌, ◌≤◌, Some};
ghost use Rattle.settings.specs.Limits.{clients_max};
ghost use Rattle.wire.specs.Kind.{kind_of, number_of};

use crate::row::Row;
use settings::limits::CLIENTS_MAX;
use wire::kind::Kind;
use wire::message::Message;

/// A replica's record: none exists whose note exceeds its version.
#[derive(Debug, Clone, Copy)]
pub struct Replica {
    pub(crate) version: u32,
    pub(crate) value: i32,
    pub(crate) previous: i32,
    pub(crate) marks: u8,
    pub(crate) note: u32,
    pub(crate) rounds: [u32; CLIENTS_MAX as usize],
    ghost sound: { note ≤ version },
}

/// The record of a row, with the lower of the row's note and version as note.
impl From<Row> for Replica {
    ghost use Rattle.replica.specs.Replica.{plain};
    ghost use Rattle.replica.specs.Row.{record_of};

    ghost from_gives = { λ row r. plain r ≡ record_of row };

    fn from(row: Row) -> Replica {
        // a literal takes an array from a variable only
        let rounds = row.rounds;
        Replica {
            version: row.version,
            value: row.value,
            previous: row.previous,
            marks: row.marks,
            note: row.note.min(row.version),
            rounds,
        }
    }
}

/// What a record holds, as a row.
impl From<Replica> for Row {
    ghost use Rattle.replica.specs.Replica.{plain};

    ghost from_gives = { λ r row. row ≡ plain r };

    fn from(record: Replica) -> Row {
        let rounds = record.rounds;
        Row {
            version: record.version,
            value: record.value,
            previous: record.previous,
            marks: record.marks,
            note: record.note,
            rounds,
        }
    }
}

impl Replica {
    ghost use Rattle.replica.specs.Replica.{plain, fresh, reply_from, stepped, replied};
    ghost use Rattle.replica.specs.Row.{opened_row};

    /// A replica's record as it opens.
    pub fn open(initial: i32) -> Replica
        ensures { plain result ≡ opened_row initial }
    {
        Replica {
            version: 0,
            value: initial,
            previous: initial,
            marks: 0,
            note: 0,
            // no round of any client heard yet
            rounds: [0u32; 65],
        }
    }

    // A fresh request: its round is recorded, and what it brings is taken.
    fn take(&mut self, kind: Kind, m: Message)
        requires client { m.client < clients_max }
        requires named { kind_of m.kind ≡ Some kind }
        ensures { plain self.new ≡ fresh (plain self.old) m }
    {
        self.rounds[usize::from(m.client)] = m.round;
        if m.version > self.version {
            self.version = m.version;
            self.value = m.value;
            self.previous = m.previous;
            self.marks = m.marks;
        } else {
            self.marks |= m.marks;
        }
        if kind == Kind::Tell {
            self.note = self.note.max(m.version);
        }
    }

    // The reply to a message: its client and round, and what is held now.
    fn reply(&self, kind: Kind, m: Message) -> Message
        requires { number_of kind ≡ m.kind + 3 }
        ensures { result ≡ reply_from (plain self.now) m }
    {
        Message {
            kind: kind.into(),
            version: self.version,
            value: self.value,
            previous: self.previous,
            marks: self.marks,
            note: self.note,
            ..m
        }
    }

    /// One message: stale ones change nothing and have no reply.
    pub fn step(&mut self, m: Message) -> Option<Message>
        ensures after { plain self.new ≡ stepped (plain self.old) m }
        ensures reply { result ≡ replied (plain self.old) m }
    {
        let kind = Kind::try_from(m.kind).ok()?;
        let reply = kind.reply()?;
        let last = *self.rounds.get(usize::from(m.client))?;
        if m.round <= last {
            return None;
        }
        self.take(kind, m);
        Some(self.reply(reply, m))
    }
}
