//! What the register's table holds of a replica, and the step of one row.
ghost use Rattle.std.specs.Prelude.{◌≡◌};

use crate::replica::Replica;
use settings::limits::CLIENTS_MAX;
use wire::message::Message;

/// A replica as it lies in the register's table: a plain row, of which nothing is promised.
#[derive(Debug, Clone, Copy)]
pub struct Row {
    pub version: u32,
    pub value: i32,
    pub previous: i32,
    /// which clients saw this version, a bit for the writer and for each group of readers
    pub marks: u8,
    /// the highest version that a tell brought
    pub note: u32,
    /// the last round heard from each client
    pub rounds: [u32; CLIENTS_MAX as usize],
}

impl Row {
    ghost use Rattle.replica.specs.Row.{opened_row, delivered, delivered_reply};

    /// A replica's row as it opens: that of the record.
    pub fn open(initial: i32) -> Row
        ensures { result ≡ opened_row initial }
    {
        Replica::open(initial).into()
    }

    /// One message at this row: its record is made, stepped and written back.
    pub fn deliver(&mut self, m: Message) -> Option<Message>
        ensures after { self.new ≡ delivered self.old m }
        ensures reply { result ≡ delivered_reply self.old m }
    {
        let client = usize::from(m.client);
        let mut record = Replica::from(*self);
        let reply = record.step(m);
        self.version = record.version;
        self.value = record.value;
        self.previous = record.previous;
        self.marks = record.marks;
        self.note = record.note;
        // Of the rounds only the client's can be another, so the others are not copied back.
        if let Some(round) = record.rounds.get(client) {
            self.rounds[client] = *round;
        }
        reply
    }
}
