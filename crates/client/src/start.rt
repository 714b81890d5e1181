//! A client opens and starts a round, and what it puts out.
ghost use Rattle.std.specs.Prelude.{◌≡◌};
ghost use Rattle.wire.specs.Kind.{number_of};
ghost use Rattle.client.specs.Client.{opened_client};
ghost use Rattle.client.specs.Start.{order_of, kind_of, set_size, started, outgoing};
ghost use Rattle.orders.specs.Order.{named};

use crate::client::{Client, Phase};
use quorum::replies::{Readings, Receipts};
use settings::checked::Checked;
use wire::kind::Kind;
use wire::message::Message;

/// A round that a client begins: of a write its value, of a reader its number.
#[derive(Debug, Clone, Copy, PartialEq, Eq)]
pub enum Round {
    Write(i32),
    Read(u8),
    Tell(u8),
}

impl Round {
    /// The client that begins it: 0, the writer, or the reader.
    pub fn client(self) -> u8
        ensures { result ≡ named (order_of self) }
    {
        match self {
            Round::Write(_) => 0,
            Round::Read(reader) | Round::Tell(reader) => reader,
        }
    }

    pub fn kind(self) -> Kind
        ensures { number_of result ≡ kind_of self }
    {
        match self {
            Round::Write(_) => Kind::Write,
            Round::Read(_) => Kind::Read,
            Round::Tell(_) => Kind::Tell,
        }
    }

    /// How many messages it puts out: one to each replica, or 3t + 1 of a tell.
    pub fn count(self, k: &Checked) -> u8
        ensures { result ≡ set_size k.now (kind_of self) }
    {
        match self {
            Round::Write(_) | Round::Read(_) => k.replicas,
            Round::Tell(_) => 3 * k.tolerated + 1,
        }
    }
}

impl Client {
    /// A client as it opens: it knows the initial value as version 0.
    // Not inlined, since the table of clients is then filled by whole copies, and not cleared first.
    #[inline(never)]
    pub fn open(initial: i32) -> Client
        ensures { result ≡ opened_client initial }
    {
        Client {
            out: false,
            round: 0,
            version: 0,
            value: initial,
            previous: initial,
            phase: Phase::Idle,
        }
    }

    /// One round more, in the phase that awaits its replies.
    pub fn start(&mut self, round: Round)
        ensures { self.new ≡ started self.old round }
    {
        self.round = self.round.saturating_add(1);
        match round {
            Round::Write(value) => {
                self.version = self.round;
                self.previous = self.value;
                self.value = value;
                self.phase = Phase::Writing(Receipts::none());
            }
            Round::Read(_) => self.phase = Phase::Asking(Readings::none()),
            Round::Tell(_) => self.phase = Phase::Telling(Receipts::none()),
        }
    }

    /// A message of the client's present round.
    pub fn message(&self, k: &Checked, kind: Kind, client: u8) -> Message
        ensures { result ≡ outgoing k.now (number_of kind) client self.now }
    {
        Message {
            kind: kind.into(),
            replica: 0,
            client,
            round: self.round,
            version: self.version,
            value: self.value,
            previous: self.previous,
            marks: k.mark(client),
            note: 0,
        }
    }
}
