//! The calls that start something or withdraw someone.
ghost use Rattle.std.specs.Prelude.{◌≡◌};
ghost use Rattle.register.specs.World.{Does};

use crate::register::Register;
use client::start::Round;
use orders::answer::Answer;
use orders::order::Order;
use wire::channel::Channel;

// The channel is handed in at each call, and the register owns none: so each contract says what both are after it.
impl Register {
    /// The writer begins to write. Sent back, the first that fits: `Withdrawn`, `Busy`, `ValueRange`, `RoundLimit`,
    /// `NoRoom`.
    pub fn write<C: Channel>(&mut self, c: &mut C, value: i32) -> Answer
        ensures { Does C.contents self.old c.old (Order.Write value) result self.new c.new }
    {
        match self.check_write(c, value) {
            Ok(()) => {
                self.begin(c, Round::Write(value));
                Answer::Accepted(0)
            }
            Err(refusal) => Answer::Refused(refusal, 0),
        }
    }

    /// Reader 1 to R begins to read. Sent back, the first that fits: `Unknown`, `Withdrawn`, `Busy`, `RoundLimit`,
    /// `NoRoom`.
    pub fn read<C: Channel>(&mut self, c: &mut C, reader: u32) -> Answer
        ensures { Does C.contents self.old c.old (Order.Read reader) result self.new c.new }
    {
        match self.check_read(c, reader) {
            Ok(who) => {
                self.begin(c, Round::Read(who));
                Answer::Accepted(reader)
            }
            Err(refusal) => Answer::Refused(refusal, reader),
        }
    }

    /// A reader whose read is due begins its second round. Sent back, the first that fits: `Unknown`, `Withdrawn`,
    /// `NotDue`, `NoRoom`.
    pub fn tell<C: Channel>(&mut self, c: &mut C, reader: u32) -> Answer
        ensures { Does C.contents self.old c.old (Order.Tell reader) result self.new c.new }
    {
        match self.check_tell(c, reader) {
            Ok(who) => {
                self.begin(c, Round::Tell(who));
                Answer::Accepted(reader)
            }
            Err(refusal) => Answer::Refused(refusal, reader),
        }
    }

    /// Replica 0 to S - 1 is withdrawn. Sent back, the first that fits: `Unknown`, `AlreadyOut`, `OutLimit`.
    pub fn replica_out<C: Channel>(&mut self, c: &C, replica: u32) -> Answer
        ensures { Does C.contents self.old c.now (Order.ReplicaOut replica) result self.new c.now }
    {
        match self.check_replica_out(replica) {
            Ok(i) => {
                self.out[i] = true;
                self.outs += 1;
                Answer::Accepted(replica)
            }
            Err(refusal) => Answer::Refused(refusal, replica),
        }
    }

    /// The writer, 0, or reader 1 to R is withdrawn. Sent back, the first that fits: `Unknown`, `Withdrawn`.
    pub fn client_out<C: Channel>(&mut self, c: &C, client: u32) -> Answer
        ensures { Does C.contents self.old c.now (Order.ClientOut client) result self.new c.now }
    {
        match self.check_client_out(client) {
            Ok(who) => {
                self.clients[usize::from(who)].out = true;
                Answer::Accepted(client)
            }
            Err(refusal) => Answer::Refused(refusal, client),
        }
    }
}
