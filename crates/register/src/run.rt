//! Lists of orders: one answer for each.
ghost use Rattle.std.specs.Prelude.{◌≡◌, ◌<◌, ◌≤◌, length, take, drop, MatchResult};
ghost use Rattle.register.specs.World.{Does};
ghost use Rattle.register.specs.Past.{Runs};

use crate::fault::RegisterFault;
use crate::register::Register;
use orders::answer::Answer;
use orders::order::Order;
use wire::channel::Channel;

impl Register {
    /// One order.
    pub fn order<C: Channel>(&mut self, c: &mut C, o: Order) -> Answer
        ensures { Does C.contents self.old c.old o result self.new c.new }
    {
        match o {
            Order::Write(value) => self.write(c, value),
            Order::Read(reader) => self.read(c, reader),
            Order::Tell(reader) => self.tell(c, reader),
            Order::Carry => self.carry(c),
            Order::ReplicaOut(replica) => self.replica_out(c, replica),
            Order::ClientOut(client) => self.client_out(c, client),
        }
    }

    /// Does the orders and fills an answer for each; later answers keep what they held. Sent back whole, with
    /// `Answers`, where the answers are fewer than the orders.
    pub fn run<C: Channel>(
        &mut self,
        c: &mut C,
        orders: &[Order],
        answers: &mut [Answer],
    ) -> Result<(), RegisterFault>
        ensures { Runs C.contents self.old c.old orders.now answers.old result answers.new self.new c.new }
    {
        if answers.len() < orders.len() {
            return Err(RegisterFault::Answers);
        }
        // By index, since nothing is known of what a zip with iter_mut wrote.
        for (i, o) in orders.iter().enumerate() {
            answers[i] = self.order(c, *o);
        }
        Ok(())
    }
}
