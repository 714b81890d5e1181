//! Carrying: one waiting message is taken from the channel and handled, and its reply put in.
ghost use Rattle.std.specs.Prelude.{◌≡◌, ◌+◌, ◌≤◌, ◌++◌, length};
ghost use Rattle.std.specs.Option.{option_to_list};
ghost use Rattle.wire.specs.Channel.{Sends};
ghost use Rattle.register.specs.World.{Does};

use crate::register::Register;
use orders::answer::{Answer, Refusal};
use orders::order::Order;
use wire::channel::Channel;
use wire::message::Message;

// Puts a replica's reply into the channel, where a place was just freed.
fn put_reply<C: Channel>(c: &mut C, reply: Option<Message>)
    requires { 1 ≤ (C.contents c.old).free }
    ensures { Sends (option_to_list reply) (C.contents c.old) (C.contents c.new) }
{
    if let Some(m) = reply {
        c.put(m).unwrap();
    }
}

impl Register {
    /// For some message that waited, of the channel's choice, this is what the rules say of it. Sent back with
    /// `NothingWaits`.
    pub fn carry<C: Channel>(&mut self, c: &mut C) -> Answer
        ensures { Does C.contents self.old c.old Order.Carry result self.new c.new }
    {
        let Some(m) = c.take() else {
            return Answer::Refused(Refusal::NothingWaits, 0);
        };
        let (answer, reply) = self.handle(m);
        put_reply(c, reply);
        answer
    }
}
