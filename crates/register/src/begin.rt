//! A round begins: the client's state changes, and its set of messages goes out.
ghost use Rattle.std.specs.Prelude.{◌≡◌, ◌<◌, ◌≤◌};
ghost use Rattle.settings.specs.Limits.{clients_max};
ghost use Rattle.wire.specs.Channel.{Sends};
ghost use Rattle.client.specs.Start.{order_of, kind_of, set_size};
ghost use Rattle.orders.specs.Order.{named};
ghost use Rattle.register.specs.Calls.{accepted, put_out};

use crate::register::Register;
use crate::send::send;
use client::start::Round;
use wire::channel::Channel;

impl Register {
    // Starts the round and puts out its set of messages.
    // Inlined, so that the message of a set stays in registers.
    #[inline(always)]
    pub(crate) fn begin<C: Channel>(&mut self, c: &mut C, round: Round)
        requires client { named (order_of round) < clients_max }
        requires room { set_size self.old.settings (kind_of round) ≤ (C.contents c.old).free }
        ensures after { self.new ≡ accepted self.old (order_of round) }
        ensures sends { Sends (put_out self.old (order_of round)) (C.contents c.old) (C.contents c.new) }
    {
        let who = round.client();
        let client = &mut self.clients[usize::from(who)];
        client.start(round);
        let m = client.message(&self.settings, round.kind(), who);
        send(c, m, round.count(&self.settings));
    }
}
