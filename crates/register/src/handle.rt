//! Handling one message: at its replica or at its client. No channel is touched.
ghost use Rattle.std.specs.Prelude.{◌≡◌};
ghost use Rattle.register.specs.Handle.{handled, handled_answer, handled_reply};

use crate::register::Register;
use orders::answer::Answer;
use wire::kind::Kind;
use wire::message::Message;

impl Register {
    /// Handles any message in any state; the reply of a replica, if any, is left to be sent. `Dropped` where no such
    /// kind, replica or client is, `Lost` where the one addressed is out.
    // Inlined, since its result would else go through memory at each carry.
    #[inline(always)]
    pub fn handle(&mut self, m: Message) -> (Answer, Option<Message>)
        ensures after { self.new ≡ handled self.old m }
        ensures answer { result.0 ≡ handled_answer self.old m }
        ensures reply { result.1 ≡ handled_reply self.old m }
    {
        let Ok(kind) = Kind::try_from(m.kind) else {
            return (Answer::Dropped, None);
        };
        if m.replica >= self.settings.replicas || m.client > self.settings.readers {
            return (Answer::Dropped, None);
        }
        let i = usize::from(m.replica);
        let who = usize::from(m.client);
        if kind.is_request() {
            if self.out[i] {
                return (Answer::Lost(m.client), None);
            }
            // One row of the table is lent to the delivery step; the others stay as they were.
            match self.rows[i].deliver(m) {
                Some(reply) => (Answer::Replied(m.client), Some(reply)),
                None => (Answer::Ignored(m.client), None),
            }
        } else {
            if self.clients[who].out {
                return (Answer::Lost(m.client), None);
            }
            (self.clients[who].hear(&self.settings, m), None)
        }
    }
}
