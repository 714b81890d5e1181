//! The delaying layer: over any channel, it keeps what goes to one replica back in a pocket.
ghost use Rattle.std.specs.Prelude.{◌≡◌, ◌≤◌, length};
ghost use Rattle.wire.specs.Channel.{Put, Taken};
ghost use Rattle.channels.specs.Sizes.{pocket_max};

use crate::pocket::Pocket;
use crate::sizes::POCKET_MAX;
use wire::channel::{Channel, Full};
use wire::kind::Kind;
use wire::message::Message;

/// A channel below, and the pocket of what was kept back, oldest first.
#[derive(Drop)]
pub struct Delay<C> {
    below: C,
    pocket: Pocket,
    replica: u8,
    ghost few: { length pocket.items ≤ pocket_max },
}

impl<C> Delay<C> {
    ghost use Rattle.channels.specs.Delay.{is_later, Delays};

    /// The pocket is empty.
    pub fn new(below: C, replica: u8) -> Self
        ensures { Delays below replica result }
    {
        Delay {
            below,
            pocket: Pocket::new(),
            replica,
        }
    }

    // Is the message kept back?
    fn is_later(&self, m: &Message) -> bool
        ensures { result ≡ is_later self.now.replica (length self.now.pocket.items) m.now }
    {
        Kind::try_from(m.kind).is_ok_and(|k| k.is_request())
            && m.replica == self.replica
            && self.pocket.len() < POCKET_MAX
    }
}

impl<C: Channel> Channel for Delay<C> {
    ghost use Rattle.channels.specs.Delay.{layered, Enters, Gives};

    ghost contents = { layered C.Channel.contents };

    /// Below if a place is free there, else into the pocket.
    fn put(&mut self, m: Message) -> Result<(), Full>
        ensures meets { Put (layered C.Channel.contents self.old) m (layered C.Channel.contents self.new) result }
        ensures enters { Enters C.Channel.contents self.old m self.new result }
    {
        match self.below.put(m) {
            Ok(()) => Ok(()),
            Err(Full) => self.pocket.try_push(m),
        }
    }

    /// From below, what is to be kept back going into the pocket; with nothing below, the pocket's oldest.
    fn take(&mut self) -> Option<Message>
        ensures meets { Taken (layered C.Channel.contents self.old) (layered C.Channel.contents self.new) result }
        ensures gives { Gives C.Channel.contents self.old self.new result }
    {
        while let Some(m) = self.below.take() {
            if !self.is_later(&m) {
                return Some(m);
            }
            self.pocket.push(m);
        }
        self.pocket.pop()
    }

    fn waiting(&self) -> u32 {
        self.below
            .waiting()
            .saturating_add(self.pocket.len() as u32)
    }

    fn free(&self) -> u32 {
        self.below.free().saturating_add(self.pocket.room() as u32)
    }
}
