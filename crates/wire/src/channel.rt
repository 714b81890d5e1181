//! The channel: what every transport of messages means to a register.
ghost use Rattle.std.specs.Prelude.{◌≡◌, min, length};
ghost use Rattle.wire.specs.Channel.{Contents, word_max, Put, Taken};

use crate::message::Message;

/// No place was free.
#[derive(Debug, Clone, Copy, PartialEq, Eq)]
pub struct Full;

/// A channel means the messages that wait in it, in no order but counted, and its free places.
pub trait Channel {
    /// what it means
    ghost contents: { Self → Contents };

    /// Takes the message, or sends it back where no place is free.
    fn put(&mut self, m: Message) -> Result<(), Full>
        ensures { Put (contents self.old) m (contents self.new) result };

    /// One message that waited, of the channel's choice; none where none waits.
    fn take(&mut self) -> Option<Message>
        ensures { Taken (contents self.old) (contents self.new) result };

    /// How many wait, or 4,294,967,295 where there are more.
    fn waiting(&self) -> u32
        ensures { result ≡ min word_max (length (contents self.now).waiting) };

    /// How many places are free, or 4,294,967,295 where there are more.
    fn free(&self) -> u32
        ensures { result ≡ min word_max (contents self.now).free };
}
