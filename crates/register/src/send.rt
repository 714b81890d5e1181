//! Sets of messages: one to each of the first replicas, by rising number.
ghost use Rattle.std.specs.Prelude.{◌≡◌, ◌+◌, ◌≤◌, ◌++◌, nat_le};
ghost use Rattle.wire.specs.Channel.{Sends};
ghost use Rattle.register.specs.Send.{copies, toward};

use wire::channel::Channel;
use wire::message::Message;

// Has the channel so many free places?
pub(crate) fn has_room<C: Channel>(c: &C, count: u8) -> bool
    ensures { result ≡ nat_le count (C.contents c.now).free }
{
    c.free() >= u32::from(count)
}

// The same message, to the replica i.
fn to_replica(m: Message, i: u8) -> Message
    ensures { result ≡ toward m i }
{
    Message { replica: i, ..m }
}

// Puts in the message once for each of the replicas 0 to count - 1.
#[tactic(auto, using(crate::proofs::Sends::length_copies))]
// Inlined, so that the channel's `put` is known in the loop.
#[inline(always)]
pub(crate) fn send<C: Channel>(c: &mut C, m: Message, count: u8)
    requires { count ≤ (C.contents c.old).free }
    ensures { Sends (copies m count) (C.contents c.old) (C.contents c.new) }
{
    for i in 0..count {
        c.put(to_replica(m, i)).unwrap();
    }
}
