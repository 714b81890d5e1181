//! Three channels: a queue in lent memory, a table of slots, and a layer that delays what goes to one replica.
#![tactic(auto)]

pub mod delay;
mod pocket;
pub mod queue;
mod ring;
pub mod sizes;
pub mod slots;

pub use crate::delay::Delay;
pub use crate::queue::Queue;
pub use crate::slots::Slots;
