//! Messages, their kinds, and what a channel of them means. No channel stands here.
#![tactic(auto)]

pub mod channel;
pub mod kind;
pub mod message;

pub use crate::channel::{Channel, Full};
pub use crate::kind::Kind;
pub use crate::message::Message;
