//! One client: its phase, the start of a round, and what a reply does.
#![tactic(auto)]

pub mod client;
mod hear;
pub mod start;

pub use crate::client::{Client, Phase};
pub use crate::start::Round;
