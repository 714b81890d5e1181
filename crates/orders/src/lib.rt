//! What is asked of a register and what it answers: orders, answers and refusals, with their numbers.
#![tactic(auto)]

pub mod answer;
pub mod order;

pub use crate::answer::{Answer, Refusal};
pub use crate::order::Order;
