//! One replica: what it keeps, and what a message does to it.
#![tactic(auto)]

pub mod replica;
pub mod row;

pub use crate::replica::Replica;
pub use crate::row::Row;
