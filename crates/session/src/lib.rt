//! A session: a register is opened and does a list of orders, which keeps the laws.
#![tactic(auto)]

pub mod perform;
