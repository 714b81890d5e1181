//! The replicated register: opening it, its six calls, and lists of them.
#![tactic(auto)]

mod begin;
mod calls;
mod carry;
pub mod fault;
mod handle;
mod open;
mod refuse;
pub mod register;
mod run;
mod send;
pub mod session;
mod settle;

pub use crate::fault::{ChannelFault, RegisterFault};
pub use crate::register::Register;
