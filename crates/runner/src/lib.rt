//! A whole drill: reads a sheet, opens a register over any channel, runs the orders and writes the listing.
#![tactic(auto)]

pub mod choice;
pub mod drill;
pub mod fault;
pub mod memory;

pub use crate::choice::Choice;
pub use crate::fault::DrillFault;
pub use crate::memory::Memory;
