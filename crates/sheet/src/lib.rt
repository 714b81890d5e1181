//! Sheets and listings: orders are read from bytes, and answers are written to bytes.
#![tactic(auto)]

mod cursor;
pub mod fault;
mod field;
mod fill;
mod head;
mod kind;
pub mod listing;
mod number;
mod order;
pub mod page;
pub mod read;
mod word;

pub use crate::fault::SheetFault;
pub use crate::listing::write_listing;
pub use crate::page::Position;
pub use crate::read::Reading;
