//! Replies of one round: slips, counting them once per replica, and deciding a read.
#![tactic(auto)]

mod agree;
pub mod decide;
pub mod highest;
pub mod replies;
pub mod slip;
pub mod tally;

pub use crate::decide::{Decided, Verdict};
pub use crate::replies::{Readings, Receipts, Replies};
pub use crate::slip::{Reading, Receipt, Slip, VersionedSlip};
pub use crate::tally::Tally;
