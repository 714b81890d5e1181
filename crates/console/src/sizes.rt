//! The sizes of a program's memory, each in one place.
use settings::limits::ORDERS_MAX;

/// The cells of a queue, where the channel is or has one.
pub(crate) const QUEUE_CELLS: usize = 1_024;

/// The places for orders, and those for answers: as many as a sheet can have orders.
pub(crate) const PLACES: usize = ORDERS_MAX as usize;

/// How much of its input a program takes for its sheet.
pub(crate) const SHEET_BYTES: u64 = 65_536;

/// The space for a listing.
pub(crate) const LISTING_BYTES: usize = 65_536;
