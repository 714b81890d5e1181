//! How many messages a channel holds in a table of its own.

/// The most messages in a slot table.
pub const SLOTS_MAX: usize = 256;

/// The most messages in a delaying layer's pocket.
pub const POCKET_MAX: usize = 64;
