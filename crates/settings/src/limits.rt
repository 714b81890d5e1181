//! Limits that several places name; docs/RULES.md and docs/FORMATS.md have them all.

/// The fewest replicas.
pub const REPLICAS_MIN: u32 = 4;

/// The most replicas.
pub const REPLICAS_MAX: u32 = 32;

/// The most replicas that may be out.
pub const TOLERATED_MAX: u32 = 10;

/// The most groups of readers.
pub const GROUPS_MAX: u32 = 7;

/// The most readers.
pub const READERS_MAX: u32 = 64;

/// The most clients: the writer, and the most readers.
pub const CLIENTS_MAX: u32 = READERS_MAX + 1;

/// The largest value; the smallest is its negative.
pub const VALUE_MAX: i32 = 9_999_999;

/// A client whose round number has come so far starts nothing more.
pub const ROUNDS_MAX: u32 = 2_000_000;

/// The most orders of a sheet.
pub const ORDERS_MAX: u32 = 4_096;

/// The largest number that a sheet can hold.
pub const NUMBER_MAX: u32 = 99_999_999;
