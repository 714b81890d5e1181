//! A client and the phase of its call.
use quorum::replies::{Readings, Receipts};

/// What a client does at present, with the replies counted so far.
#[derive(Debug, Clone, Copy, PartialEq)]
pub enum Phase {
    /// no call is under way
    Idle,
    /// the writer awaits receipts of its write
    Writing(Receipts),
    /// a reader awaits readings
    Asking(Readings),
    /// a read was decided and awaits its tell
    Due,
    /// a reader awaits receipts of its tell
    Telling(Receipts),
}

/// A client: withdrawn or not, its round, what it knows and its phase.
#[derive(Debug, Clone, Copy, PartialEq)]
pub struct Client {
    /// withdrawn; it keeps the phase that it was in
    pub out: bool,
    /// raised by every set of messages that it puts out
    pub round: u32,
    /// what it knows: a version, its value and the value before
    pub version: u32,
    pub value: i32,
    pub previous: i32,
    pub phase: Phase,
}
