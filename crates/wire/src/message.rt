//! A message, as every channel carries it.

/// One message. Kinds 1 to 3 (write, read, tell) go to the replica, kinds 4 to 6 (their replies) to
/// the client; any other kind goes nowhere. Nothing is promised of the fields: a channel takes any.
#[derive(Debug, Clone, Copy, PartialEq, Eq, Default)]
pub struct Message {
    /// any byte; `Kind::try_from` gives the kind that it names
    pub kind: u8,
    pub replica: u8,
    pub client: u8,
    pub marks: u8,
    pub round: u32,
    pub version: u32,
    pub value: i32,
    pub previous: i32,
    pub note: u32,
}
