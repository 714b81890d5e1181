//! The six calls that a register takes, as orders with numbers as they are given.
/// A number may be any: whether there is such a reader, replica or client is judged when the order is done.
#[derive(Debug, Clone, Copy, PartialEq, Eq)]
pub enum Order {
    /// the writer begins to write a value
    Write(i32),
    /// a reader begins to read
    Read(u32),
    /// a reader whose read is due begins its second round
    Tell(u32),
    /// one waiting message is taken from the channel and handled
    Carry,
    /// a replica is withdrawn
    ReplicaOut(u32),
    /// a client is withdrawn
    ClientOut(u32),
}
