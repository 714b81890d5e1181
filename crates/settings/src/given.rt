//! Settings as they are given, of any size: nothing is checked yet.
/// What a register is opened with.
#[derive(Debug, Clone, Copy, PartialEq, Eq)]
pub struct Settings {
    /// S: how many replicas hold a copy
    pub replicas: u32,
    /// t: how many of them may be out
    pub tolerated: u32,
    /// V: into how many groups the readers fall
    pub groups: u32,
    /// R: how many readers there are
    pub readers: u32,
    pub initial: i32,
}
