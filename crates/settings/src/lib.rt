//! Settings: the numbers as given, the numbers that passed, every limit by name, and the mark of a client.
#![tactic(auto)]

pub mod checked;
pub mod fault;
pub mod given;
pub mod limits;
pub mod range;

pub use crate::checked::Checked;
pub use crate::fault::SettingsFault;
pub use crate::given::Settings;
