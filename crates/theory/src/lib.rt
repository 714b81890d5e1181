//! Every past of a register keeps the laws.
#![tactic(auto)]

pub mod stand;
