//! Concrete pasts and the marked examples of the rules, by computation. Nothing stands on them.
#![tactic(auto)]

pub mod marked;
pub mod pasts;
