//! What the programs share: they read a sheet, rehearse it in memory of the heap, and print what comes of it.
#![tactic(auto)]

pub mod failure;
pub mod print;
pub mod run;
mod sizes;
#[cfg(test)]
mod tests;
