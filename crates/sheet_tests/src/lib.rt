//! Tests of the sheet reader and of the listing writer: good ones, and every fault with its line and word.
#![tactic(auto)]

#[cfg(test)]
mod faults;
#[cfg(test)]
mod listings;
#[cfg(test)]
mod readings;
