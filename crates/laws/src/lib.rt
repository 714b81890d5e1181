//! The statement to believe: the entries of a past, its operations, and the three laws.
//! Nothing here knows how a register works.
#![tactic(auto)]
