//! The laws of every past, as a contract.
ghost use Rattle.theory.specs.Stand.{Laws};

/// Every past of a register keeps its line, takes few rounds, and ends what it began. It does nothing:
/// the theorem is its contract.
pub fn laws_stand()
    ensures { Laws }
{}
