//! Concrete pasts, as a contract.
ghost use Rattle.examples.specs.Pasts.{Stand};

/// Each example is a past of a register and gives the answers expected of it. It does nothing:
/// the theorem is its contract.
pub fn pasts_stand()
    ensures { Stand }
{}
