//! The marked examples of the rules, as a contract.
ghost use Rattle.examples.specs.Marked.{AllRight};

/// The rules open and decide as each example says. It does nothing: the theorem is its contract.
#[tactic(auto, using(crate::proofs::MarkedRight::all_right))]
pub fn marked_stand()
    ensures { AllRight }
{}
