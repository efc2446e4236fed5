//! The laws of messages. Each function's contract is a theorem; there is nothing to run.
ghost use Rattle.message.specs.Laws.{FormsTold, AcceptedWhenPassed, FirstFaultNamed};

/// A form is given to a message exactly where the message has it.
#[tactic(auto, using(crate::proofs::FormsTold::forms_told))]
pub fn forms_told()
    ensures { FormsTold }
{}

/// A message is accepted exactly where the buffers fit, it is whole, and it has a form with which it passes.
pub fn accepted_when_passed()
    ensures { AcceptedWhenPassed }
{}

/// The fault that is named is there, and none that comes before it is.
pub fn first_fault_named()
    ensures { FirstFaultNamed }
{}
