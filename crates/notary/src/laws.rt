//! What holds of the book notary and of the keyed one. Each function's contract is a theorem; there is nothing to run.
ghost use Rattle.notary.specs.Laws.{BookEntries, SealedThenAccepted};

/// The book notary accepts a record exactly where it is one of the book's whole records.
#[tactic(auto, using(crate::proofs::Entries::book_entries))]
pub fn book_entries()
    ensures { BookEntries }
{}

/// The keyed notary accepts what is sealed under its signer's key, and nothing else.
#[tactic(auto, using(crate::proofs::Accepting::sealed_then_accepted))]
pub fn sealed_then_accepted()
    ensures { SealedThenAccepted }
{}
