// The laws of the format. Each function's contract is a theorem; there is nothing to run.
ghost use Rattle.record.specs.Laws.{KindsNumbered, ClaimsCompared, AlikeButSigner, AlikeEquivalence, NothingElse, StatementFirst};
ghost use Rattle.record.specs.RoundTrip.{ReadThenWritten, WrittenThenRead};

// What is read from 80 bytes and written again is the same 80 bytes.
#[tactic(auto, using(crate::proofs::RoundTrip::read_then_written))]
pub fn read_then_written()
    ensures { ReadThenWritten }
{}

// Fields that are written and read again are the same fields.
#[tactic(auto, using(crate::proofs::RoundTrip::written_then_read))]
pub fn written_then_read()
    ensures { WrittenThenRead }
{}

// Each kind has a number of its own, and each number that names a kind is that kind's.
#[tactic(auto, using(crate::proofs::Facts::kinds_numbered))]
pub fn kinds_numbered()
    ensures { KindsNumbered }
{}

// Claims are the same exactly where they are equal.
#[tactic(auto, using(crate::proofs::Facts::claims_compared))]
pub fn claims_compared()
    ensures { ClaimsCompared }
{}

// Statements are alike exactly where they are equal once one signer stands in both.
#[tactic(auto, using(crate::proofs::Facts::alike_but_signer))]
pub fn alike_but_signer()
    ensures { AlikeButSigner }
{}

// Likeness is reflexive, symmetric and transitive.
#[tactic(auto, using(crate::proofs::Facts::alike_equivalence))]
pub fn alike_equivalence()
    ensures { AlikeEquivalence }
{}

// A statement in range holds nothing but its kind's own fields.
#[tactic(auto, using(crate::proofs::Facts::nothing_else))]
pub fn nothing_else()
    ensures { NothingElse }
{}

// The first 48 bytes of a record are its statement's, and the statement is read from them alone.
#[tactic(auto, using(crate::proofs::Facts::statement_first))]
pub fn statement_first()
    ensures { StatementFirst }
{}
