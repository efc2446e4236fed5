// The 80-byte record: what clients and sites write to each other, and the unit of every message.
//
// A record is a statement, the first 48 bytes, and a seal, the last 32. This crate alone knows where a field
// lies and how wide it is. It promises that reading and writing are each other's inverse, that a record's
// fields are in range exactly as the table of kinds in docs/FORMAT.md says, and that likeness of statements
// is an equivalence. Whether a seal is good is a notary's question, and what a message may hold is that of
// the crates above.
#![tactic(auto)]

pub mod claims;
pub mod fields;
pub mod kind;
pub mod laws;
pub mod layout;
pub mod limits;
pub mod makes;
pub mod parts;
pub mod ranges;

pub use fields::{Claim, Operation, Place, Record, Round, Seal, Statement};
pub use kind::Kind;
