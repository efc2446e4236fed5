//! Notaries: who vouches for a record.
//!
//! A notary means a fixed set of 80-byte records and says yes exactly for those; the trait `Notary` says so, and
//! whoever asks one is written and proved once, for every notary. Three are here:
//! - `BookNotary` means the whole records of a byte slice, end to end.
//! - `KeyedNotary` means the records whose seal is the HMAC-SHA-256 of their statement under their signer's key.
//!   `seal_record` makes such seals.
//! - `TrustingNotary` means every record, where seals do not matter.
//!
//! What it promises: each of them answers as its definition in `specs/` says, for every record. What is sealed under
//! its signer's key is accepted, and what is accepted is what sealing under that key gives (`laws`).
//!
//! What it leaves to others: it makes no keys, keeps none secret and erases none. It does not look at whether fields are
//! in range, at rounds or places, or at whether a record was seen before. `docs/NOTARY.md` says more.
#![tactic(auto)]

mod book;
mod keyed;
pub mod laws;
mod party;
mod sealing;
mod trusting;
mod vouching;

pub use book::BookNotary;
pub use keyed::{Key, KeyedNotary, MEMBERS};
pub use party::Party;
pub use sealing::seal_record;
pub use trusting::TrustingNotary;
pub use vouching::Notary;
