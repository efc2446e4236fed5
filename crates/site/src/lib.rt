//! A site of a pool, over any notary and any object.
//!
//! `specs/Rules.antt` has what a site replies to each message in each stage and what it is then, `specs/Call.antt` what a whole call does with
//! bytes and buffers. The functions here are proved to do exactly that, for every state, every message and every buffer: a refusal changes
//! neither state nor output. A site allocates nothing, and does no input or output of its own.
#![tactic(auto)]

mod answers;
mod entries;
pub mod figures;
pub mod fitting;
mod ledger;
mod moving;
pub mod promise;
mod replica;
pub mod reply;
mod replying;
pub mod rows;
pub mod site;
pub mod state;
mod tables;
mod turns;
