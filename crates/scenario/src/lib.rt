//! Scenarios: a rehearsal of a pool in one process, one command a line.
//!
//! A scenario has a pool over the keyed notary, with keys that everybody knows, so that a script can speak for any
//! site and any client: it can replay, damage and forge whatever a liar could. The sites are those of `pool`, whose
//! calls are proved. That a line hands on the bytes that it names, and its wording, is tested and not proved.
#![tactic(auto)]

pub mod any_pool;
pub mod calls;
pub mod commands;
pub mod rehearsal;
pub mod shown;
pub mod states;
