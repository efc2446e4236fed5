//! What the tests of sites and of offices share: records that are written out byte by byte here alone, a notary, and what
//! an output holds after a call.
#![tactic(auto)]

pub mod fields;
pub mod output;
pub mod trusting;
