//! The program for a whole pool: its lines, its story and its help.
//!
//! `register_pool` and `register_pool_play` hand arguments, input and output through `console::program`; what a line asks
//! for is decided by `exchange` for lines about a pool and its offices, by `scenario` for those on single sites, and by
//! `console` for steps on an object alone. The wording of a line is tested, not proved.
#![tactic(auto)]

pub mod play;
pub mod story;
pub mod usage;
