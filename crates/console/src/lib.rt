//! The programs' commands, as functions from text to text, and the steps on an object alone.
//!
//! A program of the register hands its arguments, input and output through `program`; what a line asks for, what is
//! done for it and what is answered is decided by a `Play`. The answers on an object alone come from the object's own
//! calls: `Bench` says so by its contracts. The wording of a line is tested, not proved.
#![tactic(auto)]

pub mod bench;
pub mod complaint;
pub mod explain;
pub mod keys;
pub mod play;
pub mod program;
pub mod seals;
pub mod single;
pub mod step;
pub mod story;
pub mod usage;
