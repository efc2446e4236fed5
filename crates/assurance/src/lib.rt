//! What an office is told is what the pool's book has.
//!
//! `site` promises that a pool keeps one book, and `office` promises that the answers it gives are those of a quorum of sites. The calls here
//! are the office's own, and their contracts join the two, as `specs/InBook.antt` says: an answer that the office gives is the one that is
//! due in the book.
#![tactic(auto)]

pub mod example;
pub mod telling;

pub use telling::{close, judge, judge_reading};
