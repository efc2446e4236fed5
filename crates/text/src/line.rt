//! A line of a script, and its answer.
use crate::words::Words;
use std::alloc::Global;

/// A line while it is done: its words that are still to be read, and the text that answers it.
#[derive(Drop)]
pub struct Line<'a> {
    pub heap: Global,
    pub words: Words<'a>,
    pub answer: String,
}

impl<'a> Line<'a> {
    /// A line of which nothing is done yet.
    pub fn new(heap: Global, text: &'a str) -> Line<'a> {
        Line {
            heap,
            words: Words::of(text),
            answer: String::new(heap),
        }
    }
}
