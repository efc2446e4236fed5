//! The desk: all that an office keeps, but for its figures and its notary.
use crate::asking::{Question, Write};
use crate::slots::{EMPTY, Slots};

/// What is open, and the replies to it.
#[derive(Clone, Copy, PartialEq, Eq)]
pub struct Desk {
    /// the number of the last write that was begun
    pub last: u32,
    pub write: Option<Write>,
    pub question: Option<Question>,
    /// the GRANTs and ANSWERs to the write
    pub replies: Slots,
    /// the READ-ANSWERs to the question
    pub readings: Slots,
}

/// A desk with nothing on it, before the first write.
pub const CLEAR: Desk = Desk {
    last: 0,
    write: None,
    question: None,
    replies: EMPTY,
    readings: EMPTY,
};

/// How a reply stands to what is open.
#[derive(Clone, Copy)]
pub enum Standing {
    /// nothing is open that it could reply to
    Unasked,
    /// it does not reply to what is open
    Unlike,
    /// it replies to what is open
    Like,
}
