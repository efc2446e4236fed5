//! What the objects' answers mean, in words.
use crate::words::Kept;
use object::answers::{OUT_OF_REACH, UNKNOWN_CODE};
use std::fmt;

/// An object's answer to a write. Each number is one that the records hold.
#[derive(Clone, Copy)]
pub struct WriteAnswer {
    pub kept: Kept,
    pub answer: u64,
}

impl fmt::Display for WriteAnswer {
    fn fmt<W: fmt::Write>(&self, f: &mut fmt::Formatter<W>) -> fmt::Result {
        f.write_str(match (self.kept, self.answer) {
            (_, 0) => "done",
            (Kept::Titles, 1) => "refused, no such title or receiver",
            (Kept::Titles, 2) => "refused, the writer may not do this",
            (Kept::Titles, 3) => "refused, the title is in another state",
            (Kept::Slots, 1) => "refused, no such account",
            (Kept::Slots, 2) => "refused, the writer has too few slots",
            _ => "refused, no such operation",
        })
    }
}

/// An object's answer to a reading. Each number is one that the records hold.
#[derive(Clone, Copy)]
pub struct LookAnswer {
    pub kept: Kept,
    pub answer: u64,
}

impl fmt::Display for LookAnswer {
    fn fmt<W: fmt::Write>(&self, f: &mut fmt::Formatter<W>) -> fmt::Result {
        let answer = self.answer;
        match (self.kept, answer) {
            (_, UNKNOWN_CODE) => f.write_str("there is no such reading"),
            (Kept::Titles, OUT_OF_REACH) => f.write_str("there is no such title"),
            (Kept::Slots, OUT_OF_REACH) => f.write_str("there is no such account"),
            (Kept::Titles, 16) => f.write_str("unissued"),
            (Kept::Titles, 17) => f.write_str("surrendered"),
            (Kept::Titles, _) => write!(f, "held by client {answer}"),
            (Kept::Slots, _) => write!(f, "holds {answer} slots"),
        }
    }
}
