//! A step on an object alone.
use text::deed::Deed;
use text::words::{Kept, Unreadable, Words, as_client};

/// What a line asks for behind the object's name.
#[derive(Clone, Copy)]
pub enum Step {
    Write { client: u8, deed: Deed },
    Look { client: u8, deed: Deed },
    TakeBack,
}

impl Step {
    /// Reads what stands behind the object's name: `back`, or a client's number and what it does.
    pub fn read(kept: Kept, words: &mut Words<'_>) -> Result<Step, Unreadable> {
        let first = words.next().ok_or(Unreadable::NoClient)?;
        if first == "back" {
            words.end()?;
            return Ok(Step::TakeBack);
        }
        let client = as_client(first).ok_or(Unreadable::NoClient)?;
        let word = words.next().ok_or(Unreadable::NoDeed)?;
        let deed = words.deed(kept, word)?;
        words.end()?;
        match word {
            "look" => Ok(Step::Look { client, deed }),
            _ => Ok(Step::Write { client, deed }),
        }
    }
}
