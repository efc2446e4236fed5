//! Plays scripts: each line is a command, and is answered by text.
use crate::single::Singles;
use std::alloc::{AllocError, Global};
use text::line::Line;
use text::trouble::Trouble;
use text::words::{Kept, Unreadable};

/// What plays a script.
pub trait Play: Drop {
    /// Does what a line asks for, whose first word is given, and adds the text that answers it.
    fn command(&mut self, word: &str, line: &mut Line<'_>) -> Result<(), Trouble>;
}

/// What plays a script from its start.
pub trait Fresh: Play + Sized {
    /// With nothing played yet.
    fn fresh(heap: Global) -> Result<Self, AllocError>;
}

/// The text that answers one line of a script, whose number in it is given. A line that asks for nothing is not
/// answered.
pub fn answer<P: Play>(
    player: &mut P,
    heap: Global,
    number: u64,
    text: &str,
) -> Result<String, AllocError> {
    let mut line = Line::new(heap, text);
    let Some(word) = line.words.next() else {
        return Ok(line.answer);
    };
    if word.starts_with('#') {
        return Ok(line.answer);
    }
    match player.command(word, &mut line) {
        Ok(()) => {}
        Err(Trouble::NoMemory) => return Err(AllocError),
        Err(why) => writeln!(line.answer, "line {number} {why}")?,
    }
    Ok(line.answer)
}

/// What plays scripts on objects alone.
#[derive(Clone, Copy)]
pub struct Player {
    singles: Singles,
}

impl Player {
    /// Both objects fresh.
    pub fn new() -> Player {
        Player {
            singles: Singles::new(),
        }
    }
}

impl Fresh for Player {
    fn fresh(_heap: Global) -> Result<Player, AllocError> {
        Ok(Player::new())
    }
}

impl Play for Player {
    fn command(&mut self, word: &str, line: &mut Line<'_>) -> Result<(), Trouble> {
        let kept = Kept::named(word).ok_or(Unreadable::NoStep)?;
        self.singles.command(kept, line)
    }
}
