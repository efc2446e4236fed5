//! Plays scripts: each line is a command about a pool, or a step on an object alone.
use console::play::{Fresh, Play};
use console::single::Singles;
use exchange::rehearsal::Rehearsal;
use std::alloc::{AllocError, Global};
use text::line::Line;
use text::trouble::Trouble;
use text::words::Kept;

/// What a script is played on: two objects alone, and a rehearsal of a pool.
#[derive(Drop)]
pub struct Player {
    singles: Singles,
    rehearsal: Rehearsal,
}

impl Player {
    /// Both objects fresh, and no pool yet.
    pub fn new(heap: Global) -> Result<Player, AllocError> {
        Ok(Player {
            singles: Singles::new(),
            rehearsal: Rehearsal::new(heap)?,
        })
    }
}

impl Fresh for Player {
    fn fresh(heap: Global) -> Result<Player, AllocError> {
        Player::new(heap)
    }
}

impl Play for Player {
    fn command(&mut self, word: &str, line: &mut Line<'_>) -> Result<(), Trouble> {
        match Kept::named(word) {
            Some(kept) => self.singles.command(kept, line),
            None => self.rehearsal.command(word, line),
        }
    }
}
