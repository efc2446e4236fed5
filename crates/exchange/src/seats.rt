//! The offices of a rehearsal, by their clients' numbers.
use crate::seat::Seat;
use notary::KeyedNotary;
use office::Office;
use std::alloc::{AllocError, Global};
use text::trouble::Trouble;

/// How many clients there are.
const CLIENTS: usize = 16;

/// A seat for each client whose office was made.
#[derive(Drop)]
pub struct Seats {
    at: Vec<Option<Seat>>,
}

impl Seats {
    /// No office is made yet.
    pub fn new(heap: Global) -> Result<Seats, AllocError> {
        let mut at = Vec::new(heap);
        // so many times, with no index
        for _ in 0..CLIENTS {
            at.push(None)?;
        }
        Ok(Seats { at })
    }

    /// Makes the office of a client anew. A write that is still open is given up.
    pub fn make(&mut self, f: u8, client: u8, notary: &KeyedNotary, last: u32) {
        if let Some(seat) = self.at.get_mut(usize::from(client)) {
            *seat = Some(Seat::new(f, client, notary, last));
        }
    }

    /// Forgets all offices, as where another pool begins.
    pub fn forget(&mut self) {
        for seat in self.at.iter_mut() {
            *seat = None;
        }
    }

    /// Whether the office of a client was made.
    pub fn has(&self, client: u8) -> bool {
        self.office(client).is_ok()
    }

    /// The seat of a client whose office was made.
    pub fn seat(&mut self, client: u8) -> Result<&mut Seat, Trouble> {
        match self.at.get_mut(usize::from(client)) {
            Some(Some(seat)) => Ok(seat),
            _ => Err(Trouble::NoOffice),
        }
    }

    /// The office of a client.
    pub fn office(&self, client: u8) -> Result<&Office<KeyedNotary>, Trouble> {
        match self.at.get(usize::from(client)) {
            Some(Some(seat)) => Ok(seat.office()),
            _ => Err(Trouble::NoOffice),
        }
    }
}
