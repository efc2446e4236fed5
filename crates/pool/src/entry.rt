//! What a pool keeps of a call, and why a message is not handed on.
ghost use Rattle.pool.specs.declared.entry.Undelivered.TheVariants.{NoMemory as no_memory};
ghost use Rattle.std.specs.Prelude.{◌≡◌};

use message::Refusal;
use std::alloc::AllocError;

/// One call: the site that it was made at, its message, what it returned, and the bytes that it wrote.
#[derive(Drop)]
pub struct Entry {
    pub site: u8,
    pub message: Vec<u8>,
    pub result: Result<usize, Refusal>,
    pub written: Vec<u8>,
}

/// Why a message was not handed on.
#[derive(Clone, Copy)]
pub enum Undelivered {
    /// the pool has no site of that number
    NoSite,
    /// there is no memory for the transcript
    NoMemory,
}

impl From<AllocError> for Undelivered {
    ghost from_gives = { λ _ r. r ≡ no_memory };

    fn from(_error: AllocError) -> Undelivered {
        Undelivered::NoMemory
    }
}
