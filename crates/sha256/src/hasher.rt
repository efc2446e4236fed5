//! SHA-256 of a message, whole or in parts.
ghost use Rattle.std.specs.Prelude.{◌≡◌, ℕ, List, [], ◌++◌};
ghost use Rattle.sha256.specs.Digest.{sha_256};
ghost use Rattle.sha256.specs.InParts.{digest_with};

use crate::blocks::absorb;
use crate::compression::{BLOCK_SIZE, Block, Words, compress};
use crate::padding::{finish, finish_from, put};

/// The initial hash value.
pub(crate) const INITIAL: Words = [
    0x6a09e667, 0xbb67ae85, 0x3c6ef372, 0xa54ff53a, 0x510e527f, 0x9b05688c, 0x1f83d9ab, 0x5be0cd19,
];

/// The SHA-256 digest of a message.
pub fn hash(message: &[u8]) -> [u8; 32]
    ensures { result ≡ sha_256 message.now }
{
    finish_from(&INITIAL, 0, message)
}

/// A message that is taken in part by part.
#[derive(Clone, Copy)]
#[repr(C)]
pub struct Hasher {
    /// The hash value after the whole blocks taken in so far.
    words: Words,
    /// Its first `total % 64` bytes are those taken in behind the last whole block.
    tail: Block,
    /// How many bytes were taken in, modulo 2^64. A count beside the array, since nothing is allocated here.
    total: u64,
}

impl Hasher {
    /// A hasher that has taken in nothing.
    pub fn new() -> Hasher
        ensures { (more : List ℕ) → digest_with result more ≡ sha_256 more }
    {
        Hasher {
            words: INITIAL,
            tail: [0; BLOCK_SIZE],
            total: 0,
        }
    }

    /// Takes in the next part of the message.
    pub fn update(&mut self, part: &[u8])
        ensures { (more : List ℕ) → digest_with self.new more ≡ digest_with self.old (part.now ++ more) }
    {
        let held = (self.total % 64) as usize;
        self.total = self.total.wrapping_add(part.len() as u64);
        if part.len() < BLOCK_SIZE - held {
            put(&mut self.tail, held, part);
            return;
        }
        let (head, others) = part.split_at(BLOCK_SIZE - held);
        put(&mut self.tail, held, head);
        compress(&mut self.words, &self.tail);
        let rest = absorb(&mut self.words, others);
        put(&mut self.tail, 0, rest);
    }

    /// The digest of what was taken in.
    pub fn finish(&self) -> [u8; 32]
        ensures { result ≡ digest_with self.now [] }
    {
        let held = (self.total % 64) as usize;
        finish(&self.words, &self.tail[0..held], self.total)
    }
}
