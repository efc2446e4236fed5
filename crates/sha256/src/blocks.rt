//! The whole blocks of a message.
ghost use Rattle.std.specs.Prelude.{◌≡◌, ℕ, ◌%◌, List, ◌++◌, length};
ghost use Rattle.sha256.specs.Digest.{absorbed};

use crate::compression::{BLOCK_SIZE, Words, compress};

/// Takes the whole blocks of `bytes` into the hash value, and returns the bytes behind them.
pub(crate) fn absorb<'a>(words: &mut Words, bytes: &'a [u8]) -> &'a [u8]
    ensures rest { length result.now ≡ length bytes.now % 64 }
    ensures after { (more : List ℕ) → absorbed words.new (result.now ++ more) ≡ absorbed words.old (bytes.now ++ more) }
{
    let (blocks, rest) = bytes.as_chunks::<BLOCK_SIZE>();
    for block in blocks {
        compress(words, block);
    }
    rest
}
