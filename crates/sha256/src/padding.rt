//! The end of a message: its last bytes with the padding, and the digest.
ghost use Rattle.std.specs.Prelude.{◌≡◌, ◌+◌, ◌-◌, ◌*◌, ◌%◌, ◌^◌, ◌<◌, ◌≤◌, ◌∷◌, ◌++◌, length, take, drop, replicate, nat_lt};
ghost use Rattle.sha256.specs.Digest.{absorbed, digest, eight_bytes, padding, sha_256_from};

use crate::blocks::absorb;
use crate::compression::{BLOCK_SIZE, Block, Words, compress};

/// Where the length of the message stands in the last block.
const LENGTH_AT: usize = 56;

/// Writes `bytes` into a block from the place `at` on.
pub(crate) fn put(block: &mut Block, at: usize, bytes: &[u8])
    requires { at + length bytes.now ≤ 64 }
    ensures { block.new ≡ take at block.old ++ (bytes.now ++ drop (at + length bytes.now) block.old) }
{
    block[at..at + bytes.len()].copy_from_slice(bytes);
}

/// The last bytes of a message, fewer than a block, with the bit 1 behind them and zeros up to a block.
fn marked(tail: &[u8]) -> Block
    requires { length tail.now < 64 }
    ensures { result ≡ tail.now ++ (0x80 ∷ replicate (63 - length tail.now) 0) }
{
    let mut block = [0; BLOCK_SIZE];
    put(&mut block, 0, tail);
    block[tail.len()] = 0x80;
    block
}

/// Whether the bit 1 and the length of the message fit behind its last bytes into one block.
fn has_room(tail: &[u8]) -> bool
    ensures { result ≡ nat_lt (length tail.now) 56 }
{
    tail.len() < LENGTH_AT
}

/// How many bits `total` bytes have, modulo 2^64.
fn bits(total: u64) -> u64
    ensures { result ≡ (8 * total) % 2 ^ 64 }
{
    total.wrapping_mul(8)
}

/// Writes the length of the message, `total` bytes, in bits into the last eight bytes of a block.
fn put_length(block: &mut Block, total: u64)
    ensures { block.new ≡ take 56 block.old ++ eight_bytes ((8 * total) % 2 ^ 64) }
{
    put(block, LENGTH_AT, &bits(total).to_be_bytes());
}

/// The bytes of the hash value.
fn to_bytes(words: &Words) -> [u8; 32]
    ensures { result ≡ digest words.now }
{
    let mut bytes = [0; 32];
    for (i, word) in words.iter().enumerate() {
        bytes[4 * i..4 * i + 4].copy_from_slice(&word.to_be_bytes());
    }
    bytes
}

/// The digest of a message of `total` bytes whose whole blocks led to the hash value `words`, and whose last bytes are `tail`.
pub(crate) fn finish(words: &Words, tail: &[u8], total: u64) -> [u8; 32]
    requires { length tail.now ≡ total % 64 }
    ensures { result ≡ digest (absorbed words.now (tail.now ++ padding total)) }
{
    let mut words = *words;
    let mut block = marked(tail);
    if !has_room(tail) {
        compress(&mut words, &block);
        block = [0; BLOCK_SIZE];
    }
    put_length(&mut block, total);
    compress(&mut words, &block);
    to_bytes(&words)
}

/// The digest of `before` bytes, whole blocks that led to the hash value `words`, and of the message behind them.
pub(crate) fn finish_from(words: &Words, before: u64, message: &[u8]) -> [u8; 32]
    requires { before % 64 ≡ 0 }
    ensures { result ≡ sha_256_from words.now before message.now }
{
    let mut words = *words;
    let tail = absorb(&mut words, message);
    finish(&words, tail, before.wrapping_add(message.len() as u64))
}
