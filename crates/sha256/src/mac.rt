//! HMAC-SHA-256 (RFC 2104).
ghost use Rattle.std.specs.Prelude.{◌≡◌, ℕ, ◌≤◌, List, length};
ghost use Rattle.sha256.specs.Compression.{compressed};
ghost use Rattle.sha256.specs.Digest.{initial, sha_256_from};
ghost use Rattle.sha256.specs.Mac.{filled_up, hmac_sha_256, key_block, masked};
ghost use Rattle.sha256.specs.Sealing.{prepared, sealed};

use crate::compression::{BLOCK_SIZE, Block, Words, compress};
use crate::hasher::{INITIAL, hash};
use crate::padding::{finish_from, put};

/// The byte that the key is combined with for the inner message.
const IPAD: u8 = 0x36;

/// The byte that the key is combined with for the outer message.
const OPAD: u8 = 0x5c;

/// A block that begins with `bytes`, with zeros behind them.
fn fill_up(bytes: &[u8]) -> Block
    requires { length bytes.now ≤ 64 }
    ensures { result ≡ filled_up bytes.now }
{
    let mut block = [0; BLOCK_SIZE];
    put(&mut block, 0, bytes);
    block
}

/// The key as one block.
fn to_block(key: &[u8]) -> Block
    ensures { result ≡ key_block key.now }
{
    if key.len() > BLOCK_SIZE {
        fill_up(&hash(key))
    } else {
        fill_up(key)
    }
}

/// The hash value after a first block: `block` with each byte combined with `mask`.
fn started(block: &Block, mask: u8) -> Words
    ensures { result ≡ compressed initial (masked mask block.now) }
{
    let mut first = *block;
    for byte in first.iter_mut() {
        *byte ^= mask;
    }
    let mut words = INITIAL;
    compress(&mut words, &first);
    words
}

/// The digest of a first block, which led to the hash value `words`, and of the message behind it.
fn finish_behind(words: &Words, message: &[u8]) -> [u8; 32]
    ensures { result ≡ sha_256_from words.now 64 message.now }
{
    finish_from(words, BLOCK_SIZE as u64, message)
}

/// A key, prepared to seal any number of messages: the hash values after the key's block in the inner and in the outer message.
#[derive(Clone, Copy)]
#[repr(C)]
pub struct Sealer {
    inner: Words,
    outer: Words,
}

impl Sealer {
    /// Prepares a key of any length.
    pub fn new(key: &[u8]) -> Sealer
        ensures { result ≡ prepared key.now }
    {
        let block = to_block(key);
        Sealer {
            inner: started(&block, IPAD),
            outer: started(&block, OPAD),
        }
    }

    /// The HMAC-SHA-256 of a message under the key.
    pub fn seal(&self, message: &[u8]) -> [u8; 32]
        ensures value { result ≡ sealed self.now message.now }
        ensures under { (key : List ℕ) → self.now ≡ prepared key → result ≡ hmac_sha_256 key message.now }
    {
        let inner = finish_behind(&self.inner, message);
        finish_behind(&self.outer, &inner)
    }
}

/// The HMAC-SHA-256 of a message under a key of any length.
pub fn hmac(key: &[u8], message: &[u8]) -> [u8; 32]
    ensures { result ≡ hmac_sha_256 key.now message.now }
{
    Sealer::new(key).seal(message)
}
