//! SHA-256 (FIPS 180-4) and HMAC-SHA-256 (RFC 2104) over byte slices, with no allocation.
//!
//! What it has:
//! - `hash` digests a whole message, and `Hasher` one that comes in parts.
//! - `hmac` seals a message under a key of any length, and `Sealer` is a key prepared once for many messages: the hash
//!   values after the key's block are kept, so that a message of up to 55 bytes costs two compressions and not four.
//!
//! What it promises: each result equals a definition of `specs/`, for every slice. `specs/Words.antt`,
//! `specs/Compression.antt` and `specs/Digest.antt` follow FIPS 180-4 step by step, and `specs/Mac.antt` follows RFC 2104.
//! `Hasher` is held to the definition of the whole message, and `Sealer` to the HMAC under its key. The standard ends at
//! messages of 2^64 - 1 bits; for a longer one the length in the padding is taken modulo 2^64, here and in the definition.
//!
//! What it leaves to others: it makes no keys and erases none. It hides no timing that depends on the lengths of key and
//! message; no branch and no address depends on their bytes as written, and no proof speaks of what the compiler makes of it.
#![tactic(auto)]

mod blocks;
mod compression;
mod hasher;
mod mac;
mod padding;
mod words;

pub use hasher::{Hasher, hash};
pub use mac::{Sealer, hmac};
