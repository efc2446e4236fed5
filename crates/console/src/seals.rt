//! Sealing a record under a key, and judging a seal.
ghost use Rattle.notary.specs.Keys.{keyed, sealed_record};
ghost use Rattle.sha256.specs.Mac.{hmac_sha_256};
ghost use Rattle.std.specs.Prelude.{◌≡◌, [], ◌∷◌, ◌++◌, IfOk, replicate, string_bytes};
ghost use Rattle.text.specs.Hex.{hex_text};

use crate::complaint::{Complaint, sized, told};
use notary::{Key, KeyedNotary, MEMBERS, Notary, seal_record};
use sha256::Sealer;
use std::alloc::{AllocError, Global};
use text::hex::{Hex, from_hex};

/// The record with its seal filled in under a key.
pub fn sealed(key: &Key, bytes: &[u8; 80]) -> [u8; 80]
    ensures { result ≡ sealed_record hmac_sha_256 key.now bytes.now }
{
    seal_record(&Sealer::new(key), bytes)
}

/// Whether a keyed notary accepts the record where this is its signer's key.
pub fn vouched(key: &Key, bytes: &[u8; 80]) -> bool
    ensures { result ≡ keyed (replicate 16 key.now) (replicate 16 key.now) bytes.now }
{
    let keys = [*key; MEMBERS];
    KeyedNotary::new(&keys, &keys).vouches(bytes)
}

/// A key and a record.
#[derive(Clone, Copy)]
struct Given {
    key: Key,
    bytes: [u8; 80],
}

/// The key and the record that two words write. That both are hexadecimal is looked at before how long they are.
fn read(heap: Global, key: &str, bytes: &str) -> Result<Given, Complaint> {
    let key = from_hex(heap, key)?.ok_or(Complaint::NoKey)?;
    let bytes = from_hex(heap, bytes)?.ok_or(Complaint::NoRecord)?;
    Ok(Given {
        key: sized(key.as_slice(), Complaint::NoKey)?,
        bytes: sized(bytes.as_slice(), Complaint::NoRecord)?,
    })
}

/// The line of the record with its seal filled in under a key.
pub fn sealed_line(heap: Global, key: &Key, bytes: &[u8; 80]) -> Result<String, AllocError>
    ensures { IfOk result (λ line. string_bytes line ≡ hex_text (sealed_record hmac_sha_256 key.now bytes.now) ++ 10 ∷ []) }
{
    let record = sealed(key, bytes);
    format!(in heap; "{}\n", Hex(&record))
}

/// The record of two words with its seal filled in.
fn sealed_text(heap: Global, key: &str, bytes: &str) -> Result<String, Complaint> {
    let given = read(heap, key, bytes)?;
    Ok(sealed_line(heap, &given.key, &given.bytes)?)
}

/// Whether the record of two words has a good seal.
fn vouched_text(heap: Global, key: &str, bytes: &str) -> Result<String, Complaint> {
    let given = read(heap, key, bytes)?;
    let answer = if vouched(&given.key, &given.bytes) {
        "vouched\n"
    } else {
        "not vouched\n"
    };
    Ok(String::from_str(heap, answer)?)
}

/// The command `seal`: the record with its seal filled in under the key.
pub fn seal(heap: Global, key: &str, bytes: &str) -> Result<String, AllocError> {
    told(heap, sealed_text(heap, key, bytes))
}

/// The command `vouch`: whether the record's seal is good under the key.
pub fn vouch(heap: Global, key: &str, bytes: &str) -> Result<String, AllocError> {
    told(heap, vouched_text(heap, key, bytes))
}
