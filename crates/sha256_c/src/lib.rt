//! SHA-256 and HMAC-SHA-256 for callers in C: the functions of the crate `sha256` under C names.
//!
//! A slice crosses as a pointer and then a length, and the caller keeps all memory, a `Sealer` too.
//! Each function writes what the function of `sha256` that it calls returns, by the same definition.
#![tactic(auto)]

ghost use Rattle.std.specs.Prelude.{◌≡◌};
ghost use Rattle.sha256.specs.Digest.{sha_256};
ghost use Rattle.sha256.specs.Mac.{hmac_sha_256};
ghost use Rattle.sha256.specs.Sealing.{prepared, sealed};

use sha256::Sealer;

/// Writes the SHA-256 digest of a message.
#[unsafe(no_mangle)]
pub extern "C" fn sha256_hash(message: &[u8], digest: &mut [u8; 32])
    ensures { digest.new ≡ sha_256 message.now }
{
    *digest = sha256::hash(message);
}

/// Writes the HMAC-SHA-256 of a message under a key.
#[unsafe(no_mangle)]
pub extern "C" fn sha256_hmac(key: &[u8], message: &[u8], seal: &mut [u8; 32])
    ensures { seal.new ≡ hmac_sha_256 key.now message.now }
{
    *seal = sha256::hmac(key, message);
}

/// Prepares a key.
#[unsafe(no_mangle)]
pub extern "C" fn sha256_prepare(key: &[u8], sealer: &mut Sealer)
    ensures { sealer.new ≡ prepared key.now }
{
    *sealer = Sealer::new(key);
}

/// Writes the HMAC-SHA-256 of a message under a prepared key.
#[unsafe(no_mangle)]
pub extern "C" fn sha256_seal(sealer: &Sealer, message: &[u8], seal: &mut [u8; 32])
    ensures { seal.new ≡ sealed sealer.now message.now }
{
    *seal = sealer.seal(message);
}
