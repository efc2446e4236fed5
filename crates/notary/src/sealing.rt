//! Sealing a record of one's own.
ghost use Rattle.std.specs.Prelude.{◌≡◌, ℕ, List};
ghost use Rattle.sha256.specs.Mac.{hmac_sha_256};
ghost use Rattle.sha256.specs.Sealing.{prepared, sealed};
ghost use Rattle.notary.specs.Keys.{sealed_record};

use record::limits::RECORD;
use record::parts::{statement_part, with_seal};
use sha256::Sealer;

/// The same statement with the seal that a prepared key makes of it.
#[tactic(auto, using(sha256::proofs::Keyed::sealed_is_hmac))]
pub fn seal_record(sealer: &Sealer, bytes: &[u8; RECORD]) -> [u8; RECORD]
    ensures value { result ≡ sealed_record sealed sealer.now bytes.now }
    ensures under { (key : List ℕ) → sealer.now ≡ prepared key → result ≡ sealed_record hmac_sha_256 key bytes.now }
{
    with_seal(bytes, &sealer.seal(statement_part(bytes)))
}
