//! The keys of a rehearsal, which everybody knows.
ghost use Rattle.std.specs.Prelude.{◌≡◌, ℕ, ◌≤◌, List};
ghost use Rattle.notary.specs.Keys.{keyed, sealed_under};
ghost use Rattle.scenario.specs.Rehearsal.{rehearsal_keys};

use notary::{Key, KeyedNotary, MEMBERS};

/// Sixteen keys: the first is 32 bytes of this value, and each next one of the next value.
fn keys(first: u8) -> [Key; MEMBERS]
    requires { first ≤ 240 }
    ensures { result ≡ rehearsal_keys first }
{
    [
        [first; 32],
        [first + 1; 32],
        [first + 2; 32],
        [first + 3; 32],
        [first + 4; 32],
        [first + 5; 32],
        [first + 6; 32],
        [first + 7; 32],
        [first + 8; 32],
        [first + 9; 32],
        [first + 10; 32],
        [first + 11; 32],
        [first + 12; 32],
        [first + 13; 32],
        [first + 14; 32],
        [first + 15; 32],
    ]
}

/// The notary that knows the keys of a rehearsal: site i has 32 bytes of value 16 + i, and client i of value 32 + i.
pub fn rehearsal_notary() -> KeyedNotary
    ensures { (bytes : List ℕ) → sealed_under result.sites result.clients bytes ≡ keyed (rehearsal_keys 16) (rehearsal_keys 32) bytes }
{
    KeyedNotary::new(&keys(16), &keys(32))
}
