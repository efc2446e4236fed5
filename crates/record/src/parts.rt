// The two parts of a record's bytes: what it says, and its seal.
ghost use Rattle.record.specs.Layout.{statement_part, seal_part};
ghost use Rattle.std.specs.Prelude.{◌≡◌, ◌++◌};

use crate::fields::Seal;
use crate::layout::put;
use crate::limits::{RECORD, STATEMENT};

// The bytes that make the statement.
pub fn statement_part(bytes: &[u8; 80]) -> &[u8]
    ensures { result.now ≡ statement_part bytes.now }
{
    &bytes[0..STATEMENT]
}

// The bytes that make the seal.
pub fn seal_part(bytes: &[u8; 80]) -> &[u8]
    ensures { result.now ≡ seal_part bytes.now }
{
    &bytes[STATEMENT..RECORD]
}

// The same statement under another seal.
#[tactic(auto, using(std::proofs::lemmas::List::take_all))]
pub fn with_seal(bytes: &[u8; 80], seal: &Seal) -> [u8; 80]
    ensures { result ≡ statement_part bytes.now ++ seal.now }
{
    let mut out = *bytes;
    put(&mut out, STATEMENT, seal);
    out
}
