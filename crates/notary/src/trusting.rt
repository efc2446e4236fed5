//! The notary that means every record.
ghost use Rattle.std.specs.Prelude.{true};

use crate::vouching::Notary;
use record::limits::RECORD;

/// The notary that accepts whatever it is shown, where seals do not matter.
#[derive(Clone, Copy)]
pub struct TrustingNotary;

impl Notary for TrustingNotary {
    ghost means = { λ _ _. true };

    fn vouches(&self, _bytes: &[u8; RECORD]) -> bool {
        true
    }
}
