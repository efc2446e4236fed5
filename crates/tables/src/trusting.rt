//! A notary for tests.
ghost use Rattle.std.specs.Prelude.{not, ◌==◌, slice_index};

use notary::Notary;

/// The byte that fills a seal which is not accepted.
pub const FORGED: u8 = 255;

/// Accepts every record but those whose seal begins with 255.
#[derive(Clone, Copy)]
pub struct Trusting {}

impl Notary for Trusting {
    ghost means = { λ _ bytes. not (slice_index bytes 48 == 255) };

    fn vouches(&self, bytes: &[u8; 80]) -> bool {
        bytes[48] != FORGED
    }
}
