//! What every notary is.
ghost use Rattle.std.specs.Prelude.{◌≡◌, ℕ, Bool, List};

use record::limits::RECORD;

/// A notary means a fixed set of records, and says yes exactly for those.
pub trait Notary {
    /// The records that the notary means.
    ghost means: { Self → List ℕ → Bool };

    /// Whether the notary means this record. It is asked by `&self`: an answer changes nothing.
    fn vouches(&self, bytes: &[u8; RECORD]) -> bool
        ensures { result ≡ means self.now bytes.now };
}
