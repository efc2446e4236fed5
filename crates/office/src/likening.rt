//! The likenesses of statements, by which replies are alike.
ghost use Rattle.office.specs.Likenesses.{one_place, one_claim};
ghost use Rattle.record.proofs.Facts.{alike_equivalence};
ghost use Rattle.record.specs.Claims.{alike};
ghost use Rattle.record.specs.declared.fields.Statement.{Statement};
ghost use Rattle.office.specs.Alike.{claim_reflexive, claim_symmetric, claim_transitive, place_reflexive, place_symmetric, place_transitive};
ghost use Rattle.std.specs.Prelude.{◌≡◌, Bool, true};

use record::Statement;

/// A likeness of statements: reflexive, symmetric and transitive.
pub(crate) trait Likening {
    /// these two statements are alike
    ghost likened: { Self → Statement → Statement → Bool };

    /// Whether these two statements are alike.
    fn likens(&self, one: &Statement, other: &Statement) -> bool
        ensures { result ≡ likened self.now one.now other.now };

    ghost reflexive: { (k : Self) (a : _) → likened k a a ≡ true };

    ghost symmetric: { (k : Self) (a b : _) → likened k a b ≡ true → likened k b a ≡ true };

    ghost transitive: { (k : Self) (a b c : _) → likened k a b ≡ true → likened k b c ≡ true → likened k a c ≡ true };
}

/// Alike but for the signer.
pub(crate) struct ButSigner {}

/// Of one claim.
pub(crate) struct OneClaim {}

/// Of one round and place.
pub(crate) struct OnePlace {}

impl Likening for ButSigner {
    ghost likened = { λ _ a b. alike a b };

    ghost reflexive = { λ _ a. alike_equivalence.reflexive a };

    ghost symmetric = { λ _ a b. alike_equivalence.symmetric a b };

    ghost transitive = { λ _ a b c. alike_equivalence.transitive a b c };

    fn likens(&self, one: &Statement, other: &Statement) -> bool {
        one.alike(other)
    }
}

impl Likening for OneClaim {
    ghost likened = { λ _ a b. one_claim a b };

    ghost reflexive = { λ _ a. claim_reflexive a };

    ghost symmetric = { λ _ a b. claim_symmetric a b };

    ghost transitive = { λ _ a b c. claim_transitive a b c };

    fn likens(&self, one: &Statement, other: &Statement) -> bool {
        one.claims_alike(other)
    }
}

impl Likening for OnePlace {
    ghost likened = { λ _ a b. one_place a b };

    ghost reflexive = { λ _ a. place_reflexive a };

    ghost symmetric = { λ _ a b. place_symmetric a b };

    ghost transitive = { λ _ a b c. place_transitive a b c };

    fn likens(&self, one: &Statement, other: &Statement) -> bool {
        one.round == other.round && one.place == other.place
    }
}
