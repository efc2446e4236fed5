//! The questions that are asked of the slots: which replies count, and which two are alike.
ghost use Rattle.office.specs.Likenesses.{heard, of_kind, both_held, any_slots};
ghost use Rattle.std.specs.Prelude.{◌≡◌};
ghost use Rattle.office.specs.Alike.{held_reflexive, held_symmetric, held_transitive};
ghost use Rattle.std.proofs.Common.{rules};

use crate::likening::Likening;
use crate::slots::Slot;
use finder::Likeness;
use record::Kind;

/// Replies of a kind, of which two are alike where their statements are.
pub(crate) struct OfKind<L: Likening> {
    pub kind: Kind,
    pub likening: L,
}

/// All replies, of any kind and content.
pub(crate) struct Heard {}

impl Slot {
    /// Whether a reply of a kind is filed.
    fn holds(&self, kind: Kind) -> bool
        ensures { result ≡ of_kind kind self.now }
    {
        self.filed.is_some_and(|reply| reply.statement.is(kind))
    }
}

impl<L: Likening> Likeness<Slot> for OfKind<L> {
    ghost counted = { λ k s. of_kind k.kind s };

    ghost likened = { λ k a b. both_held (L.Likening.likened k.likening) a.filed b.filed };

    ghost reflexive = { λ k x. held_reflexive (L.Likening.likened k.likening) (L.Likening.reflexive k.likening) x.filed };

    ghost symmetric = { λ k x y. held_symmetric (L.Likening.likened k.likening) (L.Likening.symmetric k.likening) x.filed y.filed };

    ghost transitive = { λ k x y z. held_transitive (L.Likening.likened k.likening) (L.Likening.transitive k.likening) x.filed y.filed z.filed };

    fn counts(&self, reply: &Slot) -> bool {
        reply.holds(self.kind)
    }

    // no `==`: one kind of slot has several likenesses
    fn alike(&self, one: &Slot, other: &Slot) -> bool {
        match (&one.filed, &other.filed) {
            (Some(one), Some(other)) => self.likening.likens(&one.statement, &other.statement),
            (None, None) => true,
            _ => false,
        }
    }
}

impl Likeness<Slot> for Heard {
    ghost counted = { λ _ s. heard s };

    ghost likened = { λ _ a b. any_slots a b };

    ghost reflexive = { Prim.search rules };

    ghost symmetric = { Prim.search rules };

    ghost transitive = { Prim.search rules };

    fn counts(&self, reply: &Slot) -> bool {
        reply.filed.is_some()
    }

    // no `==`: here any two replies are alike
    fn alike(&self, _one: &Slot, _other: &Slot) -> bool {
        true
    }
}
