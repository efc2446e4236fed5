//! What the records of a group must have in common.
ghost use Rattle.message.specs.Checks.{unlike};
ghost use Rattle.std.specs.Prelude.{◌≡◌};

use record::{Round, Statement};

/// How the records of a group must agree with the first.
#[derive(Clone, Copy)]
pub enum Agreement {
    /// a certificate: one claim
    OneClaim,
    /// the certificate of a ROUND: one claim, of the round that the STARTs name
    OneClaimIn(Round),
    /// GRANTs that clash: one round and place
    OnePlace,
    /// STARTs: one round
    OneRound,
}

impl Agreement {
    /// Whether a record of a group is unlike the first.
    pub fn broken(self, first: &Statement, other: &Statement) -> bool
        ensures { result ≡ unlike self first.now other.now }
    {
        match self {
            Agreement::OneClaim => !first.claims_alike(other),
            Agreement::OneClaimIn(round) => !first.claims_alike(other) || other.round != round,
            Agreement::OnePlace => first.round != other.round || first.place != other.place,
            Agreement::OneRound => first.round != other.round,
        }
    }
}
