// Claims, and likeness.
ghost use Rattle.record.specs.Claims.{claim_of, same_claim, alike};
ghost use Rattle.record.specs.Kinds.{kind_number};
ghost use Rattle.std.specs.Prelude.{◌≡◌, ◌==◌};

use crate::fields::{Claim, Statement};
use crate::kind::Kind;

impl Statement {
    // Whether the statement is of a kind. It is told by byte 0, since any 80 bytes make a record, also where that byte names no kind.
    pub fn is(&self, kind: Kind) -> bool
        ensures { result ≡ (self.now.kind == kind_number kind) }
    {
        self.kind == u8::from(kind)
    }

    // The claim that a statement makes.
    pub fn claim(&self) -> Claim
        ensures { result ≡ claim_of self.now }
    {
        Claim {
            client: self.client,
            number: self.number,
            round: self.round,
            place: self.place,
            operation: self.operation,
        }
    }

    // Whether two statements make the same claim.
    pub fn claims_alike(&self, other: &Statement) -> bool
        ensures { result ≡ same_claim (claim_of self.now) (claim_of other.now) }
    {
        self.claim() == other.claim()
    }

    // Whether two statements are alike but for the signer: no equality, which would look at the signer too.
    pub fn alike(&self, other: &Statement) -> bool
        ensures { result ≡ alike self.now other.now }
    {
        *self
            == Statement {
                signer: self.signer,
                ..*other
            }
    }
}
