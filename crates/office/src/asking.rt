//! What an office has asked the pool, and which replies are to that.
ghost use Rattle.office.specs.Judging.{claims_write};
ghost use Rattle.office.specs.Taking.{answers_asked};
ghost use Rattle.std.specs.Prelude.{◌≡◌};

use record::{Claim, Operation, Statement};

/// A write that is open: the office's number for it, and what it asks.
#[derive(Clone, Copy, PartialEq, Eq)]
pub struct Write {
    pub number: u32,
    pub operation: Operation,
}

/// A question that is open: what it asks, and what tells it from the office's other questions.
#[derive(Clone, Copy, PartialEq, Eq)]
pub struct Question {
    pub operation: Operation,
    pub nonce: u64,
}

impl Write {
    /// Whether a claim is that of a client's write.
    pub(crate) fn is_claimed(&self, client: u8, claim: &Claim) -> bool
        ensures { result ≡ claims_write client self.now claim.now }
    {
        claim.client == client && claim.number == self.number && claim.operation == self.operation
    }
}

impl Question {
    /// Whether a statement answers a client's question.
    pub(crate) fn is_answered(&self, client: u8, says: &Statement) -> bool
        ensures { result ≡ answers_asked client self.now says.now }
    {
        says.client == client && says.nonce == self.nonce && says.operation == self.operation
    }
}
