//! What a REQUEST asks.
ghost use Rattle.message.specs.Said.{request_of};
ghost use Rattle.std.specs.Prelude.{◌≡◌};

use record::{Operation, Statement};

/// One client's request for a write, under the client's own number for it.
#[derive(Clone, Copy, PartialEq, Eq)]
pub struct Request {
    pub client: u8,
    pub number: u32,
    pub operation: Operation,
}

/// The request that a statement makes.
impl From<&Statement> for Request {
    ghost from_gives = { λ says request. request ≡ request_of says.now };

    fn from(says: &Statement) -> Request {
        Request {
            client: says.client,
            number: says.number,
            operation: says.operation,
        }
    }
}
