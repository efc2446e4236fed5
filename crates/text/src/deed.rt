//! What a client does to an object, in words.
ghost use Rattle.text.specs.Deeds.{operation_of};
ghost use Rattle.std.specs.Prelude.{◌≡◌, ◌∷◌, replicate, slice_index};

use record::Operation;
use record::layout::u32_bytes;
use std::fmt;

/// A write or a reading of titles or slots.
#[derive(Clone, Copy)]
pub enum Deed {
    Issue { title: u8, receiver: u8 },
    Transfer { title: u8, receiver: u8 },
    Surrender { title: u8 },
    /// who holds a title?
    Title { title: u8 },
    Move { account: u8, amount: u32 },
    /// what does an account hold?
    Account { account: u8 },
}

/// An operation of a code, what it is about, and up to four bytes more.
fn packed(code: u8, about: u8, more: [u8; 4]) -> Operation
    ensures { result ≡ code ∷ about ∷ slice_index more 0 ∷ slice_index more 1 ∷ slice_index more 2 ∷ slice_index more 3 ∷ replicate 10 0 }
{
    let [a, b, c, d] = more;
    [code, about, a, b, c, d, 0, 0, 0, 0, 0, 0, 0, 0, 0, 0]
}

impl Deed {
    /// The sixteen bytes that an object is given.
    pub fn operation(&self) -> Operation
        ensures { result ≡ operation_of self.now }
    {
        match self {
            Deed::Issue { title, receiver } => packed(1, *title, [*receiver, 0, 0, 0]),
            Deed::Transfer { title, receiver } => packed(2, *title, [*receiver, 0, 0, 0]),
            Deed::Surrender { title } => packed(3, *title, [0; 4]),
            Deed::Title { title } => packed(1, *title, [0; 4]),
            Deed::Move { account, amount } => packed(1, *account, u32_bytes(*amount)),
            Deed::Account { account } => packed(1, *account, [0; 4]),
        }
    }
}

impl fmt::Display for Deed {
    fn fmt<W: fmt::Write>(&self, f: &mut fmt::Formatter<W>) -> fmt::Result {
        match self {
            Deed::Issue { title, receiver } => write!(
                f,
                "issues title {title} to client {receiver}"
            ),
            Deed::Transfer { title, receiver } => write!(
                f,
                "transfers title {title} to client {receiver}"
            ),
            Deed::Surrender { title } => write!(f, "surrenders title {title}"),
            Deed::Title { title } => write!(f, "looks at title {title}"),
            Deed::Move { account, amount } => write!(
                f,
                "moves {amount} slots to account {account}"
            ),
            Deed::Account { account } => write!(f, "looks at account {account}"),
        }
    }
}
