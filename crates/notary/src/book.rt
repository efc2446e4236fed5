//! The notary that means the records of a book.
ghost use Rattle.std.specs.Prelude.{◌≡◌};
ghost use Rattle.notary.specs.Book.{in_book};

use crate::vouching::Notary;
use record::limits::RECORD;

/// Whether a record is one of a book's.
fn holds(book: &[u8], bytes: &[u8; RECORD]) -> bool
    ensures { result ≡ in_book book.now bytes.now }
{
    book.chunks_exact(RECORD)
        .any(|entry| entry == bytes.as_slice())
}

/// The notary that means the whole records of a byte slice, end to end.
#[derive(Clone, Copy)]
pub struct BookNotary<'a> {
    book: &'a [u8],
}

impl<'a> BookNotary<'a> {
    /// The notary of a book. A rest shorter than a record counts for nothing.
    pub fn new(book: &'a [u8]) -> BookNotary<'a>
        ensures { result.book.now ≡ book.now }
    {
        BookNotary { book }
    }
}

impl<'a> Notary for BookNotary<'a> {
    ghost means = { λ n. in_book n.book.now };

    fn vouches(&self, bytes: &[u8; RECORD]) -> bool {
        holds(self.book, bytes)
    }
}
