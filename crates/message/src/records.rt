//! The records of a message, read where they lie.
ghost use Rattle.std.specs.Prelude.{◌≡◌, ◌<◌};
ghost use Rattle.message.specs.Records.{records, record_at, statement_at};

use record::Statement;
use record::limits::RECORD;

/// How many whole records there are.
pub fn records(bytes: &[u8]) -> usize
    ensures { result ≡ records bytes.now }
{
    bytes.len() / RECORD
}

/// The bytes of record `i`.
pub(crate) fn record_at(bytes: &[u8], i: usize) -> &[u8; RECORD]
    requires { i < records bytes.now }
    ensures { result.now ≡ record_at bytes.now i }
{
    <&[u8; RECORD]>::try_from(&bytes[RECORD * i..RECORD * i + RECORD]).unwrap()
}

/// What record `i` states.
pub(crate) fn statement_at(bytes: &[u8], i: usize) -> Statement
    requires { i < records bytes.now }
    ensures { result ≡ statement_at bytes.now i }
{
    Statement::read(record_at(bytes, i))
}
