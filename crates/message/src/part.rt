//! Parts of a message.
ghost use Rattle.std.specs.Prelude.{◌≡◌, ◌+◌, ◌<◌, ◌≤◌};
ghost use Rattle.message.specs.Records.{records, stated, group};
ghost use Rattle.message.specs.Said.{request_of};
ghost use Rattle.record.specs.Claims.{claim_of};

use crate::records::{records, statement_at};
use crate::request::Request;
use record::limits::RECORD;
use record::{Claim, Place, Round, Statement};

/// Whole records of the caller's input, read where they lie, with the index of the first in the message.
#[derive(Clone, Copy)]
pub struct Part<'a> {
    pub bytes: &'a [u8],
    pub first: usize,
}

impl<'a> Part<'a> {
    /// The part of a message that has `n` records from index `first` on.
    pub(crate) fn of(message: &'a [u8], first: usize, n: usize) -> Part<'a>
        requires { first + n ≤ records message.now }
        ensures bytes { result.bytes.now ≡ group message.now first n }
        ensures first { result.first ≡ first }
    {
        Part {
            bytes: &message[RECORD * first..][..RECORD * n],
            first,
        }
    }

    /// The index in the message of record `k` of the part. A part that anybody made may begin anywhere, so the bound is asked here.
    pub(crate) fn index(&self, k: usize) -> usize
        requires { (self.now.first ≤ 38) × (k < records self.now.bytes.now) }
        ensures { result ≡ self.now.first + k }
    {
        self.first + k
    }

    /// How many records the part has.
    pub fn count(&self) -> usize
        ensures { result ≡ records self.now.bytes.now }
    {
        records(self.bytes)
    }

    /// What record `i` of the part states; past its end, a statement with nothing in it.
    pub fn statement(&self, i: usize) -> Statement
        ensures { result ≡ stated self.now.bytes.now i }
    {
        if i < self.count() {
            statement_at(self.bytes, i)
        } else {
            Statement::NOTHING
        }
    }

    /// The request that record `i` of the part makes.
    pub fn request(&self, i: usize) -> Request
        ensures { result ≡ request_of (stated self.now.bytes.now i) }
    {
        Request::from(&self.statement(i))
    }

    /// The claim of the part's first record: that of a certificate.
    pub fn claim(&self) -> Claim
        ensures { result ≡ claim_of (stated self.now.bytes.now 0) }
    {
        self.statement(0).claim()
    }

    /// The round that the part's first record names.
    pub fn round(&self) -> Round
        ensures { result ≡ (stated self.now.bytes.now 0).round }
    {
        self.statement(0).round
    }

    /// The place that the part's first record names, and 0 where the part has no records.
    pub fn place(&self) -> Place
        ensures { result ≡ (stated self.now.bytes.now 0).place }
    {
        self.statement(0).place
    }
}
