//! Telling the form of a message by the kinds of its records.
ghost use Rattle.std.specs.Prelude.{◌≡◌, ◌+◌, ◌<◌, ◌≤◌};
ghost use Rattle.message.specs.Forms.{quorum, is_kind, all_kind, ends_in_requests, write_2_form, resolve_form, bare_round_form, full_round_form, lone_form_of, quorum_form_of, pool_form_of, form_of};
ghost use Rattle.message.specs.Records.{records};

use crate::form::Form;
use crate::limits::{HIGHEST_FAULTY, MOST_REQUESTS};
use crate::records::{records, statement_at};
use record::Kind;

/// A quorum of a pool of 3f+1 sites.
pub fn quorum(f: u8) -> usize
    ensures { result ≡ quorum f }
{
    2 * usize::from(f) + 1
}

/// Whether record `i` is of a kind.
fn is_kind(kind: Kind, message: &[u8], i: usize) -> bool
    requires { i < records message.now }
    ensures { result ≡ is_kind kind message.now i }
{
    statement_at(message, i).is(kind)
}

/// Whether each of `n` records from index `first` on is of a kind.
fn all_kind(kind: Kind, message: &[u8], first: usize, n: usize) -> bool
    requires { first + n ≤ records message.now }
    ensures { result ≡ all_kind kind message.now first n }
{
    (first..first + n).all(|i| is_kind(kind, message, i))
}

/// Whether there are REQUESTs, at most sixteen, from index `i` to the end of the message.
fn ends_in_requests(message: &[u8], i: usize) -> bool
    requires { i ≤ records message.now }
    ensures { result ≡ ends_in_requests message.now i }
{
    let n = records(message);
    n - i <= MOST_REQUESTS && all_kind(Kind::Request, message, i, n - i)
}

/// A message beside the quorum of its pool, which is eleven at most.
#[derive(Clone, Copy)]
struct InPool<'a> {
    q: usize,
    message: &'a [u8],
    ghost few: { q ≤ 11 },
}

impl InPool<'_> {
    /// A quorum of GRANTs.
    fn is_write_2(&self) -> bool
        ensures { result ≡ write_2_form self.now.q self.now.message.now }
    {
        records(self.message) == self.q && all_kind(Kind::Grant, self.message, 0, self.q)
    }

    /// A quorum of GRANTs, and one REQUEST.
    fn is_resolve(&self) -> bool
        ensures { result ≡ resolve_form self.now.q self.now.message.now }
    {
        records(self.message) == self.q + 1
            && all_kind(Kind::Grant, self.message, 0, self.q)
            && is_kind(Kind::Request, self.message, self.q)
    }

    /// A quorum of STARTs, and REQUESTs.
    fn is_bare_round(&self) -> bool
        ensures { result ≡ bare_round_form self.now.q self.now.message.now }
    {
        self.q <= records(self.message)
            && ends_in_requests(self.message, self.q)
            && all_kind(Kind::Start, self.message, 0, self.q)
    }

    /// A quorum of STARTs, a quorum of GRANTs, and REQUESTs.
    fn is_full_round(&self) -> bool
        ensures { result ≡ full_round_form self.now.q self.now.message.now }
    {
        self.q + self.q <= records(self.message)
            && ends_in_requests(self.message, self.q + self.q)
            && all_kind(Kind::Start, self.message, 0, self.q)
            && all_kind(Kind::Grant, self.message, self.q, self.q)
    }

    /// The form of a message that holds a quorum.
    fn form(&self) -> Option<Form>
        ensures { result ≡ quorum_form_of self.now.q self.now.message.now }
    {
        if self.is_write_2() {
            Some(Form::Write2)
        } else if self.is_resolve() {
            Some(Form::Resolve)
        } else if self.is_bare_round() {
            Some(Form::Round {
                grants: 0,
                requests: records(self.message) - self.q,
            })
        } else if self.is_full_round() {
            Some(Form::Round {
                grants: self.q,
                requests: records(self.message) - (self.q + self.q),
            })
        } else {
            None
        }
    }
}

/// The form of a message of one record.
fn lone_form(message: &[u8]) -> Option<Form>
    ensures { result ≡ lone_form_of message.now }
{
    if records(message) != 1 {
        return None;
    }
    match Kind::try_from(statement_at(message, 0).kind).ok()? {
        Kind::Request => Some(Form::Write1),
        Kind::Question => Some(Form::Read),
        Kind::ShowGrant => Some(Form::ShowGrant),
        Kind::ShowCert => Some(Form::ShowCert),
        Kind::Grant | Kind::Answer | Kind::ReadAnswer | Kind::Start => None,
    }
}

/// The form of a message that holds a quorum of a pool of 3f+1 sites. A pool has at most sixteen sites.
fn pool_form(f: u8, message: &[u8]) -> Option<Form>
    ensures { result ≡ pool_form_of f message.now }
{
    if f <= HIGHEST_FAULTY {
        let in_pool = InPool {
            q: quorum(f),
            message,
        };
        in_pool.form()
    } else {
        None
    }
}

/// The form of a message, if it has one.
pub fn form_of(f: u8, message: &[u8]) -> Option<Form>
    ensures { result ≡ form_of f message.now }
{
    lone_form(message).or_else(|| pool_form(f, message))
}
