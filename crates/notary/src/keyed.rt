//! The notary that knows the keys of sites and clients.
ghost use Rattle.std.specs.Prelude.{◌≡◌, ℕ, List, map};
ghost use Rattle.std.specs.List.{zip};
ghost use Rattle.std.specs.Str.{bytes_eq};
ghost use Rattle.sha256.specs.Sealing.{prepared};
ghost use Rattle.notary.specs.Keys.{differing, key_for, keyed, member_key, sealed_if, sealed_under, sealer_at};
ghost use Rattle.record.specs.Layout.{statement_of};

use crate::party::Party;
use crate::sealing::seal_record;
use crate::vouching::Notary;
use record::limits::RECORD;
use record::parts::statement_part;
use record::{Kind, Record, Seal, Statement};
use sha256::Sealer;

/// How many sites and how many clients have keys.
pub const MEMBERS: usize = 16;

/// A key of a site or a client.
pub type Key = [u8; 32];

/// The notary that accepts a record when its seal is the HMAC-SHA-256 of its statement under its signer's key. Arrays, since a notary
/// allocates nothing.
#[derive(Clone, Copy)]
pub struct KeyedNotary {
    sites: [Sealer; MEMBERS],
    clients: [Sealer; MEMBERS],
}

/// The sealer of a key.
fn sealer(key: Key) -> Sealer
    ensures { result ≡ prepared key }
{
    Sealer::new(&key)
}

/// Prepares each of sixteen keys.
fn prepare(keys: &[Key; MEMBERS]) -> [Sealer; MEMBERS]
    ensures { result ≡ map prepared keys.now }
{
    keys.map(sealer)
}

/// The prepared key of a member, if there is one of that number.
fn member_key(sealers: &[Sealer; MEMBERS], member: u8) -> Option<Sealer>
    ensures { result ≡ member_key (sealer_at sealers.now) member }
{
    sealers.get(usize::from(member)).copied()
}

/// The bits in which two seals differ. Every byte is read, whatever they hold.
fn difference(a: &Seal, b: &Seal) -> u8
    ensures { result ≡ differing (zip a.now b.now) }
{
    a.iter().zip(b).fold(0, |bits, (x, y)| bits | (x ^ y))
}

/// Whether two seals are equal. No `==`, which may stop at the first byte that differs.
#[tactic(auto, using(crate::proofs::Equal::equal_seals))]
fn same_seal(a: &Seal, b: &Seal) -> bool
    ensures { result ≡ bytes_eq a.now b.now }
{
    difference(a, b) == 0
}

impl KeyedNotary {
    /// The notary that knows these keys, by the numbers of sites and of clients.
    #[tactic(auto, using(crate::proofs::Accepting::prepared_as_keys))]
    pub fn new(sites: &[Key; MEMBERS], clients: &[Key; MEMBERS]) -> KeyedNotary
        ensures { (bytes : List ℕ) → sealed_under result.sites result.clients bytes ≡ keyed sites.now clients.now bytes }
    {
        KeyedNotary {
            sites: prepare(sites),
            clients: prepare(clients),
        }
    }

    /// The prepared key that a statement is sealed under, if its kind is signed and its signer has a key.
    fn key_for(&self, statement: &Statement) -> Option<Sealer>
        ensures { result ≡ key_for (sealer_at self.now.sites) (sealer_at self.now.clients) statement.now }
    {
        let kind = Kind::try_from(statement.kind).ok()?;
        match Party::signing(kind)? {
            Party::Client => member_key(&self.clients, statement.signer),
            Party::Site => member_key(&self.sites, statement.signer),
        }
    }

    /// The record with the seal that its signer's key makes of its statement; as it is, where there is no such key.
    pub fn seal(&self, bytes: &[u8; RECORD]) -> [u8; RECORD]
        ensures { result ≡ sealed_if (key_for (sealer_at self.now.sites) (sealer_at self.now.clients) (statement_of bytes.now)) bytes.now }
    {
        let Some(sealer) = self.key_for(&Statement::read(bytes)) else {
            return *bytes;
        };
        seal_record(&sealer, bytes)
    }
}

impl Notary for KeyedNotary {
    ghost means = { λ n. sealed_under n.sites n.clients };

    fn vouches(&self, bytes: &[u8; RECORD]) -> bool {
        let shown = Record::read(bytes);
        self.key_for(&shown.statement).is_some_and(|sealer| same_seal(
            &shown.seal,
            &sealer.seal(statement_part(bytes)),
        ))
    }
}
