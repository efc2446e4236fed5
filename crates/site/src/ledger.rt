//! Doing a write and taking it back.
ghost use Rattle.site.specs.Ledgers.{kept_bytes, noted, taken_back, calls_back, current_client};
ghost use Rattle.std.specs.Prelude.{◌≡◌, false};

use crate::entries::{get, put};
use crate::state::{Backup, CERTIFICATE, Current, Done, Ledger};
use record::Claim;
use record::limits::MARK;

/// What a write was answered, and whether it called the object. There is an answer either way, so that it is no `Option`.
#[derive(Clone, Copy)]
pub(crate) struct Performed {
    pub(crate) answer: u64,
    pub(crate) called: bool,
}

impl Performed {
    /// A write that is answered without the object.
    pub(crate) fn without_call(answer: u64) -> Performed
        ensures { result ≡ record { answer = answer; called = false } }
    {
        Performed {
            answer,
            called: false,
        }
    }
}

/// A certificate as it is kept: its bytes, then zeros.
#[tactic(auto, using(crate::proofs::Keeping::over_zeros))]
fn kept(certificate: &[u8]) -> [u8; CERTIFICATE]
    ensures { result ≡ kept_bytes certificate.now }
{
    let mut bytes = [0; CERTIFICATE];
    let n = certificate.len().min(CERTIFICATE);
    bytes[0..n].copy_from_slice(&certificate[0..n]);
    bytes
}

impl Ledger {
    /// Notes a write as done.
    pub(crate) fn note(&mut self, claim: &Claim, certificate: &[u8], write: Performed)
        ensures { self.new ≡ noted self.old claim.now certificate.now write.answer write.called }
    {
        let backup = Backup {
            current: self.current,
            entry: get(&self.done, claim.client),
            called: write.called,
        };
        self.place = claim.place;
        self.current = Some(Current {
            claim: *claim,
            certificate: kept(certificate),
        });
        put(
            &mut self.done,
            claim.client,
            Some(Done {
                claim: *claim,
                answer: write.answer,
            }),
        );
        self.backup = Some(backup);
    }

    /// The client whose write is current.
    fn current_client(&self) -> u8
        ensures { result ≡ current_client self.now.current }
    {
        self.current
            .as_ref()
            .map_or(MARK, |current| current.claim.client)
    }

    /// Takes the last write back, and says whether that calls the object.
    pub(crate) fn take_back(&mut self) -> bool
        ensures said { result ≡ calls_back self.old.backup }
        ensures after { self.new ≡ taken_back self.old self.old.backup }
    {
        let Some(backup) = self.backup.take() else {
            return false;
        };
        let client = self.current_client();
        self.place = self.place.saturating_sub(1);
        self.current = backup.current;
        put(&mut self.done, client, backup.entry);
        backup.called
    }
}
