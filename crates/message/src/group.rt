//! Groups of a message that is being checked.
ghost use Rattle.std.specs.Prelude.{◌≡◌, ◌+◌, ◌<◌, ◌≤◌, Ok, Err, IfSome, MatchOption};
ghost use Rattle.message.specs.Records.{records};
ghost use Rattle.message.specs.Sizes.{SmallSigners};

use crate::faults::CertificateFault;
use crate::part::Part;

/// A part of a message whose records are each in range: it begins within the message, and each signer has a byte of
/// the board.
#[derive(Clone, Copy)]
pub(crate) struct Group<'a> {
    pub(crate) part: Part<'a>,
    ghost early: { part.first ≤ 38 },
    ghost signers: { SmallSigners part.bytes.now },
}

impl Group<'_> {
    /// Passed, or refused at the record that was found in the group.
    pub(crate) fn refuse<F: FnOnce(usize) -> CertificateFault>(
        &self,
        found: Option<usize>,
        fault: F,
    ) -> Result<(), CertificateFault>
        requires callable { F.IsAlwaysCallable fault }
        requires within { IfSome found (λ k. k < records self.now.part.bytes.now) }
        ensures { MatchOption found (result ≡ Ok tt) (λ k. (e : CertificateFault) × F.post fault (self.now.part.first + k) e × (result ≡ Err e)) }
    {
        let Some(k) = found else {
            return Ok(());
        };
        Err(fault(self.part.index(k)))
    }
}
