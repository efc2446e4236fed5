//! What is shown to the notary.
ghost use Rattle.std.specs.Prelude.{◌≡◌, ◌<◌, IfSome};
ghost use Rattle.message.specs.Checks.{first_unvouched, refuse};
ghost use Rattle.message.specs.Records.{records};
ghost use Rattle.message.specs.declared.faults.CertificateFault.TheVariants.{Unvouched as unvouched_at};

use crate::faults::CertificateFault;
use crate::group::Group;
use crate::part::Part;
use crate::records::record_at;
use notary::Notary;

/// The first record of a part that the notary does not accept. The index is looped over: that is this project's form for
/// the records of a group.
fn first_unvouched<N: Notary>(notary: &N, part: &Part) -> Option<usize>
    ensures value { result ≡ first_unvouched (N.Notary.means notary.now) part.now.bytes.now }
    ensures within { IfSome result (λ k. k < records part.now.bytes.now) }
{
    for k in 0..part.count() {
        if !notary.vouches(record_at(part.bytes, k)) {
            return Some(k);
        }
    }
    None
}

/// UNVOUCHED: the notary accepts each record of a group.
pub(crate) fn accepted<N: Notary>(notary: &N, group: &Group) -> Result<(), CertificateFault>
    ensures { result ≡ refuse unvouched_at group.now.part.first (first_unvouched (N.Notary.means notary.now) group.now.part.bytes.now) }
{
    group.refuse(
        first_unvouched(notary, &group.part),
        CertificateFault::Unvouched,
    )
}
