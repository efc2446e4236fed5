//! The checker of a group of records. It is handed a part alone, and reads nothing else of the message.
ghost use Rattle.std.specs.Prelude.{◌≡◌, ◌<◌, length, IfSome};
ghost use Rattle.message.specs.Checks.{first_unlike, first_again, refuse, clash};
ghost use Rattle.message.specs.Records.{records};
ghost use Rattle.message.specs.declared.agreement.Agreement.TheVariants.{OneClaim as one_claim};
ghost use Rattle.message.specs.declared.faults.CertificateFault.TheVariants.{Mixed as mixed_at, Twice as twice_at};

use crate::agreement::Agreement;
use crate::board::first_again;
use crate::faults::CertificateFault;
use crate::group::Group;
use crate::limits::BOARD;
use crate::part::Part;
use crate::records::statement_at;

/// The first record of a part that is unlike the part's first. The index is looped over: that is this project's form for
/// the records of a group.
fn first_unlike(part: &Part, agreement: Agreement) -> Option<usize>
    ensures value { result ≡ first_unlike agreement part.now.bytes.now }
    ensures within { IfSome result (λ k. k < records part.now.bytes.now) }
{
    let first = part.statement(0);
    for k in 0..part.count() {
        if agreement.broken(&first, &statement_at(part.bytes, k)) {
            return Some(k);
        }
    }
    None
}

/// MIXED: every record of a group agrees with the group's first.
pub(crate) fn agreeing(group: &Group, agreement: Agreement) -> Result<(), CertificateFault>
    ensures { result ≡ refuse mixed_at group.now.part.first (first_unlike agreement group.now.part.bytes.now) }
{
    group.refuse(
        first_unlike(&group.part, agreement),
        CertificateFault::Mixed,
    )
}

/// SAME: the GRANTs of a clash make two claims at least.
pub(crate) fn clashing(group: &Group) -> Result<(), CertificateFault>
    ensures { result ≡ clash (first_unlike one_claim group.now.part.bytes.now) }
{
    first_unlike(&group.part, Agreement::OneClaim).ok_or(CertificateFault::Same)?;
    Ok(())
}

/// TWICE: no signer signs two records of a group. The signers are counted on the board.
pub(crate) fn signed_once(group: &Group, board: &mut [u8; BOARD]) -> Result<(), CertificateFault>
    ensures { result ≡ refuse twice_at group.now.part.first (first_again group.now.part.bytes.now) }
{
    group.refuse(first_again(group, board), CertificateFault::Twice)
}
