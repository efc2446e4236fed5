//! What a ROUND's STARTs and REQUESTs must keep to.
ghost use Rattle.std.specs.Prelude.{◌≡◌, ◌<◌, IfSome, nat_le, nat_lt};
ghost use Rattle.message.specs.Checks.{first_above, first_unordered, refuse};
ghost use Rattle.message.specs.Records.{records};
ghost use Rattle.message.specs.declared.faults.CertificateFault.TheVariants.{Low as low_at, Order as order_at};

use crate::faults::CertificateFault;
use crate::group::Group;
use crate::part::Part;
use crate::records::statement_at;
use record::{Place, Statement};

/// Whether a START is above the target. A test of one field, and no order of statements.
fn above(target: Place, start: &Statement) -> bool
    ensures { result ≡ nat_lt target start.now.place }
{
    target < start.place
}

/// Whether a REQUEST's client is not above that of the one before. A test of one field, and no order of statements.
fn not_rising(before: &Statement, request: &Statement) -> bool
    ensures { result ≡ nat_le request.now.client before.now.client }
{
    request.client <= before.client
}

/// The first START above the target.
fn first_above(starts: &Part, target: Place) -> Option<usize>
    ensures value { result ≡ first_above target starts.now.bytes.now }
    ensures within { IfSome result (λ k. k < records starts.now.bytes.now) }
{
    (0..starts.count()).find(|k| above(target, &statement_at(starts.bytes, *k)))
}

/// The first REQUEST, after the first, whose client is not above the one before.
fn first_unordered(requests: &Part) -> Option<usize>
    ensures value { result ≡ first_unordered requests.now.bytes.now }
    ensures within { IfSome result (λ k. k < records requests.now.bytes.now) }
{
    (1..requests.count()).find(|k| {
        let before = statement_at(requests.bytes, *k - 1);
        not_rising(&before, &statement_at(requests.bytes, *k))
    })
}

/// LOW: no START is above the target.
pub(crate) fn reaching(starts: &Group, target: Place) -> Result<(), CertificateFault>
    ensures { result ≡ refuse low_at starts.now.part.first (first_above target starts.now.part.bytes.now) }
{
    starts.refuse(first_above(&starts.part, target), CertificateFault::Low)
}

/// ORDER: the clients of the REQUESTs rise strictly.
pub(crate) fn rising(requests: &Group) -> Result<(), CertificateFault>
    ensures { result ≡ refuse order_at requests.now.part.first (first_unordered requests.now.part.bytes.now) }
{
    requests.refuse(first_unordered(&requests.part), CertificateFault::Order)
}
