//! Checks 5 to 10 by the form of the message: which group each check is of.
ghost use Rattle.std.specs.Prelude.{◌≡◌, ◌+◌, ◌≤◌, length};
ghost use Rattle.message.specs.Checks.{agreed, clashing, distinct, vouched, reached, ordered};
ghost use Rattle.message.specs.Forms.{quorum};
ghost use Rattle.message.specs.Records.{records, group};
ghost use Rattle.message.specs.Saying.{target};
ghost use Rattle.message.specs.Sizes.{Readable};

use crate::agreement::Agreement;
use crate::certificate::{agreeing, clashing, signed_once};
use crate::faults::CertificateFault;
use crate::form::Form;
use crate::group::Group;
use crate::limits::BOARD;
use crate::part::Part;
use crate::records::statement_at;
use crate::rounds::{reaching, rising};
use crate::telling::quorum;
use crate::vouched::accepted;
use notary::Notary;
use record::Place;

/// A message whose form is told and whose records are each in range.
#[derive(Clone, Copy)]
pub(crate) struct Formed<'a> {
    pub(crate) f: u8,
    pub(crate) message: &'a [u8],
    pub(crate) form: Form,
    ghost readable: { Readable f message.now form },
}

/// The target of a ROUND: the place of its GRANTs, and 0 where it has none.
fn target(f: u8, message: &[u8], grants: usize) -> Place
    requires { quorum f + grants ≤ records message.now }
    ensures { result ≡ target message.now (quorum f) grants }
{
    if grants == 0 {
        0
    } else {
        statement_at(message, quorum(f)).place
    }
}

impl<'a> Formed<'a> {
    /// A group of the message: `n` records from index `first` on.
    #[tactic(auto, using(crate::proofs::HeldParts::small_group))]
    fn group(&self, first: usize, n: usize) -> Group<'a>
        requires { first + n ≤ records self.now.message.now }
        ensures bytes { result.part.bytes.now ≡ group self.now.message.now first n }
        ensures first { result.part.first ≡ first }
    {
        Group {
            part: Part::of(self.message, first, n),
        }
    }

    /// All records of the message.
    pub(crate) fn whole(&self) -> Group<'a>
        ensures bytes { result.part.bytes.now ≡ self.now.message.now }
        ensures first { result.part.first ≡ 0 }
    {
        Group {
            part: Part {
                bytes: self.message,
                first: 0,
            },
        }
    }

    /// MIXED, of each group of the form.
    pub(crate) fn agreed(&self) -> Result<(), CertificateFault>
        ensures { result ≡ agreed self.now.f self.now.message.now self.now.form }
    {
        let q = quorum(self.f);
        match self.form {
            Form::Write1 | Form::Read | Form::ShowGrant | Form::ShowCert => Ok(()),
            Form::Write2 => agreeing(&self.group(0, q), Agreement::OneClaim),
            Form::Resolve => agreeing(&self.group(0, q), Agreement::OnePlace),
            Form::Round { grants, .. } => {
                agreeing(&self.group(0, q), Agreement::OneRound)?;
                let round = statement_at(self.message, 0).round;
                agreeing(&self.group(q, grants), Agreement::OneClaimIn(round))
            }
        }
    }

    /// SAME, of a RESOLVE.
    pub(crate) fn clash(&self) -> Result<(), CertificateFault>
        ensures { result ≡ clashing self.now.f self.now.message.now self.now.form }
    {
        match self.form {
            Form::Resolve => clashing(&self.group(0, quorum(self.f))),
            Form::Write1
            | Form::Read
            | Form::Write2
            | Form::Round { .. }
            | Form::ShowGrant
            | Form::ShowCert => Ok(()),
        }
    }

    /// TWICE, of each group of the form.
    pub(crate) fn distinct(&self, board: &mut [u8; BOARD]) -> Result<(), CertificateFault>
        ensures { result ≡ distinct self.now.f self.now.message.now self.now.form }
    {
        let q = quorum(self.f);
        match self.form {
            Form::Write1 | Form::Read | Form::ShowGrant | Form::ShowCert => Ok(()),
            Form::Write2 | Form::Resolve => signed_once(&self.group(0, q), board),
            Form::Round { grants, .. } => {
                signed_once(&self.group(0, q), board)?;
                signed_once(&self.group(q, grants), board)
            }
        }
    }

    /// UNVOUCHED, of every record but a SHOW.
    pub(crate) fn vouched<N: Notary>(&self, notary: &N) -> Result<(), CertificateFault>
        ensures { result ≡ vouched (N.Notary.means notary.now) self.now.message.now self.now.form }
    {
        match self.form {
            Form::ShowGrant | Form::ShowCert => Ok(()),
            Form::Write1 | Form::Read | Form::Write2 | Form::Resolve | Form::Round { .. } => {
                accepted(notary, &self.whole())
            }
        }
    }

    /// LOW, of a ROUND.
    pub(crate) fn reached(&self) -> Result<(), CertificateFault>
        ensures { result ≡ reached self.now.f self.now.message.now self.now.form }
    {
        match self.form {
            Form::Write1
            | Form::Read
            | Form::Write2
            | Form::Resolve
            | Form::ShowGrant
            | Form::ShowCert => Ok(()),
            Form::Round { grants, .. } => {
                let target = target(self.f, self.message, grants);
                reaching(&self.group(0, quorum(self.f)), target)
            }
        }
    }

    /// ORDER, of a ROUND.
    pub(crate) fn ordered(&self) -> Result<(), CertificateFault>
        ensures { result ≡ ordered self.now.f self.now.message.now self.now.form }
    {
        match self.form {
            Form::Write1
            | Form::Read
            | Form::Write2
            | Form::Resolve
            | Form::ShowGrant
            | Form::ShowCert => Ok(()),
            Form::Round { grants, requests } => {
                rising(&self.group(quorum(self.f) + grants, requests))
            }
        }
    }
}
