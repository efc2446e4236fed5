//! TAKE: the replies of the sites.
ghost use Rattle.message.specs.Checks.{fitted as buffers_fitted, after};
ghost use Rattle.office.specs.Calls.{board_after, fits_first, Leaves, take_call};
ghost use Rattle.office.specs.Taking.{lent, read_reply, vouched_reply, taken as taken_by, desk_or, done_or, in_certificate};
ghost use Rattle.std.specs.Prelude.{◌≡◌, length};

use crate::buffers::ready;
use crate::desk::Standing;
use crate::office::Office;
use crate::taking::read_reply;
use message::{CertificateFault, Refusal, SiteFault};
use notary::Notary;
use record::limits::RECORD;
use record::{Record, Statement};

// `same` is said of each call of an office: that notary and figures stay is what the call promises, and no fact about an office.
impl<N: Notary> Office<N> {
    /// SHORT, LENGTH, KIND and FIELD, then MIXED and UNVOUCHED: the bytes of a reply that passes.
    fn vouched<'a>(
        &self,
        message: &'a [u8],
        room: usize,
        board: &mut [u8],
    ) -> Result<&'a [u8; RECORD], CertificateFault>
        ensures value { lent result ≡ after (in_certificate (buffers_fitted room (length board.old))) (vouched_reply self.now.figures.client (N.means self.now.notary) self.now.desk (read_reply self.now.figures.f message.now)) }
        ensures board { board.new ≡ board_after room board.old }
    {
        ready(room, board)?;
        let bytes = read_reply(self.figures.f, message)?;
        if let Standing::Unlike = self
            .desk
            .standing(self.figures.client, &Statement::read(bytes))
        {
            return Err(CertificateFault::Mixed(0));
        }
        if !self.notary.vouches(bytes) {
            return Err(CertificateFault::Unvouched(0));
        }
        Ok(bytes)
    }

    /// TAKE: takes in a reply of a site. It writes nothing.
    pub fn take(
        &mut self,
        message: &[u8],
        output: &[u8],
        board: &mut [u8],
    ) -> Result<usize, Refusal>
        ensures leaves { Leaves (take_call self.old.figures.f self.old.figures.client (N.means self.old.notary) self.old.desk message.now output.now board.old) self.new.desk output.now board.new result }
        ensures stays { self.new.desk.write ≡ self.old.desk.write }
        ensures same { (self.new.notary ≡ self.old.notary) × (self.new.figures ≡ self.old.figures) }
    {
        let bytes = self.vouched(message, output.len(), board)?;
        self.desk.accept(self.figures.client, &Record::read(bytes))?;
        Ok(0)
    }
}
