//! CLOSE and GIVE UP: what a ticket is spent by.
ghost use Rattle.office.specs.Calls.{close_call, give_up_call, ComesBack};
ghost use Rattle.office.specs.Sending.{WriteConfirmed};
ghost use Rattle.office.specs.Tickets.{GoodTicket};
ghost use Rattle.std.specs.Prelude.{◌≡◌, IfOk, Ok};

use crate::office::Office;
use crate::ticket::{Ticket, Unspent};
use notary::Notary;

// `same` is said of each call of an office: that notary and figures stay is what the call promises, and no fact about an office.
impl<N: Notary> Office<N> {
    /// CLOSE: the answer to the write, which ends, once the verdict is DONE; else the ticket comes back.
    /// The answer is that of a quorum.
    pub fn close(&mut self, ticket: Ticket) -> Result<u64, Unspent>
        ensures desk { self.new.desk ≡ (close_call self.old.figures.f self.old.figures.client self.old.desk ticket).desk }
        ensures result { result ≡ (close_call self.old.figures.f self.old.figures.client self.old.desk ticket).result }
        ensures confirmed { IfOk result (λ a. WriteConfirmed self.old.figures.f self.old.figures.client (N.means self.old.notary) self.old.desk.write a) }
        ensures back { ComesBack ticket self.old.desk self.new.desk result }
        ensures same { (self.new.notary ≡ self.old.notary) × (self.new.figures ≡ self.old.figures) }
    {
        match self
            .desk
            .answer(self.figures.f, self.figures.client, &ticket)
        {
            Ok(answer) => {
                ticket.spend();
                self.desk.end();
                Ok(answer)
            }
            Err(fault) => Err(Unspent {
                ticket,
                refusal: fault.into(),
            }),
        }
    }

    /// GIVE UP: ends the write without an answer. A ticket that is not the write's comes back.
    pub fn give_up(&mut self, ticket: Ticket) -> Result<(), Unspent>
        ensures desk { self.new.desk ≡ (give_up_call self.old.figures.client self.old.desk ticket).desk }
        ensures result { result ≡ (give_up_call self.old.figures.client self.old.desk ticket).result }
        ensures back { ComesBack ticket self.old.desk self.new.desk result }
        ensures taken { GoodTicket self.old.figures.client self.old.desk.write ticket → result ≡ Ok tt }
        ensures same { (self.new.notary ≡ self.old.notary) × (self.new.figures ≡ self.old.figures) }
    {
        match self.desk.owns(self.figures.client, &ticket) {
            Ok(()) => {
                ticket.spend();
                self.desk.end();
                Ok(())
            }
            Err(fault) => Err(Unspent {
                ticket,
                refusal: fault.into(),
            }),
        }
    }
}
