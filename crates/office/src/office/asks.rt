//! BEGIN and QUERY: what an office asks the pool.
ghost use Rattle.std.specs.Prelude.{◌≡◌, ◌≤◌, length, IfOk, OnOk};
ghost use Rattle.office.specs.Calls.{board_after, fits_first, number_begun, if_begun, Leaves, begin_call, query_call};
ghost use Rattle.office.specs.Tickets.{GoodTicket};

use crate::buffers::ready;
use crate::office::Office;
use crate::ticket::{Begun, Ticket};
use crate::writing::put;
use message::{Refusal, SiteFault};
use notary::Notary;
use record::limits::RECORD;
use record::{Operation, Statement};

// `same` is said of each call of an office: that notary and figures stay is what the call promises, and no fact about an office.
impl<N: Notary> Office<N> {
    /// BEGIN: writes the REQUEST for a write under the next number, its seal still to be filled in, and gives the ticket.
    pub fn begin(
        &mut self,
        operation: &Operation,
        output: &mut [u8],
        board: &mut [u8],
    ) -> Result<Begun, Refusal>
        ensures leaves { Leaves (begin_call self.old.figures.client self.old.desk operation.now output.old board.old) self.new.desk output.new board.new result }
        ensures good { IfOk result (λ b. GoodTicket self.old.figures.client self.new.desk.write b.ticket) }
        ensures same { (self.new.notary ≡ self.old.notary) × (self.new.figures ≡ self.old.figures) }
    {
        let client = self.figures.client;
        ready(output.len(), board)?;
        let number = self.desk.open(operation)?;
        put(
            output,
            0,
            &Statement::request(client, number, operation).unsealed(),
        );
        Ok(Begun {
            ticket: Ticket::new(client, number),
            count: RECORD,
        })
    }

    /// QUERY: writes a QUESTION, its seal still to be filled in, and forgets the question before with its replies.
    pub fn query(
        &mut self,
        operation: &Operation,
        nonce: u64,
        output: &mut [u8],
        board: &mut [u8],
    ) -> Result<usize, Refusal>
        ensures leaves { Leaves (query_call self.old.figures.client self.old.desk operation.now nonce output.old board.old) self.new.desk output.new board.new result }
        ensures stays { self.new.desk.write ≡ self.old.desk.write }
        ensures same { (self.new.notary ≡ self.old.notary) × (self.new.figures ≡ self.old.figures) }
    {
        ready(output.len(), board)?;
        self.desk.ask(operation, nonce);
        put(
            output,
            0,
            &Statement::question(self.figures.client, operation, nonce).unsealed(),
        );
        Ok(RECORD)
    }
}
