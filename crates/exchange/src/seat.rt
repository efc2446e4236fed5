//! An office with the ticket of its open write.
ghost use Rattle.exchange.specs.Pairs.{holds, none_out, Begins, Closes, GivesUp};
ghost use Rattle.notary.specs.Keys.{sealed_under};
ghost use Rattle.office.specs.Calls.{clear_desk, Leaves, begin_call, query_call, take_call};
ghost use Rattle.std.specs.Prelude.{◌≡◌, true};

use message::{Refusal, SiteFault};
use notary::KeyedNotary;
use office::{Begun, Office, Ticket, Unspent};
use record::Operation;

/// An office, and the ticket of its write while one is open.
pub struct Seat {
    office: Office<KeyedNotary>,
    ticket: Option<Ticket>,
    ghost paired: { holds office.figures.client office.desk.write ticket ≡ true },
}

impl Seat {
    /// An office that goes on after the number of its last write.
    pub fn new(f: u8, client: u8, notary: &KeyedNotary, last: u32) -> Seat
        ensures { (result.ticket ≡ none_out) × (result.office.desk ≡ clear_desk last) }
    {
        Seat {
            office: Office::resume(f, client, *notary, last),
            ticket: None,
        }
    }

    /// The office.
    pub fn office(&self) -> &Office<KeyedNotary>
        ensures { result.now ≡ self.now.office }
    {
        &self.office
    }

    /// BEGIN: the ticket is kept.
    #[tactic(auto, using(crate::proofs::Pairing::begin_refused, crate::proofs::Pairing::begun_alone, crate::proofs::Pairing::still_paired, crate::proofs::Pairing::begins_refused))]
    pub fn begin(
        &mut self,
        operation: &Operation,
        output: &mut [u8],
        board: &mut [u8],
    ) -> Result<usize, Refusal>
        ensures { Begins (begin_call self.old.office.figures.client self.old.office.desk operation.now output.old board.old) self.old.ticket self.new.office.desk self.new.ticket output.new board.new result }
    {
        let Begun { ticket, count } = self.office.begin(operation, output, board)?;
        if let Some(_before) = self.ticket.replace(ticket) {}
        Ok(count)
    }

    /// QUERY.
    #[tactic(auto, using(crate::proofs::Pairing::query_leaves, crate::proofs::Pairing::still_paired))]
    pub fn query(
        &mut self,
        operation: &Operation,
        nonce: u64,
        output: &mut [u8],
        board: &mut [u8],
    ) -> Result<usize, Refusal>
        ensures { Leaves (query_call self.old.office.figures.client self.old.office.desk operation.now nonce output.old board.old) self.new.office.desk output.new board.new result }
    {
        self.office.query(operation, nonce, output, board)
    }

    /// TAKE.
    #[tactic(auto, using(crate::proofs::Pairing::take_leaves, crate::proofs::Pairing::still_paired))]
    pub fn take(
        &mut self,
        message: &[u8],
        output: &[u8],
        board: &mut [u8],
    ) -> Result<usize, Refusal>
        ensures { Leaves (take_call self.old.office.figures.f self.old.office.figures.client (sealed_under self.old.office.notary.sites self.old.office.notary.clients) self.old.office.desk message.now output.now board.old) self.new.office.desk output.now board.new result }
    {
        self.office.take(message, output, board)
    }

    /// CLOSE, with the ticket that is kept; NONE where no ticket is out. Where it is refused, the ticket is kept again.
    #[tactic(auto, using(crate::proofs::Pairing::held_again))]
    pub fn close(&mut self) -> Result<u64, Refusal>
        ensures { Closes self.old.office.figures.f self.old.office.figures.client self.old.office.desk self.old.ticket self.new.office.desk self.new.ticket result }
    {
        let Some(ticket) = self.ticket.take() else {
            return Err(SiteFault::Nothing.into());
        };
        match self.office.close(ticket) {
            Ok(answer) => Ok(answer),
            Err(Unspent { ticket, refusal }) => {
                self.ticket = Some(ticket);
                Err(refusal)
            }
        }
    }

    /// GIVE UP, with the ticket that is kept; NONE where no ticket is out.
    pub fn give_up(&mut self) -> Result<(), Refusal>
        ensures { GivesUp self.old.office.desk self.old.ticket self.new.office.desk self.new.ticket result }
    {
        let Some(ticket) = self.ticket.take() else {
            return Err(SiteFault::Nothing.into());
        };
        match self.office.give_up(ticket) {
            Ok(()) => Ok(()),
            Err(Unspent { ticket, refusal }) => {
                self.ticket = Some(ticket);
                Err(refusal)
            }
        }
    }
}

impl Drop for Seat {
    fn drop(self) {
        let Seat { mut office, ticket } = self;
        if let Some(ticket) = ticket {
            match office.give_up(ticket) {
                Ok(()) => {}
                Err(
                    Unspent {
                        ticket: _back,
                        refusal: _,
                    },
                ) => {}
            }
        }
    }
}
