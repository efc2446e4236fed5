//! An office under test, with the ticket of its open write.
ghost use Rattle.office_vectors.specs.Pairs.{holds, number_of, same_write};
ghost use Rattle.std.specs.Prelude.{◌≡◌, true};

use message::Refusal;
use office::fitting::fitted;
use office::{Begun, Office, Ticket, Unspent};
use record::Operation;
use tables::trusting::Trusting;

/// An office with a notary that trusts.
pub type Tested = Office<Trusting>;

/// An office, and the ticket of its write while one is open. The ticket is given up with the seat, so that a test may fail anywhere.
/// Programs have a seat too, which stands on a whole pool: the tests of an office stand on the office alone.
pub struct Seat {
    pub office: Tested,
    client: u8,
    ticket: Option<Ticket>,
    ghost known: { client ≡ office.figures.client },
    ghost paired: { holds office.figures.client office.desk.write ticket ≡ true },
}

/// Stands for what CLOSE and GIVE UP say where no ticket is out: no refusal of an office.
pub const NO_TICKET: Refusal = Refusal {
    number: 0,
    index: 0,
    layer: 0,
};

impl Seat {
    /// An office that goes on after the number of its last write.
    pub fn new(f: u8, client: u8, last: u32) -> Seat {
        Seat {
            office: Office::resume(f, client, Trusting {}, last),
            client: fitted(f, client).client,
            ticket: None,
        }
    }

    /// The number of the open write; 0 for none.
    fn number(&self) -> u32
        ensures { result ≡ number_of self.now.office.desk.write }
    {
        match &self.office.desk().write {
            Some(write) => write.number,
            None => 0,
        }
    }

    /// Whether the other seat has the same client, and a write of the same number: the only two things that tell tickets apart.
    fn is_like(&self, other: &Seat) -> bool
        ensures { result ≡ same_write self.now.office.figures.client other.now.office.figures.client self.now.office.desk.write other.now.office.desk.write }
    {
        self.client == other.client && self.number() == other.number()
    }

    /// BEGIN: the ticket is kept.
    pub fn begin(
        &mut self,
        operation: &Operation,
        output: &mut [u8],
        board: &mut [u8],
    ) -> Result<usize, Refusal> {
        let Begun { ticket, count } = self.office.begin(operation, output, board)?;
        if let Some(_before) = self.ticket.replace(ticket) {}
        Ok(count)
    }

    /// QUERY.
    pub fn query(
        &mut self,
        operation: &Operation,
        nonce: u64,
        output: &mut [u8],
        board: &mut [u8],
    ) -> Result<usize, Refusal> {
        self.office.query(operation, nonce, output, board)
    }

    /// TAKE.
    pub fn take(
        &mut self,
        message: &[u8],
        output: &[u8],
        board: &mut [u8],
    ) -> Result<usize, Refusal> {
        self.office.take(message, output, board)
    }

    /// CLOSE, with the ticket that is kept. Where it is refused, the ticket is kept again.
    pub fn close(&mut self) -> Result<u64, Refusal> {
        let Some(ticket) = self.ticket.take() else {
            return Err(NO_TICKET);
        };
        match self.office.close(ticket) {
            Ok(answer) => Ok(answer),
            Err(Unspent { ticket, refusal }) => {
                self.ticket = Some(ticket);
                Err(refusal)
            }
        }
    }

    /// GIVE UP, with the ticket that is kept.
    pub fn give_up(&mut self) -> Result<(), Refusal> {
        let Some(ticket) = self.ticket.take() else {
            return Err(NO_TICKET);
        };
        match self.office.give_up(ticket) {
            Ok(()) => Ok(()),
            Err(Unspent { ticket, refusal }) => {
                self.ticket = Some(ticket);
                Err(refusal)
            }
        }
    }

    /// CLOSE at another office, with the ticket that is kept. Where it is refused, the ticket is kept again.
    pub fn close_at(&mut self, other: &mut Tested) -> Result<u64, Refusal> {
        let Some(ticket) = self.ticket.take() else {
            return Err(NO_TICKET);
        };
        match other.close(ticket) {
            Ok(answer) => Ok(answer),
            Err(Unspent { ticket, refusal }) => {
                self.ticket = Some(ticket);
                Err(refusal)
            }
        }
    }

    /// GIVE UP at another office, likewise.
    pub fn give_up_at(&mut self, other: &mut Tested) -> Result<(), Refusal> {
        let Some(ticket) = self.ticket.take() else {
            return Err(NO_TICKET);
        };
        match other.give_up(ticket) {
            Ok(()) => Ok(()),
            Err(Unspent { ticket, refusal }) => {
                self.ticket = Some(ticket);
                Err(refusal)
            }
        }
    }

    /// CLOSE with the ticket that is kept, at the office of a seat whose client or write is another.
    pub fn close_beside(&mut self, other: &mut Seat) -> Result<u64, Refusal> {
        if self.is_like(other) {
            return Err(NO_TICKET);
        }
        let Some(ticket) = self.ticket.take() else {
            return Err(NO_TICKET);
        };
        match other.office.close(ticket) {
            Ok(answer) => Ok(answer),
            Err(Unspent { ticket, refusal }) => {
                self.ticket = Some(ticket);
                Err(refusal)
            }
        }
    }

    /// GIVE UP, likewise.
    pub fn give_up_beside(&mut self, other: &mut Seat) -> Result<(), Refusal> {
        if self.is_like(other) {
            return Err(NO_TICKET);
        }
        let Some(ticket) = self.ticket.take() else {
            return Err(NO_TICKET);
        };
        match other.office.give_up(ticket) {
            Ok(()) => Ok(()),
            Err(Unspent { ticket, refusal }) => {
                self.ticket = Some(ticket);
                Err(refusal)
            }
        }
    }
}

impl Drop for Seat {
    fn drop(self) {
        let Seat {
            mut office,
            client: _,
            ticket,
        } = self;
        if let Some(ticket) = ticket {
            match office.give_up(ticket) {
                Ok(()) => {}
                Err(
                    Unspent {
                        ticket: _back,
                        refusal: _,
                    },
                ) => {}
            }
        }
    }
}
