//! The ticket of an open write.
ghost use Rattle.office.specs.Tickets.{ticket_for, is_ticket_of};
ghost use Rattle.std.specs.Prelude.{◌≡◌};

use crate::asking::Write;
use message::Refusal;

/// What BEGIN gives for a write: the client, and its number for the write. It cannot be copied, and it is let go only by CLOSE and
/// GIVE UP; no other code makes one or takes one apart.
pub struct Ticket {
    client: u8,
    number: u32,
}

impl Ticket {
    /// A ticket for a write.
    pub(crate) fn new(client: u8, number: u32) -> Ticket
        ensures { result ≡ ticket_for client number }
    {
        Ticket { client, number }
    }

    /// Whether it is the ticket of a client's open write.
    pub(crate) fn is_for(&self, client: u8, write: &Option<Write>) -> bool
        ensures { result ≡ is_ticket_of client write.now self.now }
    {
        write.is_some_and(|write| self.client == client && self.number == write.number)
    }

    /// Ends a ticket.
    pub(crate) fn spend(mut self) {
        self.number = 0;
    }
}

// A write's number is at least 1. A ticket that is spent has number 0, and only such a one is let go.
impl Drop for Ticket {
    fn drop(self)
        requires { self.number ≡ 0 }
    {
        let Ticket {
            client: _,
            number: _,
        } = self;
    }
}

/// What BEGIN returns: the ticket, and how many bytes it wrote into the caller's output.
pub struct Begun {
    pub ticket: Ticket,
    pub count: usize,
}

/// What CLOSE and GIVE UP return where they refuse: the ticket, back, and the refusal.
pub struct Unspent {
    pub ticket: Ticket,
    pub refusal: Refusal,
}
