//! Opening and ending a write, and asking a question, at the desk.
ghost use Rattle.office.specs.Calls.{without_write, with_question, clear_desk, number_begun, if_begun, closing, giving_up};
ghost use Rattle.message.specs.Forms.{quorum as quorum_of};
ghost use Rattle.office.specs.Laws.{Answered};
ghost use Rattle.record.specs.declared.kind.Kind.TheVariants.{Answer as an_answer};
ghost use Rattle.std.specs.Prelude.{◌≡◌, IfOk};

use crate::asking::{Question, Write};
use crate::desk::{CLEAR, Desk};
use crate::judging::Hearing;
use crate::slots::EMPTY;
use crate::ticket::Ticket;
use crate::verdict::Verdict;
use message::{SiteFault, quorum};
use record::Operation;

impl Desk {
    /// A desk with nothing on it, after a last number.
    pub(crate) fn after(last: u32) -> Desk
        ensures { result ≡ clear_desk last }
    {
        Desk { last, ..CLEAR }
    }

    /// Opens a write under the next number, which it gives.
    pub(crate) fn open(&mut self, operation: &Operation) -> Result<u32, SiteFault>
        ensures number { result ≡ number_begun self.old self.old.write }
        ensures desk { self.new ≡ if_begun self.old operation.now result }
    {
        if self.write.is_some() {
            return Err(SiteFault::Busy(0));
        }
        let Some(number) = self.last.checked_add(1) else {
            return Err(SiteFault::UsedUp(0));
        };
        self.last = number;
        self.write = Some(Write {
            number,
            operation: *operation,
        });
        Ok(number)
    }

    /// Asks a question in the place of the one before.
    pub(crate) fn ask(&mut self, operation: &Operation, nonce: u64)
        ensures { self.new ≡ with_question self.old operation.now nonce }
    {
        self.question = Some(Question {
            operation: *operation,
            nonce,
        });
        self.readings = EMPTY;
    }

    /// Ends the write and empties its slots.
    pub(crate) fn end(&mut self)
        ensures { self.new ≡ without_write self.old }
    {
        self.write = None;
        self.replies = EMPTY;
    }

    /// The answer to the open write, whose ticket this has to be.
    pub(crate) fn answer(&self, f: u8, client: u8, ticket: &Ticket) -> Result<u64, SiteFault>
        ensures value { result ≡ closing f client self.now ticket.now }
        ensures right { IfOk result (λ a. Answered an_answer (quorum_of f) self.now.replies.at a) }
    {
        if !ticket.is_for(client, &self.write) {
            return Err(SiteFault::Nothing);
        }
        let hearing = Hearing {
            q: quorum(f),
            slots: self.replies.view(),
        };
        match hearing.judge(client, &self.write).verdict {
            Verdict::Done { answer } => Ok(answer),
            _ => Err(SiteFault::Wait),
        }
    }

    /// Whether this is the ticket of the open write.
    pub(crate) fn owns(&self, client: u8, ticket: &Ticket) -> Result<(), SiteFault>
        ensures { result ≡ giving_up client self.now ticket.now }
    {
        if ticket.is_for(client, &self.write) {
            Ok(())
        } else {
            Err(SiteFault::Nothing)
        }
    }
}
