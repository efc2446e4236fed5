//! A whole reading, and bringing late sites up by what the others were handed.
use crate::buffers::Buffers;
use crate::rehearsal::Rehearsal;
use crate::turn::Turn;
use office::Verdict;
use pool::Entry;
use record::limits::RECORD;
use record::{Kind, Operation, Statement};
use std::alloc::Global;
use text::line::Line;
use text::meaning::LookAnswer;
use text::trouble::Trouble;

/// How often an office asks again before it leaves the question.
const TURNS: u8 = 3;

/// Whether a call handed its site a certificate or a ROUND, and the site accepted it.
fn moves(entry: &Entry, q: usize) -> bool {
    let message = entry.message.as_slice();
    entry.result.is_ok()
        && match message.first().map(|kind| Kind::try_from(*kind)) {
            Some(Ok(Kind::Start)) => true,
            Some(Ok(Kind::Grant)) => message.len() / RECORD == q,
            _ => false,
        }
}

impl Rehearsal {
    /// One turn of a reading: asks with a new nonce, and judges.
    fn read_turn(
        &mut self,
        client: u8,
        operation: &Operation,
        line: &mut Line<'_>,
    ) -> Result<Turn, Trouble> {
        self.nonce = self.nonce.wrapping_add(1);
        let mut buffers = Buffers::new();
        let _ = self.seats.seat(client)?.query(
            operation,
            self.nonce,
            &mut buffers.output,
            &mut buffers.board,
        );
        let asks = Statement::question(client, operation, self.nonce);
        let question = self.scenario.notary.seal(&asks.unsealed());
        let replies = self.broadcast(&question, line)?;
        self.take_all(client, &replies)?;
        let office = self.seats.office(client)?;
        let Ok(found) = office.judge_reading(&buffers.output, &mut buffers.board) else {
            return Err(Trouble::NoOffice);
        };
        writeln!(line.answer, "  verdict {}", found.verdict)?;
        match found.verdict {
            Verdict::Done { answer } => {
                let kept = self.scenario.pool()?.kept();
                let means = LookAnswer { kept, answer };
                writeln!(line.answer, "  answer {answer}, {means}")?;
                Ok(Turn::Last)
            }
            Verdict::Catch { .. } => {
                self.resend_to_all(line)?;
                Ok(Turn::More)
            }
            _ => Ok(Turn::Last),
        }
    }

    /// Reads through an office, until a quorum agrees or too few sites are reached.
    pub(crate) fn read_through(
        &mut self,
        client: u8,
        operation: &Operation,
        line: &mut Line<'_>,
    ) -> Result<(), Trouble> {
        for _ in 0..TURNS {
            if self.read_turn(client, operation, line)? == Turn::Last {
                break;
            }
        }
        Ok(())
    }

    /// The messages of the certificates and ROUNDs that some site accepted, the oldest first.
    fn moved(&self, heap: Global) -> Result<Vec<Vec<u8>>, Trouble> {
        let q = self.quorum();
        let mut messages = Vec::new(heap);
        for entry in self.scenario.pool()?.transcript() {
            if moves(entry, q) {
                messages.push(entry.message.clone()?)?;
            }
        }
        Ok(messages)
    }

    /// Hands a site every certificate and ROUND that some site accepted, the oldest first.
    pub(crate) fn resend_to(&mut self, site: u8, line: &mut Line<'_>) -> Result<(), Trouble> {
        for message in self.moved(line.heap)? {
            let _ = self.send(line.heap, site, message.as_slice())?;
        }
        let place = match self.scenario.pool()?.state(site) {
            Some(state) => state.ledger.place,
            None => 0,
        };
        writeln!(line.answer, "  site {site} is brought up to place {place}")?;
        Ok(())
    }

    /// Brings every site that can be reached up.
    pub(crate) fn resend_to_all(&mut self, line: &mut Line<'_>) -> Result<(), Trouble> {
        for site in self.reached(line.heap)? {
            self.resend_to(site, line)?;
        }
        Ok(())
    }
}
