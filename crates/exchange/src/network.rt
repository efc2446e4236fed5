//! Sending to sites: those that are down do not hear, and those that lie grant whatever they are asked.
use crate::buffers::Buffers;
use crate::conduct::Conduct;
use crate::rehearsal::Rehearsal;
use crate::replies::Reply;
use record::limits::RECORD;
use record::{Claim, Kind, Statement};
use scenario::calls::{Lengths, call};
use std::alloc::{AllocError, Global};
use text::line::Line;
use text::trouble::Trouble;

/// The records that sites replied.
pub(crate) type Replies = Vec<[u8; RECORD]>;

impl Rehearsal {
    /// How many sites the pool has; none, where there is no pool.
    pub(crate) fn count(&self) -> u8 {
        match &self.scenario.pool {
            Some(pool) => 3 * pool.faulty() + 1,
            None => 0,
        }
    }

    /// How many records make a quorum.
    pub(crate) fn quorum(&self) -> usize {
        match &self.scenario.pool {
            Some(pool) => message::quorum(pool.faulty()),
            None => 0,
        }
    }

    /// What a site does.
    fn conduct(&self, site: u8) -> Conduct {
        match self.sites.get(usize::from(site)) {
            Some(conduct) => *conduct,
            None => Conduct::SOUND,
        }
    }

    /// The sites that can be reached.
    pub(crate) fn reached(&self, heap: Global) -> Result<Vec<u8>, AllocError> {
        (0..self.count())
            .filter(|site| self.conduct(*site).is_up)
            .collect(heap)
    }

    /// What a lying site says to a REQUEST: it grants the next place, whatever it granted before.
    fn lie(&self, site: u8, message: &[u8]) -> Option<Reply> {
        let state = self.scenario.pool.as_ref()?.state(site)?;
        let raw = <[u8; RECORD]>::try_from(message).ok()?;
        let asked = Statement::read(&raw);
        if self.conduct(site).is_honest || !asked.is(Kind::Request) {
            return None;
        }
        let claim = Claim {
            round: state.round,
            place: state.ledger.place.saturating_add(1),
            ..asked.claim()
        };
        let grant = Statement::grant(site, &claim).unsealed();
        Some(Reply::Says(self.scenario.notary.seal(&grant)))
    }

    /// Hands a message to a site, and seals what it replies.
    pub(crate) fn send(
        &mut self,
        heap: Global,
        site: u8,
        message: &[u8],
    ) -> Result<Reply, Trouble> {
        if let Some(reply) = self.lie(site, message) {
            return Ok(reply);
        }
        let outcome = call(
            heap,
            self.scenario.pool_mut()?,
            site,
            message,
            Lengths::USUAL,
        )?;
        if let Err(refusal) = outcome.result {
            return Ok(Reply::Refused(refusal));
        }
        match <[u8; RECORD]>::try_from(outcome.written()) {
            Ok(raw) => Ok(Reply::Says(self.scenario.notary.seal(&raw))),
            Err(_) => Ok(Reply::Silent),
        }
    }

    /// Hands a message to every site that can be reached, with a line for each reply, and gives the records that they
    /// reply.
    pub(crate) fn broadcast(
        &mut self,
        message: &[u8],
        line: &mut Line<'_>,
    ) -> Result<Replies, Trouble> {
        let mut replies = Vec::new(line.heap);
        for site in self.reached(line.heap)? {
            let reply = self.send(line.heap, site, message)?;
            writeln!(line.answer, "  site {site}: {reply}")?;
            if let Reply::Says(raw) = reply {
                replies.push(raw)?;
            }
        }
        Ok(replies)
    }

    /// Shows each of these records to an office; what it refuses is passed over.
    pub(crate) fn take_all(&mut self, client: u8, replies: &[[u8; RECORD]]) -> Result<(), Trouble> {
        let seat = self.seats.seat(client)?;
        for raw in replies {
            let mut buffers = Buffers::new();
            let _ = seat.take(raw, &buffers.output, &mut buffers.board);
        }
        Ok(())
    }
}
