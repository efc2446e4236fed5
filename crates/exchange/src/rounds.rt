//! Settling a clash: the sites stop, the ordering service makes the round, and its settlement is done.
use crate::network::Replies;
use crate::rehearsal::Rehearsal;
use crate::replies::Reply;
use record::limits::RECORD;
use record::{Kind, Place, Statement};
use scenario::calls::{Lengths, call};
use site::state::Stage;
use std::alloc::{AllocError, Global};
use text::line::Line;
use text::trouble::Trouble;

/// The most places of a settlement: the mark, and a request of each client.
const SETTLED: u32 = 17;

/// The records of one kind among replies, as far as a quorum of them. An option in a result here and below, since too few replies
/// are no error, and memory that is lacking is one.
fn quorum_of(
    heap: Global,
    replies: &[[u8; RECORD]],
    kind: Kind,
    q: usize,
) -> Result<Option<Vec<u8>>, AllocError> {
    let mut message = Vec::new(heap);
    let alike = replies.iter().filter(|raw| Statement::read(*raw).is(kind));
    for raw in alike.take(q) {
        message.extend_from_slice(raw)?;
    }
    let whole = message.len() / RECORD == q;
    Ok(if whole { Some(message) } else { None })
}

/// The GRANTs among replies that make the claim of the first, as far as a quorum of them.
fn certificate_of(
    heap: Global,
    replies: &[[u8; RECORD]],
    q: usize,
) -> Result<Option<Vec<u8>>, AllocError> {
    let Some(first) = replies.first() else {
        return Ok(None);
    };
    let claim = Statement::read(first).claim();
    let same: Replies = replies
        .iter()
        .copied()
        .filter(|raw| Statement::read(raw).claim() == claim)
        .collect(heap)?;
    quorum_of(heap, &same, Kind::Grant, q)
}

/// The highest place that a message's records name.
fn highest_place(message: &[u8]) -> Place {
    message
        .chunks(RECORD)
        .filter_map(|part| <[u8; RECORD]>::try_from(part).ok())
        .map(|raw| Statement::read(&raw).place)
        .max()
        .unwrap_or(0)
}

impl Rehearsal {
    /// Whether a site stands at a place.
    fn stands(&self, site: u8, place: Place) -> bool {
        match self.scenario.site_state(site) {
            Some(state) => state.ledger.place == place,
            None => false,
        }
    }

    /// The certificate of a site that stands at a place; no bytes where none does.
    fn certificate_at(&mut self, heap: Global, place: Place) -> Result<Vec<u8>, Trouble> {
        let Some(site) = (0..self.count()).find(|site| self.stands(*site, place)) else {
            return Ok(Vec::new(heap));
        };
        let shown = Statement::show_cert().unsealed();
        let outcome = call(
            heap,
            self.scenario.pool_mut()?,
            site,
            &shown,
            Lengths::USUAL,
        )?;
        Ok(Vec::from_slice(heap, outcome.written())?)
    }

    /// The sealed REQUEST of an office's open write, if it has one.
    pub(crate) fn open_request(&self, client: u8) -> Option<[u8; RECORD]> {
        let write = self.seats.office(client).ok()?.desk().write?;
        let asks = Statement::request(client, write.number, &write.operation);
        Some(self.scenario.notary.seal(&asks.unsealed()))
    }

    /// Whether a site is PULLING.
    fn pulls(&self, site: u8) -> bool {
        match self.scenario.site_state(site) {
            Some(state) => matches!(&state.stage, Stage::Pulling { .. }),
            None => false,
        }
    }

    /// The ordering service: makes the ROUND of a quorum of STARTs, and hands it out. Gives its target.
    fn order(&mut self, starts: Vec<u8>, line: &mut Line<'_>) -> Result<Place, Trouble> {
        let mut message = starts;
        let target = highest_place(message.as_slice());
        if target > 0 {
            let certificate = self.certificate_at(line.heap, target)?;
            message.extend_from_slice(certificate.as_slice())?;
        }
        for raw in (0..16u8).filter_map(|client| self.open_request(client)) {
            message.extend_from_slice(&raw)?;
        }
        writeln!(
            line.answer,
            "  the ordering service sends ROUND with the target {target}"
        )?;
        let _ = self.broadcast(message.as_slice(), line)?;
        for site in self.reached(line.heap)? {
            if self.pulls(site) {
                self.resend_to(site, line)?;
            }
        }
        Ok(target)
    }

    /// The GRANTs that the sites show of a place; what they show is not printed.
    fn shown(&mut self, heap: Global, place: Place) -> Result<Replies, Trouble> {
        let asks = Statement::show_grant(place).unsealed();
        let mut replies = Vec::new(heap);
        for site in self.reached(heap)? {
            if let Reply::Says(raw) = self.send(heap, site, &asks)? {
                replies.push(raw)?;
            }
        }
        Ok(replies)
    }

    /// Does the settlement above a target, place by place, as far as a quorum shows it.
    fn settle(&mut self, target: Place, line: &mut Line<'_>) -> Result<(), Trouble> {
        for above in 1..=SETTLED {
            let place = target.saturating_add(above);
            let shown = self.shown(line.heap, place)?;
            let Some(certificate) = certificate_of(line.heap, &shown, self.quorum())? else {
                break;
            };
            writeln!(line.answer, "  the settlement's place {place} is written")?;
            let _ = self.broadcast(certificate.as_slice(), line)?;
        }
        Ok(())
    }

    /// Hands a clash to the sites, and settles it where a quorum of them stops.
    pub(crate) fn resolve(&mut self, clash: &[u8], line: &mut Line<'_>) -> Result<(), Trouble> {
        let starts = self.broadcast(clash, line)?;
        if let Some(starts) = quorum_of(line.heap, &starts, Kind::Start, self.quorum())? {
            let target = self.order(starts, line)?;
            self.settle(target, line)?;
        }
        Ok(())
    }
}
