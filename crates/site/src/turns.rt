//! What a site replies to the messages that leave its object alone, and what it is then.
ghost use Rattle.site.specs.Rules.{due_in, then_in, requested, resolve_in, grant_shown, cert_shown};
ghost use Rattle.message.specs.Saying.{sent};
ghost use Rattle.site.specs.Settling.{settled_at, or_out};
ghost use Rattle.std.specs.Prelude.{◌≡◌};

use crate::answers::{queued, stored};
use crate::entries::{get, put};
use crate::reply::{Reply, Then};
use crate::state::{Stage, State};
use crate::tables::claim_for;
use message::{Message, Request, SiteFault};
use record::{Claim, Place, Round, Statement};

impl State {
    /// The round whose certificates a site does: its own, or the one that it left, while it is PULLING.
    pub(crate) fn due(&self) -> Round
        ensures { result ≡ due_in self.now.stage self.now.round }
    {
        match self.stage {
            Stage::Pulling { left, .. } => left,
            _ => self.round,
        }
    }

    /// What a site becomes once it has done the write of a message: PULLING that reaches its target settles, and SETTLING
    /// that reaches its last place is open.
    #[tactic(auto, using(crate::proofs::Matching::settles, crate::proofs::Matching::opens))]
    pub(crate) fn then(&self, message: &Message<'_>) -> Then
        ensures { result ≡ then_in self.now.stage (sent message.now) }
    {
        match (&self.stage, message) {
            (Stage::Pulling { target, .. }, Message::Write2 { certificate })
                if certificate.place() == *target => Then::Settle,
            (Stage::Settling { last }, Message::Write2 { certificate })
                if u64::from(certificate.place()) == *last => Then::Opens,
            _ => Then::Stay,
        }
    }

    /// A request at an OPEN site. The index is that of the REQUEST in its message.
    pub(crate) fn request(
        &mut self,
        site: u8,
        request: &Request,
        index: usize,
    ) -> Result<Reply, SiteFault>
        ensures state { self.new ≡ (requested site self.old request.now index).state }
        ensures reply { result ≡ (requested site self.old request.now index).reply }
    {
        let last = get(&self.ledger.done, request.client);
        if let Some(again) = stored(site, &last, request.number, &request.operation, index)? {
            return Ok(Reply::Says(again));
        }
        let waits = get(&self.asked.waiting, request.client);
        queued(&self.asked.out, &waits, request, self.ledger.place, index)?;
        let claim = self
            .asked
            .out
            .unwrap_or_else(|| claim_for(request, self.round, self.ledger.place + 1));
        self.asked.out = Some(claim);
        put(&mut self.asked.waiting, request.client, Some(*request));
        Ok(Reply::Says(Statement::grant(site, &claim)))
    }

    /// GRANTs of one round and place for different claims, at an OPEN site: it freezes, or they are too old to freeze for.
    pub(crate) fn clash(
        &mut self,
        site: u8,
        index: usize,
        named: Round,
        place: Place,
        request: &Request,
    ) -> Result<Reply, SiteFault>
        ensures state { self.new ≡ (resolve_in site index self.old named place request.now Stage.Open).state }
        ensures reply { result ≡ (resolve_in site index self.old named place request.now Stage.Open).reply }
    {
        if named > self.round {
            return Err(SiteFault::Ahead);
        }
        if named < self.round || place <= self.ledger.place {
            return self.request(site, request, index);
        }
        self.stage = Stage::Frozen;
        Ok(Reply::Says(Statement::start(site, self.round, self.ledger.place)))
    }

    /// The site's grant at a place: of its settlement, or the one that is out.
    pub(crate) fn show_grant(&self, site: u8, place: Place) -> Result<Reply, SiteFault>
        ensures { result ≡ (grant_shown site self.now (or_out (settled_at self.now.settlement self.now.round place) self.now.asked.out place)).reply }
    {
        let claim = self.granted_at(place).ok_or(SiteFault::Nothing)?;
        Ok(Reply::Says(Statement::grant(site, &claim)))
    }

    /// The current certificate.
    pub(crate) fn show_cert(&self) -> Result<Reply, SiteFault>
        ensures { result ≡ (cert_shown self.now self.now.ledger.current).reply }
    {
        if self.ledger.current.is_none() {
            return Err(SiteFault::Nothing);
        }
        Ok(Reply::Shows)
    }

    fn granted_at(&self, place: Place) -> Option<Claim>
        ensures { result ≡ or_out (settled_at self.now.settlement self.now.round place) self.now.asked.out place }
    {
        self.settled_at(place)
            .or(self.asked.out.filter(|claim| claim.place == place))
    }

    fn settled_at(&self, place: Place) -> Option<Claim>
        ensures { result ≡ settled_at self.now.settlement self.now.round place }
    {
        self.settlement
            .as_ref()
            .and_then(|settlement| settlement.claim_at(self.round, place))
    }
}
