//! What a site keeps and steps: its state, and the object that it has a copy of.
ghost use Rattle.message.specs.Checks.{checks};
ghost use Rattle.message.specs.Records.{stated};
ghost use Rattle.message.specs.Saying.{sent, requests_in};
ghost use Rattle.record.specs.Claims.{claim_of};
ghost use Rattle.site.specs.Answers.{taken as taken_at};
ghost use Rattle.site.specs.Call.{accepted, board_after, call as call_of, Leaves};
ghost use Rattle.site.specs.Ledgers.{calls, answer_to, performed, restored};
ghost use Rattle.site.specs.Rules.{step as step_of, Does, written, struck, strikes_object, if_taken, looked};
ghost use Rattle.std.specs.Prelude.{◌≡◌, ◌+◌, ◌<◌, ◌≤◌, length, OnOk};

use crate::answers::{placed, stored, taken};
use crate::entries::get;
use crate::figures::Figures;
use crate::ledger::Performed;
use crate::reply::{Reply, Then};
use crate::replying::write_reply;
use crate::state::{Ledger, Stage, State};
use crate::tables::table_of;
use message::{Message, Part, Refusal, SiteFault, check, quorum};
use notary::Notary;
use object::Object;
use object::answers::UNKNOWN_CODE;
use record::limits::MARK;
use record::{Claim, Place, Round, Statement};

/// Does a claim's write on an object: the mark and unfit codes do not call it.
fn perform<O: Object>(object: &mut O, claim: &Claim) -> Performed
    ensures answer { result.answer ≡ answer_to O.rules (O.holds object.old) claim.now }
    ensures called { result.called ≡ calls O.rules claim.now }
    ensures after { O.holds object.new ≡ performed O.rules (O.holds object.old) claim.now }
{
    if claim.client == MARK {
        return Performed::without_call(0);
    }
    if !(1..=O::HIGHEST).contains(&claim.operation[0]) {
        return Performed::without_call(UNKNOWN_CODE);
    }
    Performed {
        answer: object.perform(claim.client, &claim.operation),
        called: true,
    }
}

/// Takes the last write back where it stands one place past the target.
fn strike<O: Object>(ledger: &mut Ledger, object: &mut O, target: Place)
    requires { target < 2000000000 }
    ensures ledger { ledger.new ≡ struck ledger.old target }
    ensures kept { O.holds object.new ≡ restored O.rules (O.holds object.old) (strikes_object ledger.old target) }
{
    if ledger.place == target + 1 && ledger.take_back() {
        let _ = object.take_back();
    }
}

/// A site's state, and its object.
#[derive(Drop)]
pub(crate) struct Replica<O: Object> {
    pub(crate) state: State,
    pub(crate) object: O,
}

impl<O: Object> Replica<O> {
    /// A certificate where a round is due, and what the site becomes once the write is done.
    fn write(
        &mut self,
        site: u8,
        certificate: &Part<'_>,
        due: Round,
        then: Then,
    ) -> Result<Reply, SiteFault>
        ensures { Does O.rules (written O.rules site self.old.state (O.holds self.old.object) (claim_of (stated certificate.now.bytes.now 0)) certificate.now.bytes.now due then) self.new.state (O.holds self.new.object) result }
    {
        let claim = certificate.claim();
        let last = get(&self.state.ledger.done, claim.client);
        if let Some(again) = stored(site, &last, claim.number, &claim.operation, 0)? {
            return Ok(Reply::Says(again));
        }
        placed(due, self.state.ledger.place, &claim)?;
        let done = perform(&mut self.object, &claim);
        self.state.ledger.note(&claim, certificate.bytes, done);
        self.state.go_on(then);
        Ok(Reply::Says(Statement::answer(site, &claim, done.answer)))
    }

    /// A ROUND at an OPEN or FROZEN site.
    fn take(
        &mut self,
        starts: &Part<'_>,
        grants: &Part<'_>,
        requests: &Part<'_>,
    ) -> Result<Reply, SiteFault>
        ensures { Does O.rules (if_taken O.rules self.old.state (O.holds self.old.object) (stated grants.now.bytes.now 0).place (requests_in requests.now.bytes.now) (taken_at self.old.state.round self.old.state.ledger.place (stated starts.now.bytes.now 0).round (stated grants.now.bytes.now 0).place)) self.new.state (O.holds self.new.object) result }
    {
        let target = grants.place();
        let place = self.state.ledger.place;
        taken(self.state.round, place, starts.round(), target)?;
        strike(&mut self.state.ledger, &mut self.object, target);
        self.state.begin(target, &table_of(requests));
        Ok(Reply::Silent)
    }

    /// Answers a question, by the last write and the value.
    fn look(&self, site: u8, question: &Part<'_>) -> Statement
        ensures { result ≡ looked O.rules site self.now.state (O.holds self.now.object) (stated question.now.bytes.now 0) }
    {
        let asked = question.statement(0);
        let answer = self.object.look(&asked.operation);
        let (round, place) = self.state.ledger.current.map_or(
            (0, 0),
            |current| (current.claim.round, current.claim.place),
        );
        Statement::read_answer(site, &asked, round, place, answer)
    }

    /// What a site does with a message that passed the checks. The index is that of a RESOLVE's REQUEST.
    fn step(&mut self, site: u8, index: usize, message: &Message<'_>) -> Result<Reply, SiteFault>
        ensures { Does O.rules (step_of O.rules site index self.old.state (O.holds self.old.object) (sent message.now)) self.new.state (O.holds self.new.object) result }
    {
        let round = self.state.round;
        let place = self.state.ledger.place;
        let due = self.state.due();
        let then = self.state.then(message);
        match (&self.state.stage, message) {
            (_, Message::Read { question }) => Ok(Reply::Says(self.look(site, question))),
            (_, Message::ShowGrant { shown }) => self.state.show_grant(site, shown.place()),
            (_, Message::ShowCert) => self.state.show_cert(),
            (Stage::Open, Message::Write1 { request }) => self
                .state
                .request(site, &request.request(0), 0),
            (_, Message::Write1 { .. }) => Err(SiteFault::Wait),
            (Stage::Frozen, Message::Write2 { .. }) => Err(SiteFault::Wait),
            (
                Stage::Open | Stage::Pulling { .. } | Stage::Settling { .. },
                Message::Write2 { certificate },
            ) => self.write(site, certificate, due, then),
            (Stage::Open, Message::Resolve { grants, request }) => self.state.clash(
                site,
                index,
                grants.round(),
                grants.place(),
                &request.request(0),
            ),
            (Stage::Frozen, Message::Resolve { .. }) => {
                Ok(Reply::Says(Statement::start(site, round, place)))
            }
            (_, Message::Resolve { .. }) => Err(SiteFault::Wait),
            (
                Stage::Open | Stage::Frozen,
                Message::Round {
                    starts,
                    grants,
                    requests,
                },
            ) => self.take(starts, grants, requests),
            (_, Message::Round { .. }) => Err(SiteFault::Wait),
        }
    }

    /// The ten checks and the step.
    fn accept<N: Notary>(
        &mut self,
        figures: &Figures,
        notary: &N,
        message: &[u8],
        room: usize,
        board: &mut [u8],
    ) -> Result<Reply, SiteFault>
        ensures does { Does O.rules (accepted O.rules figures.now.f figures.now.number self.old.state (O.holds self.old.object) (checks figures.now.f (N.means notary.now) message.now room (length board.old))) self.new.state (O.holds self.new.object) result }
        ensures board { board.new ≡ board_after room board.old }
        ensures room { OnOk result (880 ≤ room) }
    {
        let message = check(figures.f, notary, message, room, board)?;
        self.step(figures.number, quorum(figures.f), &message)
    }

    /// A call at a site of these figures, by what it leaves.
    pub(crate) fn answer<N: Notary>(
        &mut self,
        figures: &Figures,
        notary: &N,
        message: &[u8],
        output: &mut [u8],
        board: &mut [u8],
    ) -> Result<usize, Refusal>
        ensures { Leaves O.rules (call_of O.rules figures.now.f figures.now.number (N.means notary.now) self.old.state (O.holds self.old.object) message.now output.old board.old) self.new.state (O.holds self.new.object) output.new board.new result }
    {
        let reply = self.accept(figures, notary, message, output.len(), board)?;
        Ok(write_reply(figures, &self.state, &reply, output))
    }
}
