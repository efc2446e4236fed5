// The statements that clients and sites make, one function for each kind.
ghost use Rattle.record.specs.Claims.{request, grant, question, answer as answers, read_answer, start, show_grant, show_cert};
ghost use Rattle.record.specs.Layout.{record_bytes};
ghost use Rattle.std.specs.Prelude.{◌≡◌, replicate};

use crate::fields::{Claim, Operation, Place, Record, Round, Statement};
use crate::kind::Kind;

impl Statement {
    // A statement with nothing in it.
    pub const NOTHING: Statement = Statement {
        kind: 0,
        signer: 0,
        client: 0,
        spare: 0,
        number: 0,
        round: 0,
        place: 0,
        operation: [0; 16],
        answer: 0,
        nonce: 0,
    };

    // A client asks for a write.
    pub fn request(client: u8, number: u32, operation: &Operation) -> Statement
        ensures { result ≡ request client number operation.now }
    {
        Statement {
            kind: Kind::Request.into(),
            signer: client,
            client,
            number,
            operation: *operation,
            ..Statement::NOTHING
        }
    }

    // A site grants a claim.
    pub fn grant(site: u8, claim: &Claim) -> Statement
        ensures { result ≡ grant site claim.now }
    {
        Statement {
            kind: Kind::Grant.into(),
            signer: site,
            client: claim.client,
            number: claim.number,
            round: claim.round,
            place: claim.place,
            operation: claim.operation,
            ..Statement::NOTHING
        }
    }

    // A client asks a question.
    pub fn question(client: u8, operation: &Operation, nonce: u64) -> Statement
        ensures { result ≡ question client operation.now nonce }
    {
        Statement {
            kind: Kind::Question.into(),
            signer: client,
            client,
            operation: *operation,
            nonce,
            ..Statement::NOTHING
        }
    }

    // A site answers a claim that it has done.
    pub fn answer(site: u8, claim: &Claim, answer: u64) -> Statement
        ensures { result ≡ answers site claim.now answer }
    {
        Statement {
            kind: Kind::Answer.into(),
            answer,
            ..Statement::grant(site, claim)
        }
    }

    // A site answers a question, itself a statement, at the round and place of its last write.
    pub fn read_answer(
        site: u8,
        asked: &Statement,
        round: Round,
        place: Place,
        answer: u64,
    ) -> Statement
        ensures { result ≡ read_answer site asked.now.client asked.now.operation asked.now.nonce round place answer }
    {
        Statement {
            kind: Kind::ReadAnswer.into(),
            signer: site,
            client: asked.client,
            round,
            place,
            operation: asked.operation,
            answer,
            nonce: asked.nonce,
            ..Statement::NOTHING
        }
    }

    // A site says at which place it stopped in a round.
    pub fn start(site: u8, round: Round, place: Place) -> Statement
        ensures { result ≡ start site round place }
    {
        Statement {
            kind: Kind::Start.into(),
            signer: site,
            round,
            place,
            ..Statement::NOTHING
        }
    }

    // Asks a site for its grant at a place.
    pub fn show_grant(place: Place) -> Statement
        ensures { result ≡ show_grant place }
    {
        Statement {
            kind: Kind::ShowGrant.into(),
            place,
            ..Statement::NOTHING
        }
    }

    // Asks a site for its current certificate.
    pub fn show_cert() -> Statement
        ensures { result ≡ show_cert }
    {
        Statement {
            kind: Kind::ShowCert.into(),
            ..Statement::NOTHING
        }
    }

    // The 80 bytes of a statement whose seal is still to be filled in: 32 zero bytes.
    pub fn unsealed(&self) -> [u8; 80]
        ensures { result ≡ record_bytes record { statement = self.now; seal = replicate 32 0 } }
    {
        Record {
            statement: *self,
            seal: [0; 32],
        }
        .to_bytes()
    }
}
