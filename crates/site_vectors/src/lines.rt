//! The records of the tables.
use tables::fields::{Fields, Line};
use tables::trusting::FORGED;

/// The first three bytes of an operation; the others are zero.
pub type Operation = [u8; 3];

/// A claim, as the tables write it: client, number, round, place, operation.
#[derive(Clone, Copy)]
pub struct Claim(pub u8, pub u32, pub u32, pub u32, pub Operation);

/// A record, as the tables write it.
#[derive(Clone, Copy)]
pub enum Said {
    /// client, number, operation
    Request(u8, u32, Operation),
    /// site, claim
    Grant(u8, Claim),
    /// a GRANT with a seal that the notary does not accept
    Forged(u8, Claim),
    /// a GRANT with the seal that it came with, in a reply
    Shown(u8, Claim),
    /// client, operation, nonce
    Question(u8, Operation, u64),
    /// site, claim, answer
    Answer(u8, Claim, u64),
    /// site, the question's client and operation with the last write's round and place, nonce, answer
    Reading(u8, Claim, u64, u64),
    /// site, round, place
    Start(u8, u32, u32),
    /// place
    ShowGrant(u32),
    ShowCert,
}

/// What the seal of a record from a signer is filled with. A site's own records have a zero seal.
fn seal_of(signer: u8) -> u8 {
    signer.wrapping_add(64)
}

/// An operation whose other bytes are zero.
fn whole(operation: Operation) -> [u8; 16] {
    let [code, about, more] = operation;
    [code, about, more, 0, 0, 0, 0, 0, 0, 0, 0, 0, 0, 0, 0, 0]
}

/// A record that a client signs.
fn asking(kind: u8, client: u8, operation: Operation) -> Fields {
    Fields {
        kind,
        signer: client,
        client,
        operation: whole(operation),
        seal: seal_of(client),
        ..Fields::ZERO
    }
}

/// A record of a site about a claim, with a zero seal.
fn about(kind: u8, site: u8, claim: Claim) -> Fields {
    let Claim(client, number, round, place, operation) = claim;
    Fields {
        kind,
        signer: site,
        client,
        number,
        round,
        place,
        operation: whole(operation),
        ..Fields::ZERO
    }
}

/// A record with a round and a place alone.
fn placed(kind: u8, site: u8, round: u32, place: u32) -> Fields {
    Fields {
        kind,
        signer: site,
        round,
        place,
        ..Fields::ZERO
    }
}

impl Said {
    /// The record with the seal that it has in a reply: a site's own GRANTs and STARTs have a zero one.
    fn fields(&self) -> Fields {
        match *self {
            Said::Request(client, number, operation) => Fields {
                number,
                ..asking(1, client, operation)
            },
            Said::Question(client, operation, nonce) => Fields {
                nonce,
                ..asking(3, client, operation)
            },
            Said::Grant(site, claim) => about(2, site, claim),
            Said::Forged(site, claim) => Fields {
                seal: FORGED,
                ..about(2, site, claim)
            },
            Said::Shown(site, claim) => Fields {
                seal: seal_of(site),
                ..about(2, site, claim)
            },
            Said::Answer(site, claim, answer) => Fields {
                answer,
                ..about(4, site, claim)
            },
            Said::Reading(site, claim, nonce, answer) => Fields {
                nonce,
                answer,
                ..about(5, site, claim)
            },
            Said::Start(site, round, place) => placed(6, site, round, place),
            Said::ShowGrant(place) => placed(7, 0, 0, place),
            Said::ShowCert => placed(8, 0, 0, 0),
        }
    }

    /// The record in a message: a site's GRANTs and STARTs are sealed.
    pub fn told(&self) -> Line {
        let fields = self.fields();
        match *self {
            Said::Grant(site, _) | Said::Start(site, _, _) => {
                let seal = seal_of(site);
                Fields { seal, ..fields }.line()
            }
            _ => fields.line(),
        }
    }

    /// The record in a reply.
    pub fn replied(&self) -> Line {
        self.fields().line()
    }
}
