//! The records of the tables.
use record::Operation;
use tables::fields::{Fields, Line};

/// A claim, as the tables write it: client, number, round, place, operation.
#[derive(Clone, Copy)]
pub struct Claim(pub u8, pub u32, pub u32, pub u32, pub Operation);

/// What a site says.
#[derive(Clone, Copy)]
pub enum Word {
    /// GRANT
    Grant(Claim),
    /// ANSWER: claim, answer
    Answer(Claim, u64),
    /// READ-ANSWER: the question's client and operation with a round and place, the nonce, the answer
    Reading(Claim, u64, u64),
    /// START: round, place
    Start(u32, u32),
}

/// The same word from each site of a range: the first site, the last site, the word.
#[derive(Clone, Copy)]
pub struct By(pub u8, pub u8, pub Word);

/// A record of a site, with a seal that is told from other sites' and kinds'.
fn signed(kind: u8, site: u8) -> Fields {
    Fields {
        kind,
        signer: site,
        seal: site.wrapping_add(kind.wrapping_mul(16)),
        ..Fields::ZERO
    }
}

/// A record of a site about a claim.
fn about(kind: u8, site: u8, claim: &Claim) -> Fields {
    let Claim(client, number, round, place, operation) = *claim;
    Fields {
        client,
        number,
        round,
        place,
        operation,
        ..signed(kind, site)
    }
}

/// A record that a client signs, with a zero seal.
fn asking(kind: u8, client: u8, operation: &Operation) -> Fields {
    Fields {
        kind,
        signer: client,
        client,
        operation: *operation,
        ..Fields::ZERO
    }
}

/// The REQUEST of a client.
pub fn request(client: u8, number: u32, operation: &Operation) -> Line {
    let asks = asking(1, client, operation);
    Fields { number, ..asks }.line()
}

/// The QUESTION of a client.
pub fn question(client: u8, operation: &Operation, nonce: u64) -> Line {
    let asks = asking(3, client, operation);
    Fields { nonce, ..asks }.line()
}

impl Word {
    /// What a site says it in.
    fn fields(&self, site: u8) -> Fields {
        match *self {
            Word::Grant(claim) => about(2, site, &claim),
            Word::Answer(claim, answer) => Fields {
                answer,
                ..about(4, site, &claim)
            },
            Word::Reading(claim, nonce, answer) => Fields {
                nonce,
                answer,
                ..about(5, site, &claim)
            },
            Word::Start(round, place) => Fields {
                round,
                place,
                ..signed(6, site)
            },
        }
    }

    /// The record in which a site says it.
    pub fn from_site(&self, site: u8) -> Line {
        self.fields(site).line()
    }
}
