// The fields of a record.

// One write asked for, by its client's operation bytes.
pub type Operation = [u8; 16];

// The proof of who signed a record.
pub type Seal = [u8; 32];

// A round's number and a place in the book.
pub type Round = u32;

pub type Place = u32;

// What a record says: all of it but the seal.
#[derive(Clone, Copy, PartialEq, Eq, Debug)]
pub struct Statement {
    // byte 0; `Kind::try_from` says which kind it is, if any
    pub kind: u8,
    // the number of the site or client that made the record
    pub signer: u8,
    // the client whose write or question it is about
    pub client: u8,
    // byte 3, which is always zero
    pub spare: u8,
    // the client's number for its request
    pub number: u32,
    pub round: Round,
    pub place: Place,
    pub operation: Operation,
    // the number that answers a write or a question
    pub answer: u64,
    // tells one question of a client from another
    pub nonce: u64,
}

// A claim to a round and place in the book: what a grant promises and an answer confirms.
#[derive(Clone, Copy, PartialEq, Eq, Debug)]
pub struct Claim {
    pub client: u8,
    pub number: u32,
    pub round: Round,
    pub place: Place,
    pub operation: Operation,
}

// A statement with its seal.
#[derive(Clone, Copy, PartialEq, Eq, Debug)]
pub struct Record {
    pub statement: Statement,
    pub seal: Seal,
}
