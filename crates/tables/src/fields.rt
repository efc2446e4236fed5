//! Records, written out byte by byte by this file alone.

/// A record of 80 bytes.
pub type Line = [u8; 80];

/// The fields of a record. A table names those that it is about, and takes the others from `ZERO`.
#[derive(Clone, Copy)]
pub struct Fields {
    pub kind: u8,
    pub signer: u8,
    pub client: u8,
    pub number: u32,
    pub round: u32,
    pub place: u32,
    pub operation: [u8; 16],
    pub answer: u64,
    pub nonce: u64,
    /// the byte that fills the seal
    pub seal: u8,
}

/// Puts bytes into a record, from a place on.
fn put(line: &mut Line, at: usize, bytes: &[u8]) {
    for (to, from) in line.iter_mut().skip(at).zip(bytes) {
        *to = *from;
    }
}

impl Fields {
    pub const ZERO: Fields = Fields {
        kind: 0,
        signer: 0,
        client: 0,
        number: 0,
        round: 0,
        place: 0,
        operation: [0; 16],
        answer: 0,
        nonce: 0,
        seal: 0,
    };

    /// The record. A number's high byte stands first.
    pub fn line(&self) -> Line {
        let mut line = [self.seal; 80];
        put(&mut line, 0, &[self.kind, self.signer, self.client, 0]);
        put(&mut line, 4, &self.number.to_be_bytes());
        put(&mut line, 8, &self.round.to_be_bytes());
        put(&mut line, 12, &self.place.to_be_bytes());
        put(&mut line, 16, &self.operation);
        put(&mut line, 32, &self.answer.to_be_bytes());
        put(&mut line, 40, &self.nonce.to_be_bytes());
        line
    }
}
