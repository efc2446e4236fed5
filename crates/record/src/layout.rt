// Reading and writing records.
ghost use Rattle.std.specs.Prelude.{◌≡◌, ◌+◌, ◌≤◌, ◌++◌, length, take};
ghost use Rattle.record.specs.Layout.{record_of, record_bytes, statement_of};
ghost use Rattle.record.specs.Numbers.{bytes_at, bytes_of_number};

use crate::fields::{Record, Statement};

// The bytes of a field, from index `at` on.
fn field<const N: usize>(bytes: &[u8; 80], at: usize) -> [u8; N]
    requires { at + N ≤ 80 }
    ensures { result ≡ bytes_at at N bytes.now }
{
    <[u8; N]>::try_from(&bytes[at..at + N]).unwrap()
}

// The four bytes that write a number, high byte first. A name of its own beside `to_be_bytes`, since `text` then has the bytes of an
// amount in the words of this crate.
#[tactic(auto, using(crate::proofs::Digits::written_4))]
pub fn u32_bytes(n: u32) -> [u8; 4]
    ensures { result ≡ bytes_of_number 4 n }
{
    n.to_be_bytes()
}

// Writes bytes from index `at` on. What stands before them stays.
#[tactic(auto, using(std::proofs::lemmas::Slice::overwrites))]
pub(crate) fn put(out: &mut [u8; 80], at: usize, bytes: &[u8])
    requires { at + length bytes.now ≤ 80 }
    ensures { take (at + length bytes.now) out.new ≡ take at out.old ++ bytes.now }
{
    let end = at + bytes.len();
    out[at..end].copy_from_slice(bytes);
}

impl Record {
    // The record that 80 bytes make. Any 80 bytes make one; whether it is in range is another question.
    pub fn read(bytes: &[u8; 80]) -> Record
        ensures { result ≡ record_of bytes.now }
    {
        Record {
            statement: Statement::read(bytes),
            seal: field(bytes, 48),
        }
    }

    // The 80 bytes of a record.
    pub fn to_bytes(&self) -> [u8; 80]
        ensures { result ≡ record_bytes self.now }
    {
        let mut out = [0; 80];
        let says = &self.statement;
        put(
            &mut out,
            0,
            &[says.kind, says.signer, says.client, says.spare],
        );
        put(&mut out, 4, &says.number.to_be_bytes());
        put(&mut out, 8, &says.round.to_be_bytes());
        put(&mut out, 12, &says.place.to_be_bytes());
        put(&mut out, 16, &says.operation);
        put(&mut out, 32, &says.answer.to_be_bytes());
        put(&mut out, 40, &says.nonce.to_be_bytes());
        put(&mut out, 48, &self.seal);
        out
    }
}

impl Statement {
    // The statement that the first 48 of a record's bytes make.
    #[tactic(auto, using(crate::proofs::Digits::number_4, crate::proofs::Digits::number_8))]
    pub fn read(bytes: &[u8; 80]) -> Statement
        ensures { result ≡ statement_of bytes.now }
    {
        Statement {
            kind: bytes[0],
            signer: bytes[1],
            client: bytes[2],
            spare: bytes[3],
            number: u32::from_be_bytes(field(bytes, 4)),
            round: u32::from_be_bytes(field(bytes, 8)),
            place: u32::from_be_bytes(field(bytes, 12)),
            operation: field(bytes, 16),
            answer: u64::from_be_bytes(field(bytes, 32)),
            nonce: u64::from_be_bytes(field(bytes, 40)),
        }
    }
}
