//! The command `explain`: what a message is, or why it is refused.
use crate::complaint::{Complaint, told};
use crate::keys::read_keys;
use message::limits::{BOARD, LEAST_ROOM};
use message::{Refusal, check};
use notary::{Notary, TrustingNotary};
use record::limits::RECORD;
use record::{Kind, Record};
use std::alloc::{AllocError, Global};
use std::fmt;
use text::hex::{Hex, from_hex};
use text::words::Words;

/// The word for a record's kind.
#[derive(Clone, Copy)]
struct KindShown(u8);

impl fmt::Display for KindShown {
    fn fmt<W: fmt::Write>(&self, f: &mut fmt::Formatter<W>) -> fmt::Result {
        match Kind::try_from(self.0) {
            Ok(kind) => write!(f, "{kind}"),
            Err(_) => f.write_str("unknown kind"),
        }
    }
}

/// Adds a line with all fields of a record of a message, where these bytes are one.
fn push_record(out: &mut String, index: usize, bytes: &[u8]) -> Result<(), AllocError> {
    let Ok(raw) = <[u8; RECORD]>::try_from(bytes) else {
        return Ok(());
    };
    let Record {
        statement: says,
        seal,
    } = Record::read(&raw);
    let kind = says.kind;
    let name = KindShown(kind);
    let signer = says.signer;
    let client = says.client;
    write!(
        out,
        "record {index}: {kind} {name}, signer {signer}, client {client}"
    )?;
    let number = says.number;
    let round = says.round;
    let place = says.place;
    let operation = Hex(&says.operation);
    write!(
        out,
        ", number {number}, round {round}, place {place}, operation {operation}"
    )?;
    let answer = says.answer;
    let nonce = says.nonce;
    let seal = Hex(&seal);
    writeln!(out, ", answer {answer}, nonce {nonce}, seal {seal}")
}

/// What a notary and the checks make of a message, in words.
fn judged<N: Notary>(heap: Global, f: u8, notary: &N, bytes: &[u8]) -> Result<String, AllocError> {
    let mut out = String::new(heap);
    let mut board = [0; BOARD];
    match check(f, notary, bytes, LEAST_ROOM, &mut board) {
        Ok(found) => {
            writeln!(out, "{found}")?;
            for (index, record) in bytes.chunks(RECORD).enumerate() {
                push_record(&mut out, index, record)?;
            }
        }
        Err(fault) => {
            let refusal = Refusal::from(fault);
            let name = refusal.name();
            let Refusal {
                number,
                index,
                layer,
            } = refusal;
            writeln!(out, "refused {number} {name}, index {index}, layer {layer}")?;
            if let Some(record) = bytes.chunks(RECORD).nth(index) {
                push_record(&mut out, index, record)?;
            }
        }
    }
    Ok(out)
}

/// A message to a pool of that f.
#[derive(Drop)]
struct Sent {
    f: u8,
    bytes: Vec<u8>,
}

impl Sent {
    /// The pool's f, and the message in hexadecimal.
    fn read(heap: Global, f: &str, message: &str) -> Result<Sent, Complaint> {
        let f = match f.parse() {
            Ok(f) if f >= 1 && f <= 5 => f,
            _ => return Err(Complaint::NoFigure),
        };
        let bytes = from_hex(heap, message)?.ok_or(Complaint::NoMessage)?;
        Ok(Sent { f, bytes })
    }

    /// What a notary and the checks make of it.
    fn judged_by<N: Notary>(&self, heap: Global, notary: &N) -> Result<String, Complaint> {
        Ok(judged(heap, self.f, notary, self.bytes.as_slice())?)
    }
}

/// What a message is, where no seals are judged.
fn unsealed(heap: Global, f: &str, message: &str) -> Result<String, Complaint> {
    Sent::read(heap, f, message)?.judged_by(heap, &TrustingNotary)
}

/// What a message is, by the keys in the text of a key file.
fn by_keys(heap: Global, f: &str, message: &str, keys: &str) -> Result<String, Complaint> {
    let sent = Sent::read(heap, f, message)?;
    let notary = read_keys(heap, keys)?;
    sent.judged_by(heap, &notary)
}

/// What a line's message is. A comment explains nothing.
fn by_line(heap: Global, line: &str) -> Result<String, Complaint> {
    let mut words = Words::of(line);
    let Some(f) = words.next() else {
        return Ok(String::new(heap));
    };
    if f.starts_with('#') {
        return Ok(String::new(heap));
    }
    match words.next().ok_or(Complaint::Short)? {
        "-" => unsealed(heap, f, ""),
        message => unsealed(heap, f, message),
    }
}

/// The command where no seals are judged.
pub fn explain(heap: Global, f: &str, message: &str) -> Result<String, AllocError> {
    told(heap, unsealed(heap, f, message))
}

/// The command where seals are judged by the keys in the text of a key file.
pub fn explain_with_keys(
    heap: Global,
    f: &str,
    message: &str,
    keys: &str,
) -> Result<String, AllocError> {
    told(heap, by_keys(heap, f, message, keys))
}

/// A line with the pool's f and a message, or `-` for one of no bytes. A comment explains nothing.
pub fn explain_line(heap: Global, line: &str) -> Result<String, AllocError> {
    told(heap, by_line(heap, line))
}
