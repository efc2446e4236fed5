//! Claims, requests, records and refusals as text.
use message::{Refusal, Request};
use notary::KeyedNotary;
use record::limits::RECORD;
use record::{Claim, Statement};
use site::state::Done;
use std::fmt;
use text::hex::Hex;

/// A claim: client, number, round, place and operation.
#[derive(Clone, Copy)]
pub struct ClaimShown(pub Claim);

impl fmt::Display for ClaimShown {
    fn fmt<W: fmt::Write>(&self, f: &mut fmt::Formatter<W>) -> fmt::Result {
        let claim = &self.0;
        let client = claim.client;
        let number = claim.number;
        let round = claim.round;
        let place = claim.place;
        let operation = Hex(&claim.operation);
        write!(f, "{client}:{number}:{round}:{place}:{operation}")
    }
}

/// A request: client, number and operation.
#[derive(Clone, Copy)]
pub struct RequestShown(pub Request);

impl fmt::Display for RequestShown {
    fn fmt<W: fmt::Write>(&self, f: &mut fmt::Formatter<W>) -> fmt::Result {
        let request = &self.0;
        let client = request.client;
        let number = request.number;
        let operation = Hex(&request.operation);
        write!(f, "{client}:{number}:{operation}")
    }
}

/// A write that was done: its claim, and what answered it.
#[derive(Clone, Copy)]
pub struct DoneShown(pub Done);

impl fmt::Display for DoneShown {
    fn fmt<W: fmt::Write>(&self, f: &mut fmt::Formatter<W>) -> fmt::Result {
        let claim = ClaimShown(self.0.claim);
        let answer = self.0.answer;
        write!(f, "{claim}:{answer}")
    }
}

/// Why a call was refused.
#[derive(Clone, Copy)]
pub struct RefusalShown(pub Refusal);

impl fmt::Display for RefusalShown {
    fn fmt<W: fmt::Write>(&self, f: &mut fmt::Formatter<W>) -> fmt::Result {
        let name = self.0.name();
        let Refusal {
            number,
            index,
            layer,
        } = self.0;
        write!(f, "refused {number} {index} {layer} {name}")
    }
}

/// Records in hexadecimal, `-` for none. Those of the site, or all where no site is named, have their seals filled in.
#[derive(Clone, Copy)]
pub struct RecordsShown<'a> {
    pub notary: &'a KeyedNotary,
    pub site: Option<u8>,
    pub bytes: &'a [u8],
}

impl RecordsShown<'_> {
    /// A record as it is sent.
    fn sent(&self, raw: &[u8; RECORD]) -> [u8; RECORD] {
        match self.site {
            Some(site) if Statement::read(raw).signer != site => *raw,
            _ => self.notary.seal(raw),
        }
    }
}

impl fmt::Display for RecordsShown<'_> {
    fn fmt<W: fmt::Write>(&self, f: &mut fmt::Formatter<W>) -> fmt::Result {
        if self.bytes.is_empty() {
            return f.write_str("-");
        }
        for part in self.bytes.chunks(RECORD) {
            match <[u8; RECORD]>::try_from(part) {
                Ok(raw) => write!(f, "{}", Hex(&self.sent(&raw)))?,
                Err(_) => write!(f, "{}", Hex(part))?,
            }
        }
        Ok(())
    }
}
