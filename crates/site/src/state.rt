//! What a site keeps, apart from its object.
use message::Request;
use record::{Claim, Place, Round};
use std::fmt;

/// The most bytes that a certificate has: eleven GRANTs.
pub const CERTIFICATE: usize = 880;

/// Requests by client.
pub type Requests = [Option<Request>; 16];

/// A write that was done, and what answered it.
#[derive(Clone, Copy, PartialEq, Eq)]
pub struct Done {
    pub claim: Claim,
    pub answer: u64,
}

/// The claim done last with its certificate, seals included; zeros follow the GRANTs. An array, since a site allocates nothing.
#[derive(Clone, Copy, PartialEq, Eq)]
pub struct Current {
    pub claim: Claim,
    pub certificate: [u8; CERTIFICATE],
}

/// What the write done last replaced, so that it can be taken back.
#[derive(Clone, Copy, PartialEq, Eq)]
pub struct Backup {
    pub current: Option<Current>,
    /// the client's last-done entry
    pub entry: Option<Done>,
    /// whether the write called the object; the rest of the backup counts either way
    pub called: bool,
}

/// The writes that a site has done.
#[derive(Clone, Copy, PartialEq, Eq)]
pub struct Ledger {
    /// how many there are
    pub place: Place,
    pub current: Option<Current>,
    /// what was done last for each client; an array, since a site allocates nothing
    pub done: [Option<Done>; 16],
    pub backup: Option<Backup>,
}

/// The requests that wait, and the grant that is out for one of them.
#[derive(Clone, Copy, PartialEq, Eq)]
pub struct Asked {
    pub out: Option<Claim>,
    pub waiting: Requests,
}

/// The claims that a round begins with: its mark one place above the target, then the requests in their clients' order.
#[derive(Clone, Copy, PartialEq, Eq)]
pub struct Settlement {
    pub target: Place,
    pub requests: Requests,
}

/// Where a site stands in its round.
#[derive(Clone, Copy, PartialEq, Eq)]
pub enum Stage {
    /// it grants and does writes
    Open,
    /// it has said where it stopped, and waits for the round
    Frozen,
    /// it does the writes of the round that it left, up to the target; it keeps the round's requests until then
    Pulling {
        left: Round,
        target: Place,
        requests: Requests,
    },
    /// it does the writes of its settlement, up to the last place of it
    Settling {
        last: u64,
    },
}

impl fmt::Display for Stage {
    ghost use Rattle.site.specs.Words.{stage_word};
    ghost use Rattle.std.specs.Prelude.{Some};

    ghost output = { λ stage. Some (stage_word stage) };

    fn fmt<W: fmt::Write>(&self, f: &mut fmt::Formatter<W>) -> fmt::Result {
        f.write_str(match self {
            Stage::Open => "OPEN",
            Stage::Frozen => "FROZEN",
            Stage::Pulling { .. } => "PULLING",
            Stage::Settling { .. } => "SETTLING",
        })
    }
}

/// All of it.
#[derive(Clone, Copy, PartialEq, Eq)]
pub struct State {
    pub stage: Stage,
    pub round: Round,
    pub settlement: Option<Settlement>,
    pub asked: Asked,
    pub ledger: Ledger,
}

/// No grant is out and no request waits.
pub const NOBODY: Asked = Asked {
    out: None,
    waiting: [None; 16],
};

/// A fresh site: OPEN in round 0, at place 0.
pub const FRESH: State = State {
    stage: Stage::Open,
    round: 0,
    settlement: None,
    asked: NOBODY,
    ledger: Ledger {
        place: 0,
        current: None,
        done: [None; 16],
        backup: None,
    },
};
