//! What an office finds when it judges the replies that it has filed.
ghost use Rattle.office.specs.Words.{word_of};
ghost use Rattle.std.specs.Prelude.{Some};

use std::fmt;

/// A verdict.
#[derive(Clone, Copy, PartialEq, Eq, Debug)]
pub enum Verdict {
    /// a quorum of sites gave this answer
    Done { answer: u64 },
    /// a quorum granted our own claim
    Certify,
    /// a quorum granted one claim of another's
    Back,
    /// a quorum granted one round and place to different claims
    Clash,
    /// a quorum is heard and does not agree; this site's reply is the latest
    Catch { site: usize },
    /// no quorum is heard
    Wait,
}

/// A verdict, and how many bytes the call wrote into the caller's output.
#[derive(Clone, Copy, PartialEq, Eq, Debug)]
pub struct Judged {
    pub verdict: Verdict,
    pub count: usize,
}

/// The verdict's word.
impl fmt::Display for Verdict {
    ghost output = { λ v. Some (word_of v) };

    fn fmt<W: fmt::Write>(&self, f: &mut fmt::Formatter<W>) -> fmt::Result {
        f.write_str(match self {
            Verdict::Done { .. } => "DONE",
            Verdict::Certify => "CERTIFY",
            Verdict::Back => "BACK",
            Verdict::Clash => "CLASH",
            Verdict::Catch { .. } => "CATCH",
            Verdict::Wait => "WAIT",
        })
    }
}
