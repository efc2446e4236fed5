//! What the calls of an office gave, as text.
use message::Refusal;
use office::{Judged, Verdict};
use scenario::shown::RefusalShown;
use std::fmt;
use text::hex::Hex;

/// What a call gave, or why it was refused.
#[derive(Clone, Copy)]
pub struct Given<T>(pub Result<T, Refusal>);

impl<T: fmt::Display> fmt::Display for Given<T> {
    fn fmt<W: fmt::Write>(&self, f: &mut fmt::Formatter<W>) -> fmt::Result {
        match &self.0 {
            Ok(value) => write!(f, "{value}"),
            Err(refusal) => write!(f, "{}", RefusalShown(*refusal)),
        }
    }
}

/// That a call was accepted, and what it gave.
#[derive(Clone, Copy)]
pub struct Accepted<T>(pub T);

impl<T: fmt::Display> fmt::Display for Accepted<T> {
    fn fmt<W: fmt::Write>(&self, f: &mut fmt::Formatter<W>) -> fmt::Result {
        write!(f, "ok {}", &self.0)
    }
}

/// A verdict with what it gives: an answer, a site, or the records that go with it.
#[derive(Clone, Copy)]
pub struct JudgedShown<'a> {
    pub judged: Judged,
    pub written: &'a [u8],
}

impl fmt::Display for JudgedShown<'_> {
    fn fmt<W: fmt::Write>(&self, f: &mut fmt::Formatter<W>) -> fmt::Result {
        let verdict = self.judged.verdict;
        match verdict {
            Verdict::Done { answer } => write!(f, "{verdict} {answer}"),
            Verdict::Catch { site } => write!(f, "{verdict} {site}"),
            Verdict::Wait => write!(f, "{verdict}"),
            _ => write!(f, "{verdict} {}", Hex(self.written)),
        }
    }
}
