//! What a site replied, in words.
use message::Refusal;
use record::limits::{MARK, RECORD};
use record::{Kind, Statement};
use std::fmt;

/// A site's reply: one record with its seal filled in, nothing, or a refusal.
#[derive(Clone, Copy)]
pub enum Reply {
    Says([u8; RECORD]),
    Silent,
    Refused(Refusal),
}

/// Whose write a statement is about, and where.
#[derive(Clone, Copy)]
struct Where<'a>(&'a Statement);

impl fmt::Display for Where<'_> {
    fn fmt<W: fmt::Write>(&self, f: &mut fmt::Formatter<W>) -> fmt::Result {
        let client = self.0.client;
        let number = self.0.number;
        let round = self.0.round;
        let place = self.0.place;
        match client {
            MARK => write!(f, "the mark of round {round}, place {place}"),
            _ => write!(
                f,
                "client {client}, request {number}, round {round}, place {place}"
            ),
        }
    }
}

/// What a statement of a site says.
#[derive(Clone, Copy)]
struct Said<'a>(&'a Statement);

impl fmt::Display for Said<'_> {
    fn fmt<W: fmt::Write>(&self, f: &mut fmt::Formatter<W>) -> fmt::Result {
        let round = self.0.round;
        let place = self.0.place;
        let answer = self.0.answer;
        let about = Where(self.0);
        match Kind::try_from(self.0.kind) {
            Ok(Kind::Grant) => write!(f, "GRANT to {about}"),
            Ok(Kind::Answer) => write!(f, "ANSWER {answer} to {about}"),
            Ok(Kind::ReadAnswer) => write!(f, "READ-ANSWER {answer}, round {round}, place {place}"),
            Ok(Kind::Start) => write!(f, "START, round {round}, place {place}"),
            _ => f.write_str("something else"),
        }
    }
}

impl fmt::Display for Reply {
    fn fmt<W: fmt::Write>(&self, f: &mut fmt::Formatter<W>) -> fmt::Result {
        match self {
            Reply::Says(raw) => write!(f, "{}", Said(&Statement::read(raw))),
            Reply::Silent => f.write_str("accepted"),
            Reply::Refused(refusal) => write!(f, "refused, {}", refusal.name()),
        }
    }
}
