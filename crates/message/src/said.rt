//! Messages as parts of the input.
use crate::part::Part;
use std::fmt;

/// A message that has passed the checks. Each case holds the parts of the input that it consists of.
#[derive(Clone, Copy)]
pub enum Message<'a> {
    Write1 {
        request: Part<'a>,
    },
    Read {
        question: Part<'a>,
    },
    Write2 {
        certificate: Part<'a>,
    },
    Resolve {
        grants: Part<'a>,
        request: Part<'a>,
    },
    /// the part of the GRANTs has no records where the message has no GRANTs
    Round {
        starts: Part<'a>,
        grants: Part<'a>,
        requests: Part<'a>,
    },
    ShowGrant {
        shown: Part<'a>,
    },
    ShowCert,
}

/// The word for a message's form.
impl fmt::Display for Message<'_> {
    ghost use Rattle.message.specs.Words.{form_word};
    ghost use Rattle.std.specs.Prelude.{Some};

    ghost output = { λ message. Some (form_word message) };

    fn fmt<W: fmt::Write>(&self, f: &mut fmt::Formatter<W>) -> fmt::Result {
        f.write_str(match self {
            Message::Write1 { .. } => "WRITE-1",
            Message::Read { .. } => "READ",
            Message::Write2 { .. } => "WRITE-2",
            Message::Resolve { .. } => "RESOLVE",
            Message::Round { .. } => "ROUND",
            Message::ShowGrant { .. } => "SHOW-GRANT",
            Message::ShowCert => "SHOW-CERT",
        })
    }
}
