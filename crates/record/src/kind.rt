// The kinds of record.
ghost use Rattle.record.specs.Kinds.{kind_number, kind_word, known_kind};
ghost use Rattle.std.specs.Prelude.{◌≡◌, Some};

use std::error::Error;
use std::fmt;

// What a record says, told by its first byte.
#[derive(Clone, Copy, PartialEq, Eq, Debug)]
pub enum Kind {
    // a client asks for a write
    Request = 1,
    // a site promises a round and place to a client's write
    Grant = 2,
    // a client asks for a reading
    Question = 3,
    // a site answers a write that it has done
    Answer = 4,
    // a site answers a reading
    ReadAnswer = 5,
    // a site says where it stopped in a round
    Start = 6,
    // asks a site for its grant at a place
    ShowGrant = 7,
    // asks a site for its current certificate
    ShowCert = 8,
}

// A number that no kind has.
#[derive(Clone, Copy, PartialEq, Eq, Debug)]
pub struct UnknownKind(pub u8);

// The number of a kind, which is byte 0 of its records.
impl From<Kind> for u8 {
    ghost from_gives = { λ kind number. number ≡ kind_number kind };

    fn from(kind: Kind) -> u8 {
        kind as u8
    }
}

// The kind that a number stands for, if any.
impl TryFrom<u8> for Kind {
    type Error = UnknownKind;

    ghost try_from_gives = { λ number kind. kind ≡ known_kind number };

    fn try_from(number: u8) -> Result<Kind, UnknownKind> {
        match number {
            1 => Ok(Kind::Request),
            2 => Ok(Kind::Grant),
            3 => Ok(Kind::Question),
            4 => Ok(Kind::Answer),
            5 => Ok(Kind::ReadAnswer),
            6 => Ok(Kind::Start),
            7 => Ok(Kind::ShowGrant),
            8 => Ok(Kind::ShowCert),
            _ => Err(UnknownKind(number)),
        }
    }
}

// A kind's word.
impl fmt::Display for Kind {
    ghost output = { λ kind. Some (kind_word kind) };

    fn fmt<W: fmt::Write>(&self, f: &mut fmt::Formatter<W>) -> fmt::Result {
        f.write_str(match self {
            Kind::Request => "REQUEST",
            Kind::Grant => "GRANT",
            Kind::Question => "QUESTION",
            Kind::Answer => "ANSWER",
            Kind::ReadAnswer => "READ-ANSWER",
            Kind::Start => "START",
            Kind::ShowGrant => "SHOW-GRANT",
            Kind::ShowCert => "SHOW-CERT",
        })
    }
}

impl fmt::Display for UnknownKind {
    fn fmt<W: fmt::Write>(&self, f: &mut fmt::Formatter<W>) -> fmt::Result {
        write!(f, "no kind has number {}", self.0)
    }
}

impl Error for UnknownKind {}
