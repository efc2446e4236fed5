//! Why a command on seals or messages is not done.
use std::alloc::{AllocError, AllocFailed, Global};
use std::fmt;
use text::hex::from_hex;

/// Why a command on seals or messages is not done.
#[derive(Clone, Copy)]
pub enum Complaint {
    NoMemory,
    NoKey,
    NoRecord,
    NoFigure,
    NoMessage,
    NoKeys,
    Short,
}

impl From<AllocError> for Complaint {
    fn from(_error: AllocError) -> Complaint {
        Complaint::NoMemory
    }
}

impl<T: Drop> From<AllocFailed<T>> for Complaint {
    fn from(_error: AllocFailed<T>) -> Complaint {
        Complaint::NoMemory
    }
}

impl fmt::Display for Complaint {
    fn fmt<W: fmt::Write>(&self, f: &mut fmt::Formatter<W>) -> fmt::Result {
        f.write_str(match self {
            Complaint::NoMemory => "there is no memory",
            Complaint::NoKey => "a key is 32 bytes, written as 64 hexadecimal digits",
            Complaint::NoRecord => "a record is 80 bytes, written as 160 hexadecimal digits",
            Complaint::NoFigure => "f is a number from 1 to 5",
            Complaint::NoMessage => "a message is written in hexadecimal, two digits for each byte",
            Complaint::NoKeys =>
                "a key file has 32 lines of 64 hexadecimal digits: 16 sites, then 16 clients",
            Complaint::Short => "a line has the pool's f and a message",
        })
    }
}

/// The array of bytes, where they are as many as it has.
pub(crate) fn sized<const N: usize>(
    bytes: &[u8],
    else_say: Complaint,
) -> Result<[u8; N], Complaint> {
    <[u8; N]>::try_from(bytes).ok().ok_or(else_say)
}

/// The bytes that a text writes in hexadecimal, where they are so many.
pub(crate) fn exactly<const N: usize>(
    heap: Global,
    text: &str,
    else_say: Complaint,
) -> Result<[u8; N], Complaint> {
    sized(from_hex(heap, text)?.ok_or(else_say)?.as_slice(), else_say)
}

/// The text of what was done, or of why nothing was.
pub(crate) fn told(heap: Global, done: Result<String, Complaint>) -> Result<String, AllocError> {
    match done {
        Ok(text) => Ok(text),
        Err(Complaint::NoMemory) => Err(AllocError),
        Err(why) => format!(in heap; "{why}\n"),
    }
}
