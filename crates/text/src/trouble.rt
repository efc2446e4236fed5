//! Why a line is not done.
use crate::words::Unreadable;
use std::alloc::{AllocError, AllocFailed};
use std::fmt;

/// Why a line is not done.
#[derive(Clone, Copy)]
pub enum Trouble {
    NoMemory,
    /// the line cannot be read
    Unread(Unreadable),
    /// it needs a pool, and there is none
    NoPool,
    /// the pool has no site of that number
    NoSite,
    /// there is no office of that client
    NoOffice,
    /// the office has no open write to go on with
    NoWrite,
}

impl From<AllocError> for Trouble {
    fn from(_error: AllocError) -> Trouble {
        Trouble::NoMemory
    }
}

impl<T: Drop> From<AllocFailed<T>> for Trouble {
    fn from(_error: AllocFailed<T>) -> Trouble {
        Trouble::NoMemory
    }
}

impl From<Unreadable> for Trouble {
    fn from(why: Unreadable) -> Trouble {
        Trouble::Unread(why)
    }
}

/// What is said behind the number of the line.
impl fmt::Display for Trouble {
    fn fmt<W: fmt::Write>(&self, f: &mut fmt::Formatter<W>) -> fmt::Result {
        let reason = match self {
            Trouble::Unread(why) => return write!(f, "cannot be read: {why}"),
            Trouble::NoMemory => "there is no memory",
            Trouble::NoPool => "there is no pool yet",
            Trouble::NoSite => "the pool has no such site",
            Trouble::NoOffice => "there is no such office yet",
            Trouble::NoWrite => "the office has no open write",
        };
        write!(f, "cannot be done: {reason}")
    }
}
