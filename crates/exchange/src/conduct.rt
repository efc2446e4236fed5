//! What the sites of a rehearsal do: some are down, and some lie.
use std::fmt;

/// What a site does.
#[derive(Clone, Copy)]
pub struct Conduct {
    /// it can be reached; two facts of a site, neither of which has a value beside it
    pub is_up: bool,
    /// it does as the rules say
    pub is_honest: bool,
}

/// What becomes of a site.
#[derive(Clone, Copy)]
pub enum Change {
    Down,
    Up,
    Lying,
    Honest,
}

impl Conduct {
    /// As each site begins.
    pub const SOUND: Conduct = Conduct {
        is_up: true,
        is_honest: true,
    };

    /// What it does after a change.
    pub fn after(self, change: Change) -> Conduct {
        match change {
            Change::Down => Conduct {
                is_up: false,
                ..self
            },
            Change::Up => Conduct {
                is_up: true,
                ..self
            },
            Change::Lying => Conduct {
                is_honest: false,
                ..self
            },
            Change::Honest => Conduct {
                is_honest: true,
                ..self
            },
        }
    }
}

impl fmt::Display for Change {
    fn fmt<W: fmt::Write>(&self, f: &mut fmt::Formatter<W>) -> fmt::Result {
        f.write_str(match self {
            Change::Down => "is down",
            Change::Up => "is up",
            Change::Lying => "lies: it grants whatever it is asked",
            Change::Honest => "is honest",
        })
    }
}
