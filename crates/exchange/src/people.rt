//! The commands for people: whole exchanges, sites that come and go, and whether all sites agree.
use crate::conduct::Change;
use crate::rehearsal::Rehearsal;
use record::{Claim, Operation};
use site::state::State;
use std::fmt;
use text::deed::Deed;
use text::hex::{Hex, from_hex};
use text::line::Line;
use text::trouble::Trouble;
use text::words::{Unreadable, Words};

/// The claim of the write that a site has done last, if it has done one.
fn last_claim(state: &State) -> Option<Claim> {
    state.ledger.current.map(|current| current.claim)
}

/// Whether two sites have done the same writes, as far as their states tell. No `==`: two sites of one book may be in different rounds.
fn same_book(a: &State, b: &State) -> bool {
    a.ledger.place == b.ledger.place && last_claim(a) == last_claim(b)
}

/// What a client wants done: an operation in words, or its sixteen bytes.
#[derive(Clone, Copy)]
enum Wish {
    Deed(Deed),
    Bytes(Operation),
}

impl Wish {
    /// The sixteen bytes that the object is given.
    fn operation(&self) -> Operation {
        match self {
            Wish::Deed(deed) => deed.operation(),
            Wish::Bytes(operation) => *operation,
        }
    }
}

impl fmt::Display for Wish {
    fn fmt<W: fmt::Write>(&self, f: &mut fmt::Formatter<W>) -> fmt::Result {
        match self {
            Wish::Deed(deed) => write!(f, "{deed}"),
            Wish::Bytes(operation) => write!(f, "{}", Hex(operation)),
        }
    }
}

/// Who wants an operation done.
#[derive(Clone, Copy)]
struct Asked {
    client: u8,
    operation: Operation,
}

impl Rehearsal {
    /// An operation in words or in hexadecimal.
    fn wish(&self, line: &mut Line<'_>) -> Result<Wish, Trouble> {
        let kept = self.scenario.pool()?.kept();
        let word = line.words.next().ok_or(Unreadable::NoDeed)?;
        let bytes = from_hex(line.heap, word)?;
        match bytes.and_then(|bytes| <[u8; 16]>::try_from(bytes.as_slice()).ok()) {
            Some(operation) => Ok(Wish::Bytes(operation)),
            None => Ok(Wish::Deed(line.words.deed(kept, word)?)),
        }
    }

    /// Makes the office of a client where there is none yet.
    fn make_seat(&mut self, client: u8) -> Result<(), Trouble> {
        if !self.seats.has(client) {
            let f = self.scenario.pool()?.faulty();
            self.seats.make(f, client, &self.scenario.notary, 0);
        }
        Ok(())
    }

    /// Who wants what, with the line that says so; the client then has an office.
    fn asked(&mut self, line: &mut Line<'_>) -> Result<Asked, Trouble> {
        let client = line.words.client()?;
        let wish = self.wish(line)?;
        line.words.end()?;
        self.make_seat(client)?;
        writeln!(line.answer, "client {client} {wish}")?;
        Ok(Asked {
            client,
            operation: wish.operation(),
        })
    }

    /// `write C OPERATION`.
    pub(crate) fn write(&mut self, line: &mut Line<'_>) -> Result<(), Trouble> {
        let asked = self.asked(line)?;
        self.write_through(asked.client, &asked.operation, line)
    }

    /// `read C OPERATION`.
    pub(crate) fn read(&mut self, line: &mut Line<'_>) -> Result<(), Trouble> {
        let asked = self.asked(line)?;
        self.read_through(asked.client, &asked.operation, line)
    }

    /// `again C`: goes on with the open write.
    pub(crate) fn again(&mut self, line: &mut Line<'_>) -> Result<(), Trouble> {
        let client = line.words.client()?;
        line.words.end()?;
        let write = self.seats.office(client)?.desk().write;
        let number = write.ok_or(Trouble::NoWrite)?.number;
        writeln!(line.answer, "client {client} goes on with request {number}")?;
        self.go_on(client, line)
    }

    /// A site of the pool, and no word more.
    fn known_site(&self, words: &mut Words<'_>) -> Result<u8, Trouble> {
        let site = words.site()?;
        words.end()?;
        self.scenario.pool()?;
        if site >= self.count() {
            return Err(Trouble::NoSite);
        }
        Ok(site)
    }

    /// `down SITE`, `up SITE`, `lie SITE` and `honest SITE`.
    pub(crate) fn change(&mut self, change: Change, line: &mut Line<'_>) -> Result<(), Trouble> {
        let site = self.known_site(&mut line.words)?;
        if let Some(conduct) = self.sites.get_mut(usize::from(site)) {
            *conduct = conduct.after(change);
        }
        writeln!(line.answer, "site {site} {change}")?;
        Ok(())
    }

    /// `resend SITE`: hands a site the certificates and ROUNDs that it missed.
    pub(crate) fn resend(&mut self, line: &mut Line<'_>) -> Result<(), Trouble> {
        let site = self.known_site(&mut line.words)?;
        writeln!(line.answer, "site {site} is handed what the others were")?;
        self.resend_to(site, line)
    }

    /// `compare`: where each site stands, and whether all agree.
    pub(crate) fn compare(&mut self, line: &mut Line<'_>) -> Result<(), Trouble> {
        line.words.end()?;
        let pool = self.scenario.pool()?;
        let first = pool.state(0).ok_or(Trouble::NoPool)?;
        writeln!(line.answer, "the sites stand")?;
        let mut agree = true;
        // a loop over the sites' numbers, each with its line: a closure could not leave by `?`
        for site in 0..self.count() {
            if let Some(state) = pool.state(site) {
                let stage = state.stage;
                let round = state.round;
                let place = state.ledger.place;
                writeln!(
                    line.answer,
                    "  site {site}: {stage}, round {round}, place {place}"
                )?;
                agree = agree && same_book(&first, &state);
            }
        }
        let said = if agree {
            "all sites agree"
        } else {
            "the sites do not agree"
        };
        writeln!(line.answer, "  {said}")?;
        Ok(())
    }
}
