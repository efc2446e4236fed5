//! A rehearsal: a pool, its offices, and the commands that drive them.
use crate::buffers::Buffers;
use crate::calls::{Accepted, Given, JudgedShown};
use crate::conduct::{Change, Conduct};
use crate::seats::Seats;
use message::Refusal;
use office::Judged;
use record::Operation;
use scenario::commands::{Scenario, bytes};
use scenario::shown::{RecordsShown, RefusalShown};
use std::alloc::{AllocError, Global};
use text::line::Line;
use text::trouble::Trouble;
use text::words::Unreadable;

/// How many sites a pool has at most.
const SITES: usize = 16;

/// A pool, if one was started, and the offices that were made for it.
#[derive(Drop)]
pub struct Rehearsal {
    pub(crate) scenario: Scenario,
    pub(crate) seats: Seats,
    pub(crate) sites: [Conduct; SITES],
    /// the last nonce of a reading
    pub(crate) nonce: u64,
}

/// The next word as an operation, in hexadecimal.
fn operation(line: &mut Line<'_>) -> Result<Operation, Trouble> {
    match <[u8; 16]>::try_from(bytes(line)?.as_slice()) {
        Ok(operation) => Ok(operation),
        Err(_) => Err(Trouble::Unread(Unreadable::NoOperation)),
    }
}

/// The next word as a nonce, in hexadecimal.
fn nonce(line: &mut Line<'_>) -> Result<u64, Trouble> {
    match <[u8; 8]>::try_from(bytes(line)?.as_slice()) {
        Ok(nonce) => Ok(u64::from_be_bytes(nonce)),
        Err(_) => Err(Trouble::Unread(Unreadable::NoNonce)),
    }
}

impl Rehearsal {
    /// With no pool and no office yet.
    pub fn new(heap: Global) -> Result<Rehearsal, AllocError> {
        Ok(Rehearsal {
            scenario: Scenario::new(),
            seats: Seats::new(heap)?,
            sites: [Conduct::SOUND; SITES],
            nonce: 0,
        })
    }

    /// `office C [LAST]`: makes an office, which goes on after its last number.
    fn office(&mut self, line: &mut Line<'_>) -> Result<(), Trouble> {
        let client = line.words.client()?;
        let last = line.words.number_or(0)?;
        line.words.end()?;
        let f = self.scenario.pool()?.faulty();
        self.seats.make(f, client, &self.scenario.notary, last);
        writeln!(line.answer, "office {client} ok")?;
        Ok(())
    }

    /// Adds the records that an office wrote, with their seals filled in, or why it was refused.
    fn push_own(
        &self,
        line: &mut Line<'_>,
        buffers: &Buffers,
        res: Result<usize, Refusal>,
    ) -> Result<(), Trouble> {
        match res {
            Ok(count) => {
                let records = RecordsShown {
                    notary: &self.scenario.notary,
                    site: None,
                    bytes: buffers.written(count),
                };
                writeln!(line.answer, "ok {records}")?;
            }
            Err(refusal) => writeln!(line.answer, "{}", RefusalShown(refusal))?,
        }
        Ok(())
    }

    /// `begin C OP`.
    fn begin(&mut self, line: &mut Line<'_>) -> Result<(), Trouble> {
        let client = line.words.client()?;
        let operation = operation(line)?;
        line.words.end()?;
        let mut buffers = Buffers::new();
        let seat = self.seats.seat(client)?;
        let result = seat.begin(&operation, &mut buffers.output, &mut buffers.board);
        write!(line.answer, "begin {client} ")?;
        self.push_own(line, &buffers, result)
    }

    /// `query C OP NONCE`.
    fn query(&mut self, line: &mut Line<'_>) -> Result<(), Trouble> {
        let client = line.words.client()?;
        let operation = operation(line)?;
        let nonce = nonce(line)?;
        line.words.end()?;
        let mut buffers = Buffers::new();
        let seat = self.seats.seat(client)?;
        let result = seat.query(&operation, nonce, &mut buffers.output, &mut buffers.board);
        write!(line.answer, "query {client} ")?;
        self.push_own(line, &buffers, result)
    }

    /// `take C HEX`.
    fn take(&mut self, line: &mut Line<'_>) -> Result<(), Trouble> {
        let client = line.words.client()?;
        let message = bytes(line)?;
        line.words.end()?;
        let mut buffers = Buffers::new();
        let seat = self.seats.seat(client)?;
        let result = seat.take(message.as_slice(), &buffers.output, &mut buffers.board);
        let taken = Given(result.map(|_| "ok"));
        writeln!(line.answer, "take {client} {taken}")?;
        Ok(())
    }

    /// `judge C`.
    fn judge(&self, line: &mut Line<'_>) -> Result<(), Trouble> {
        let client = line.words.client()?;
        line.words.end()?;
        let mut buffers = Buffers::new();
        let office = self.seats.office(client)?;
        let result = office.judge(&mut buffers.output, &mut buffers.board);
        writeln!(line.answer, "judge {client} {}", shown(&buffers, result))?;
        Ok(())
    }

    /// `judgeread C`.
    fn judge_reading(&self, line: &mut Line<'_>) -> Result<(), Trouble> {
        let client = line.words.client()?;
        line.words.end()?;
        let mut buffers = Buffers::new();
        let office = self.seats.office(client)?;
        let result = office.judge_reading(&buffers.output, &mut buffers.board);
        writeln!(
            line.answer,
            "judgeread {client} {}",
            shown(&buffers, result)
        )?;
        Ok(())
    }

    /// `close C`.
    fn close(&mut self, line: &mut Line<'_>) -> Result<(), Trouble> {
        let client = line.words.client()?;
        line.words.end()?;
        let closed = Given(
            self.seats
                .seat(client)?
                .close()
                .map(|answer| Accepted(answer)),
        );
        writeln!(line.answer, "close {client} {closed}")?;
        Ok(())
    }

    /// `giveup C`.
    fn give_up(&mut self, line: &mut Line<'_>) -> Result<(), Trouble> {
        let client = line.words.client()?;
        line.words.end()?;
        let given_up = Given(self.seats.seat(client)?.give_up().map(|_| "ok"));
        writeln!(line.answer, "giveup {client} {given_up}")?;
        Ok(())
    }

    /// `pool F titles|slots`: another pool, with no office yet and every site up and honest.
    fn restart(&mut self, line: &mut Line<'_>) -> Result<(), Trouble> {
        self.seats.forget();
        self.sites = [Conduct::SOUND; SITES];
        self.scenario.restart(line)
    }

    /// The commands for people, and then those on single sites.
    fn by_people(&mut self, word: &str, line: &mut Line<'_>) -> Result<(), Trouble> {
        match word {
            "write" => self.write(line),
            "read" => self.read(line),
            "again" => self.again(line),
            "down" => self.change(Change::Down, line),
            "up" => self.change(Change::Up, line),
            "lie" => self.change(Change::Lying, line),
            "honest" => self.change(Change::Honest, line),
            "resend" => self.resend(line),
            "compare" => self.compare(line),
            _ => self.scenario.command(word, line),
        }
    }

    /// Does what a line asks for, whose first word is given, and adds the text that answers it.
    pub fn command(&mut self, word: &str, line: &mut Line<'_>) -> Result<(), Trouble> {
        // A match, since each word has a method of its own: a table of them would hold function pointers.
        match word {
            "pool" => self.restart(line),
            "office" => self.office(line),
            "begin" => self.begin(line),
            "query" => self.query(line),
            "take" => self.take(line),
            "judge" => self.judge(line),
            "judgeread" => self.judge_reading(line),
            "close" => self.close(line),
            "giveup" => self.give_up(line),
            _ => self.by_people(word, line),
        }
    }
}

/// What an office judged, with the records that go with it.
fn shown(buffers: &Buffers, res: Result<Judged, Refusal>) -> Given<JudgedShown<'_>> {
    Given(res.map(|judged| JudgedShown {
        judged,
        written: buffers.written(judged.count),
    }))
}
