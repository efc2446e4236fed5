//! A whole write: an office asks, judges what it hears, and sends what the verdict wants, until it has the answer.
use crate::buffers::Buffers;
use crate::rehearsal::Rehearsal;
use crate::turn::Turn;
use office::Verdict;
use record::Operation;
use text::line::Line;
use text::meaning::WriteAnswer;
use text::trouble::Trouble;

/// How often an office asks again before it leaves the write open.
const TURNS: u8 = 6;

/// A verdict, with the bytes that go with it.
#[derive(Drop)]
struct Found {
    verdict: Verdict,
    message: Vec<u8>,
}

impl Rehearsal {
    /// JUDGE at an office, with the line of its verdict.
    fn judged(&self, client: u8, line: &mut Line<'_>) -> Result<Found, Trouble> {
        let mut buffers = Buffers::new();
        let office = self.seats.office(client)?;
        let Ok(found) = office.judge(&mut buffers.output, &mut buffers.board) else {
            return Err(Trouble::NoOffice);
        };
        writeln!(line.answer, "  verdict {}", found.verdict)?;
        Ok(Found {
            verdict: found.verdict,
            message: Vec::from_slice(line.heap, buffers.written(found.count))?,
        })
    }

    /// Sends the REQUEST of an office's open write, and shows the replies to the office.
    fn ask(&mut self, client: u8, line: &mut Line<'_>) -> Result<(), Trouble> {
        let request = self.open_request(client).ok_or(Trouble::NoWrite)?;
        let replies = self.broadcast(&request, line)?;
        self.take_all(client, &replies)
    }

    /// Ends a write that has its answer.
    fn finish(&mut self, client: u8, line: &mut Line<'_>) -> Result<(), Trouble> {
        let kept = self.scenario.pool()?.kept();
        if let Ok(answer) = self.seats.seat(client)?.close() {
            let means = WriteAnswer { kept, answer };
            writeln!(line.answer, "  answer {answer}, {means}")?;
        }
        Ok(())
    }

    /// Judges, and ends the write where it has its answer; else gives what to follow. None is no error: the write is done.
    fn judged_open(&mut self, client: u8, line: &mut Line<'_>) -> Result<Option<Found>, Trouble> {
        let found = self.judged(client, line)?;
        if let Verdict::Done { .. } = found.verdict {
            self.finish(client, line)?;
            return Ok(None);
        }
        Ok(Some(found))
    }

    /// Sends a certificate, and judges what the sites answer.
    fn certify(
        &mut self,
        client: u8,
        certificate: &[u8],
        line: &mut Line<'_>,
    ) -> Result<Turn, Trouble> {
        let replies = self.broadcast(certificate, line)?;
        self.take_all(client, &replies)?;
        match self.judged_open(client, line)? {
            Some(_) => Ok(Turn::More),
            None => Ok(Turn::Last),
        }
    }

    /// Hands a clash to the sites, with the office's request.
    fn clash(&mut self, client: u8, found: Found, line: &mut Line<'_>) -> Result<(), Trouble> {
        let mut message = found.message;
        if let Some(request) = self.open_request(client) {
            message.extend_from_slice(&request)?;
        }
        self.resolve(message.as_slice(), line)
    }

    /// One turn: asks, judges, and follows the verdict.
    fn turn(&mut self, client: u8, line: &mut Line<'_>) -> Result<Turn, Trouble> {
        self.ask(client, line)?;
        let Some(found) = self.judged_open(client, line)? else {
            return Ok(Turn::Last);
        };
        match found.verdict {
            Verdict::Certify => return self.certify(client, found.message.as_slice(), line),
            Verdict::Back => {
                let _ = self.broadcast(found.message.as_slice(), line)?;
            }
            Verdict::Clash => self.clash(client, found, line)?,
            Verdict::Catch { .. } => self.resend_to_all(line)?,
            Verdict::Done { .. } => {}
            Verdict::Wait => {
                writeln!(
                    line.answer,
                    "  too few sites are reached: the write stays open"
                )?;
                return Ok(Turn::Last);
            }
        }
        Ok(Turn::More)
    }

    /// Goes on with an office's open write until it is done, or too few sites are reached.
    pub(crate) fn go_on(&mut self, client: u8, line: &mut Line<'_>) -> Result<(), Trouble> {
        for _ in 0..TURNS {
            if self.turn(client, line)? == Turn::Last {
                return Ok(());
            }
        }
        writeln!(line.answer, "  the write stays open")?;
        Ok(())
    }

    /// Begins a write at an office, and goes on with it.
    pub(crate) fn write_through(
        &mut self,
        client: u8,
        operation: &Operation,
        line: &mut Line<'_>,
    ) -> Result<(), Trouble> {
        let mut buffers = Buffers::new();
        let seat = self.seats.seat(client)?;
        match seat.begin(operation, &mut buffers.output, &mut buffers.board) {
            Ok(_) => self.go_on(client, line),
            Err(refusal) => {
                writeln!(line.answer, "  refused, {}", refusal.name())?;
                Ok(())
            }
        }
    }
}
