//! The commands of a scenario, one a line.
use crate::any_pool::AnyPool;
use crate::calls::{Lengths, call};
use crate::rehearsal::rehearsal_notary;
use crate::shown::{RecordsShown, RefusalShown};
use crate::states::StateShown;
use message::quorum;
use notary::KeyedNotary;
use site::fitting::check_figures;
use site::state::State;
use text::hex::from_hex;
use text::line::Line;
use text::trouble::Trouble;
use text::words::{Unreadable, Words};

/// The longest output or board that a line may ask for.
const LONGEST: usize = 1_000_000;

/// A rehearsal: the pool, if one was started, and the keys that everybody knows.
#[derive(Drop)]
pub struct Scenario {
    pub notary: KeyedNotary,
    pub pool: Option<AnyPool>,
}

/// The next word as bytes in hexadecimal, or `-` for none.
pub fn bytes(line: &mut Line<'_>) -> Result<Vec<u8>, Trouble> {
    match line.words.next().ok_or(Unreadable::NoHex)? {
        "-" => Ok(Vec::new(line.heap)),
        word => Ok(from_hex(line.heap, word)?.ok_or(Unreadable::NoHex)?),
    }
}

/// A length, or the usual one where the line has ended.
fn length_or(words: &mut Words<'_>, usual: usize) -> Result<usize, Unreadable> {
    match words.number_or(usual)? {
        length if length <= LONGEST => Ok(length),
        _ => Err(Unreadable::NoNumber),
    }
}

impl Scenario {
    /// With no pool yet.
    pub fn new() -> Scenario {
        Scenario {
            notary: rehearsal_notary(),
            pool: None,
        }
    }

    /// The pool.
    pub fn pool(&self) -> Result<&AnyPool, Trouble> {
        self.pool.as_ref().ok_or(Trouble::NoPool)
    }

    /// The pool, to be called.
    pub fn pool_mut(&mut self) -> Result<&mut AnyPool, Trouble> {
        self.pool.as_mut().ok_or(Trouble::NoPool)
    }

    /// The state of a site, if there is a pool that has it.
    pub fn site_state(&self, site: u8) -> Option<State> {
        self.pool.as_ref()?.state(site)
    }

    /// `pool F titles|slots`: a fresh pool in the place of the one before.
    pub fn restart(&mut self, line: &mut Line<'_>) -> Result<(), Trouble> {
        let f = line.words.number()?;
        let kept = line.words.kept()?;
        line.words.end()?;
        if let Err(refusal) = check_figures(f, 0) {
            let refused = RefusalShown(refusal);
            writeln!(line.answer, "pool {f} {kept} {refused}")?;
            return Ok(());
        }
        let q = quorum(f);
        let n = 3 * usize::from(f) + 1;
        self.pool = Some(AnyPool::new(line.heap, f, kept, &self.notary)?);
        writeln!(line.answer, "pool {f} {kept} sites {n} quorum {q}")?;
        Ok(())
    }

    /// `call SITE HEX [OUTLEN [BOARDLEN]]`: hands bytes to a site.
    fn call(&mut self, line: &mut Line<'_>) -> Result<(), Trouble> {
        let at = line.words.site()?;
        let message = bytes(line)?;
        let usual = Lengths::USUAL;
        let output = length_or(&mut line.words, usual.output)?;
        let board = length_or(&mut line.words, usual.board)?;
        line.words.end()?;
        let lengths = Lengths { output, board };
        let outcome = call(line.heap, self.pool_mut()?, at, message.as_slice(), lengths)?;
        match outcome.result {
            Ok(_) => {
                let records = RecordsShown {
                    notary: &self.notary,
                    site: Some(at),
                    bytes: outcome.written(),
                };
                writeln!(line.answer, "call {at} ok {records}")?;
            }
            Err(refusal) => writeln!(line.answer, "call {at} {}", RefusalShown(refusal))?,
        }
        Ok(())
    }

    /// `seal HEX`: the records with their seals filled in.
    fn seal(&self, line: &mut Line<'_>) -> Result<(), Trouble> {
        let bytes = bytes(line)?;
        line.words.end()?;
        let records = RecordsShown {
            notary: &self.notary,
            site: None,
            bytes: bytes.as_slice(),
        };
        writeln!(line.answer, "seal {records}")?;
        Ok(())
    }

    /// `state SITE`: what a site keeps.
    fn state(&self, line: &mut Line<'_>) -> Result<(), Trouble> {
        let site = line.words.site()?;
        line.words.end()?;
        let state = self.pool()?.state(site).ok_or(Trouble::NoSite)?;
        let shown = StateShown {
            site,
            state: &state,
        };
        writeln!(line.answer, "{shown}")?;
        Ok(())
    }

    /// Does what a line asks for, whose first word is given, and adds the text that answers it.
    pub fn command(&mut self, word: &str, line: &mut Line<'_>) -> Result<(), Trouble> {
        // A match, since each word has a method of its own: a table of them would hold function pointers.
        match word {
            "pool" => self.restart(line),
            "call" => self.call(line),
            "seal" => self.seal(line),
            "state" => self.state(line),
            _ => Err(Trouble::Unread(Unreadable::NoCommand)),
        }
    }
}
