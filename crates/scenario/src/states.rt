//! A site's state as one line of text.
ghost use Rattle.std.specs.Iterator.{IsFinite};

use crate::shown::{ClaimShown, DoneShown, RequestShown};
use message::Request;
use record::Round;
use site::state::{Done, Settlement, Stage, State};
use std::fmt;

/// A value, or the word none.
#[derive(Clone, Copy)]
struct OrNone<T>(Option<T>);

impl<T: fmt::Display> fmt::Display for OrNone<T> {
    fn fmt<W: fmt::Write>(&self, f: &mut fmt::Formatter<W>) -> fmt::Result {
        match &self.0 {
            Some(value) => write!(f, "{value}"),
            None => f.write_str("none"),
        }
    }
}

/// Writes values with commas between them, or the word none where there are none.
fn write_list<W: fmt::Write, T: fmt::Display + Drop, I: Iterator<Item = T> + Drop>(
    f: &mut fmt::Formatter<W>,
    items: I,
) -> fmt::Result
    requires can { I.can_next items }
    requires ends { IsFinite (I.remaining items) }
{
    let mut items = items.peekable();
    match items.peek() {
        Some(_) => f.write_joined(items, ","),
        None => f.write_str("none"),
    }
}

/// The requests that wait.
#[derive(Clone, Copy)]
struct Waiting<'a>(&'a [Option<Request>]);

impl fmt::Display for Waiting<'_> {
    fn fmt<W: fmt::Write>(&self, f: &mut fmt::Formatter<W>) -> fmt::Result {
        write_list(
            f,
            self.0
                .iter()
                .filter_map(|slot| slot.map(|request| RequestShown(request))),
        )
    }
}

/// The writes that were done last.
#[derive(Clone, Copy)]
struct LastDone<'a>(&'a [Option<Done>]);

impl fmt::Display for LastDone<'_> {
    fn fmt<W: fmt::Write>(&self, f: &mut fmt::Formatter<W>) -> fmt::Result {
        write_list(
            f,
            self.0
                .iter()
                .filter_map(|slot| slot.map(|done| DoneShown(done))),
        )
    }
}

/// The claims of a settlement of a round: one mark, and at most sixteen requests.
#[derive(Clone, Copy)]
struct Settled<'a> {
    round: Round,
    settlement: &'a Settlement,
}

impl fmt::Display for Settled<'_> {
    fn fmt<W: fmt::Write>(&self, f: &mut fmt::Formatter<W>) -> fmt::Result {
        let Settled { round, settlement } = *self;
        let claims = (1..18u32).filter_map(|above| {
            settlement
                .claim_at(round, settlement.target.saturating_add(above))
                .map(|claim| ClaimShown(claim))
        });
        write_list(f, claims)
    }
}

/// The line of a site's state.
#[derive(Clone, Copy)]
pub struct StateShown<'a> {
    pub site: u8,
    pub state: &'a State,
}

impl fmt::Display for StateShown<'_> {
    fn fmt<W: fmt::Write>(&self, f: &mut fmt::Formatter<W>) -> fmt::Result {
        let site = self.site;
        let State {
            stage,
            round,
            ledger,
            asked,
            settlement,
        } = self.state;
        let place = ledger.place;
        let current = OrNone(ledger.current.map(|current| ClaimShown(current.claim)));
        write!(
            f,
            "state {site} stage={stage} round={round} place={place} current={current}"
        )?;
        let grant = OrNone(asked.out.map(|claim| ClaimShown(claim)));
        let waiting = Waiting(&asked.waiting);
        let done = LastDone(&ledger.done);
        write!(f, " grant={grant} waiting={waiting} done={done}")?;
        let target = OrNone(match stage {
            Stage::Pulling { target, .. } => Some(*target),
            _ => None,
        });
        let settled = OrNone(
            settlement.as_ref().map(|settlement| Settled {
                round: *round,
                settlement,
            }),
        );
        write!(f, " target={target} settlement={settled}")
    }
}
