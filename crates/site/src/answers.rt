//! What a site refuses, and what it answers from what it has done.
ghost use Rattle.std.specs.Prelude.{◌≡◌, ◌<◌, OnOk};
ghost use Rattle.site.specs.Answers.{stored as stored_for, room as room_at, queued as queued_for, in_round, placed as placed_at, taken as taken_at};

use crate::state::Done;
use message::{Request, SiteFault};
use record::limits::HIGHEST_ROUND;
use record::{Claim, Operation, Place, Round, Statement};

/// A request beside its client's last write: the stored ANSWER where it is the same request, none where it is new. An option in a
/// result, since a refusal, an answer and a new request are three outcomes, and `?` takes the first.
pub fn stored(
    site: u8,
    last: &Option<Done>,
    number: u32,
    operation: &Operation,
    index: usize,
) -> Result<Option<Statement>, SiteFault>
    ensures { result ≡ stored_for site last.now number operation.now index }
{
    let Some(last) = last else {
        return Ok(None);
    };
    if number < last.claim.number {
        return Err(SiteFault::Old(index));
    }
    if number != last.claim.number {
        return Ok(None);
    }
    if *operation == last.claim.operation {
        Ok(Some(Statement::answer(site, &last.claim, last.answer)))
    } else {
        Err(SiteFault::Spent(index))
    }
}

/// There is a place to grant, up to the limit of places.
fn room(place: Place, index: usize) -> Result<(), SiteFault>
    ensures { result ≡ room_at place index }
{
    if place >= HIGHEST_ROUND {
        return Err(SiteFault::UsedUp(index));
    }
    Ok(())
}

/// A new request beside the one of its client that waits.
pub fn queued(
    out: &Option<Claim>,
    waits: &Option<Request>,
    request: &Request,
    place: Place,
    index: usize,
) -> Result<(), SiteFault>
    ensures { result ≡ queued_for out.now waits.now request.now place index }
{
    let Some(waits) = waits else {
        return room(place, index);
    };
    if waits != request {
        return Err(SiteFault::Busy(index));
    }
    match out {
        Some(_) => Ok(()),
        None => room(place, index),
    }
}

/// What names the round that is due.
fn in_round(named: Round, due: Round) -> Result<(), SiteFault>
    ensures { result ≡ in_round named due }
{
    if named > due {
        return Err(SiteFault::Ahead);
    }
    if named < due {
        return Err(SiteFault::Stale);
    }
    Ok(())
}

/// A claim beside the round that is due and the place.
pub fn placed(due: Round, place: Place, claim: &Claim) -> Result<(), SiteFault>
    ensures { result ≡ placed_at due place claim.now }
{
    in_round(claim.round, due)?;
    if claim.place <= place {
        return Err(SiteFault::Taken);
    }
    if claim.place - place > 1 {
        return Err(SiteFault::Gap);
    }
    Ok(())
}

/// A ROUND beside a site's round and place.
pub fn taken(round: Round, place: Place, named: Round, target: Place) -> Result<(), SiteFault>
    ensures value { result ≡ taken_at round place named target }
    ensures low { OnOk result ((round < 2000000000) × (target < 2000000000)) }
{
    in_round(named, round)?;
    if round >= HIGHEST_ROUND || target >= HIGHEST_ROUND {
        return Err(SiteFault::UsedUp(0));
    }
    if place > target + 1 {
        return Err(SiteFault::TooFar);
    }
    Ok(())
}
