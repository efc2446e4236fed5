//! Requests by client, and the settlement that they make.
ghost use Rattle.std.specs.Prelude.{◌≡◌, ◌+◌, ◌^◌, ◌<◌, Some};
ghost use Rattle.message.specs.Saying.{requests_in};
ghost use Rattle.site.specs.Settling.{claim_for, mark_claim, pending, all_pending, how_many, last_place, request_at, settled_at};
ghost use Rattle.site.specs.Tables.{no_entries, tabled};

use crate::entries::put;
use crate::state::{Done, Requests, Settlement};
use message::{Part, Request};
use record::limits::MARK;
use record::{Claim, Place, Round};

/// The request of an entry, if it is still to be done.
fn still_pending(request: &Option<Request>, last: &Option<Done>) -> Option<Request>
    ensures { result ≡ pending request.now last.now }
{
    request.filter(|request| last.is_none_or(|last| last.claim.number < request.number))
}

/// The claim of a request to a round and place.
pub fn claim_for(request: &Request, round: Round, place: Place) -> Claim
    ensures { result ≡ claim_for request.now round place }
{
    Claim {
        client: request.client,
        number: request.number,
        round,
        place,
        operation: request.operation,
    }
}

/// The claim of a round's mark to a place.
pub fn mark_claim(round: Round, place: Place) -> Claim
    ensures { result ≡ mark_claim round place }
{
    Claim {
        client: MARK,
        number: round,
        round,
        place,
        operation: [0; 16],
    }
}

/// The requests of a part, each at its client's entry.
#[tactic(auto, using(crate::proofs::Turning::entered, crate::proofs::Turning::none_left))]
pub fn table_of(part: &Part<'_>) -> Requests
    ensures { result ≡ tabled (requests_in part.now.bytes.now) no_entries }
{
    let mut table = [None; 16];
    // a loop: a `fold` would hand the table from call to call of a closure, and says no more
    for i in 0..part.count() {
        let request = part.request(i);
        put(&mut table, request.client, Some(request));
    }
    table
}

/// The requests of a table that are still to be done.
#[tactic(auto, using(crate::proofs::Turning::filled_in))]
pub fn pending_of(requests: &Requests, done: &[Option<Done>; 16]) -> Requests
    ensures { result ≡ all_pending requests.now done.now }
{
    let mut out = [None; 16];
    // `array::from_fn` in place of the loop did not prove: of a closure that it calls in turn nothing is known between the calls
    for i in 0..16 {
        out[i] = still_pending(&requests[i], &done[i]);
    }
    out
}

/// How many requests a table has.
fn count(requests: &Requests) -> usize
    ensures { result ≡ how_many requests.now }
{
    requests.iter().filter(|request| request.is_some()).count()
}

/// The claim of a table's requests to a place: they have the places from `first` on, in their clients' order.
#[tactic(auto, using(std::proofs::lemmas::List::at_drop_all, crate::proofs::Turning::passed_none, crate::proofs::Turning::passed_some, crate::proofs::Turning::found_some))]
fn request_at(requests: &Requests, round: Round, first: u64, place: Place) -> Option<Claim>
    requires { first + 16 < 2 ^ 64 }
    ensures { result ≡ request_at requests.now round first place }
{
    let mut at = first;
    // a loop: of `iter().flatten().nth(..)` it did not prove which request it gives
    for request in requests {
        if let Some(request) = request {
            if at == u64::from(place) {
                return Some(claim_for(request, round, place));
            }
            at += 1;
        }
    }
    None
}

impl Settlement {
    /// The last place of a settlement.
    pub fn last_place(&self) -> u64
        ensures { result ≡ last_place self.now }
    {
        u64::from(self.target) + 1 + count(&self.requests) as u64
    }

    /// The claim to a place, if the settlement has one.
    pub fn claim_at(&self, round: Round, place: Place) -> Option<Claim>
        ensures { result ≡ settled_at (Some self.now) round place }
    {
        if u64::from(place) == u64::from(self.target) + 1 {
            return Some(mark_claim(round, place));
        }
        request_at(&self.requests, round, u64::from(self.target) + 2, place)
    }
}
