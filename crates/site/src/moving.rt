//! What a site is once it has done a write, or taken a round.
ghost use Rattle.std.specs.Prelude.{◌≡◌, ◌<◌};
ghost use Rattle.site.specs.Rules.{moved, settlement_of, kept_target, kept_requests, begun};

use crate::reply::Then;
use crate::state::{Ledger, NOBODY, Requests, Settlement, Stage, State};
use crate::tables::pending_of;
use record::Place;

/// The settlement that a site makes once it has reached the target.
fn settlement(ledger: &Ledger, target: Place, requests: &Requests) -> Settlement
    ensures { result ≡ settlement_of ledger.now target requests.now }
{
    Settlement {
        target,
        requests: pending_of(requests, &ledger.done),
    }
}

impl State {
    /// The ledger has one write more: the site goes on to what comes then.
    pub(crate) fn go_on(&mut self, then: Then)
        ensures { self.new ≡ moved self.old self.old.ledger then }
    {
        self.asked = NOBODY;
        match then {
            Then::Stay => {}
            Then::Opens => self.stage = Stage::Open,
            Then::Settle => {
                let made = self.settled();
                self.stage = Stage::Settling {
                    last: made.last_place(),
                };
                self.settlement = Some(made);
            }
        }
    }

    /// The settlement of the requests that a PULLING site keeps.
    fn settled(&self) -> Settlement
        ensures { result ≡ settlement_of self.now.ledger (kept_target self.now.stage) (kept_requests self.now.stage) }
    {
        match &self.stage {
            Stage::Pulling {
                target,
                requests,
                ..
            } => settlement(&self.ledger, *target, requests),
            _ => settlement(&self.ledger, 0, &[None; 16]),
        }
    }

    /// The next round begins: PULLING below the target, else SETTLING.
    pub(crate) fn begin(&mut self, target: Place, requests: &Requests)
        requires { self.old.round < 2000000000 }
        ensures { self.new ≡ begun self.old self.old.ledger target requests.now }
    {
        self.asked = NOBODY;
        if self.ledger.place < target {
            self.stage = Stage::Pulling {
                left: self.round,
                target,
                requests: *requests,
            };
            self.settlement = None;
        } else {
            let made = settlement(&self.ledger, target, requests);
            self.stage = Stage::Settling {
                last: made.last_place(),
            };
            self.settlement = Some(made);
        }
        // the round's number, and no index
        self.round += 1;
    }
}
