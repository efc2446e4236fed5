//! A site: its figures, its notary, its object and its state.
ghost use Rattle.site.specs.Call.{call as call_of, Leaves, fresh};
ghost use Rattle.site.specs.Fit.{fitted_f, fitted_number};
ghost use Rattle.site.specs.OneBook.{InEveryLife};
ghost use Rattle.std.specs.Prelude.{◌≡◌};

use crate::figures::Figures;
use crate::fitting::fitted;
use crate::replica::Replica;
use crate::state::{FRESH, State};
use message::Refusal;
use notary::Notary;
use object::Object;

/// One site of a pool, over any notary and any object.
#[derive(Drop)]
pub struct Site<N: Notary, O: Object> {
    figures: Figures,
    notary: N,
    replica: Replica<O>,
}

impl<N: Notary, O: Object> Site<N, O> {
    /// A fresh site: OPEN in round 0, at place 0, with an object at any value. Unfit figures make number 0 of f = 1.
    pub fn new(f: u8, number: u8, notary: N, object: O) -> Site<N, O>
        ensures figures { (result.figures.f ≡ fitted_f f number) × (result.figures.number ≡ fitted_number f number) }
        ensures fresh { result.replica.state ≡ fresh }
        ensures kept { (result.notary ≡ notary) × (result.replica.object ≡ object) }
    {
        Site::resume(f, number, notary, object, FRESH)
    }

    /// A site that goes on from a state that was kept, as after a restart of its host. Any state is taken as it is. Unfit
    /// figures make number 0 of f = 1.
    pub fn resume(f: u8, number: u8, notary: N, object: O, state: State) -> Site<N, O>
        ensures figures { (result.figures.f ≡ fitted_f f number) × (result.figures.number ≡ fitted_number f number) }
        ensures kept { (result.notary ≡ notary) × (result.replica ≡ record { state = state; object = object }) }
    {
        Site {
            figures: fitted(f, number),
            notary,
            replica: Replica { state, object },
        }
    }

    /// What the site keeps, apart from its object.
    pub fn state(&self) -> &State
        ensures { result.now ≡ self.now.replica.state }
    {
        &self.replica.state
    }

    /// The object that the site keeps.
    pub fn object(&self) -> &O
        ensures { result.now ≡ self.now.replica.object }
    {
        &self.replica.object
    }

    /// A call: the message's bytes, the output for the reply, and the board. Gives the number of bytes written, or a refusal.
    ///
    /// What it leaves is what the rules say, for any bytes and any buffers. And in every life of a pool of such sites, this
    /// call leads to the life with this event, and the promise holds of it: the pool keeps one book.
    pub fn call(
        &mut self,
        message: &[u8],
        output: &mut [u8],
        board: &mut [u8],
    ) -> Result<usize, Refusal>
        ensures leaves { Leaves O.rules (call_of O.rules self.old.figures.f self.old.figures.number (N.means self.old.notary) self.old.replica.state (O.holds self.old.replica.object) message.now output.old board.old) self.new.replica.state (O.holds self.new.replica.object) output.new board.new result }
        // that notary and figures stay is what the call promises, and no fact about a site
        ensures same { (self.new.notary ≡ self.old.notary) × (self.new.figures ≡ self.old.figures) }
        ensures lives { InEveryLife O.rules self.old.figures.f self.old.figures.number (N.means self.old.notary) self.old.replica.state (O.holds self.old.replica.object) message.now output.old board.old self.new.replica.state (O.holds self.new.replica.object) output.new result }
    {
        self.replica
            .answer(&self.figures, &self.notary, message, output, board)
    }
}
