//! The promise of a pool of sites, over its real calls. There is nothing to run: the contract is the theorem.
ghost use Rattle.site.specs.LifeExample.{HasALife};
ghost use Rattle.site.specs.OneBook.{PromiseKept};

use object::Object;

/// Any bytes, outputs and boards are handed to the sound sites of a pool, in any order, over any notary and from any
/// first value of the object. At most f of the 3f + 1 sites are not sound; what sound sites signed was written by
/// them before; and ROUNDs for one round are equal. Then, at every moment, the sites' outputs tell of one book,
/// and no call is refused for standing too far past a round's target.
pub fn promise<O: Object>()
    ensures { PromiseKept O.Object.rules }
{}

/// There is a life of real bytes that meets the premises, with a write that is taken back, a round, and a reading in it.
pub fn has_a_life()
    ensures { HasALife }
{}
