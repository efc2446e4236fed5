//! A fresh pool.
ghost use Rattle.std.specs.Prelude.{◌≡◌, ◌+◌, ◌*◌, [], map, IfOk};
ghost use Rattle.pool.specs.Delivering.{Fresh};
ghost use Rattle.pool.specs.Lives.{BeginsLives};
ghost use Rattle.pool.specs.Views.{heard, views};
ghost use Rattle.site.specs.Fit.{fitted_f};

use crate::pool::Pool;
use notary::Notary;
use object::Object;
use site::fitting::fitted;
use site::site::Site;
use std::alloc::{AllocError, Global};

impl<N: Notary + Copy, O: Object + Copy> Pool<N, O> {
    /// A pool of 3f + 1 fresh sites that all have this notary, and this object at its value now. An unfit f makes a pool of four.
    pub fn new(heap: Global, f: u8, notary: N, object: O) -> Result<Pool<N, O>, AllocError>
        ensures fresh { IfOk result (λ p. Fresh (fitted_f f 0) (N.means notary) (O.holds object) (views O.rules N.means O.holds p.sites.items) × (map heard p.transcript.items ≡ [])) }
        ensures lives { IfOk result (λ p. BeginsLives O.rules (fitted_f f 0) (N.means notary) (O.holds object) (views O.rules N.means O.holds p.sites.items) (map heard p.transcript.items)) }
    {
        let fit = fitted(f, 0).f;
        let mut sites = Vec::new(heap);
        // a loop over the sites' numbers: a closure could not stop where memory runs out
        for number in 0..3 * fit + 1 {
            sites.push(Site::new(fit, number, notary, object))?;
        }
        Ok(Pool {
            sites,
            transcript: Vec::new(heap),
        })
    }
}
