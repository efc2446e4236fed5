//! An office: its figures, its notary and its desk.
ghost use Rattle.office.specs.Calls.{clear_desk};
ghost use Rattle.office.specs.Filed.{Sound};
ghost use Rattle.office.specs.Fit.{fitted_f, fitted_client};
ghost use Rattle.std.specs.Prelude.{◌≡◌};

mod asks;
mod ends;
mod judges;
mod takes;

use crate::desk::Desk;
use crate::figures::Figures;
use crate::fitting::fitted;
use notary::Notary;

/// One client's office in a pool, over any notary.
#[derive(Drop)]
pub struct Office<N: Notary> {
    figures: Figures,
    notary: N,
    desk: Desk,
    // every reply that is filed is good
    ghost sound: { Sound figures.f figures.client (N.means notary) desk },
}

impl<N: Notary> Office<N> {
    /// A fresh office, before its first write. Unfit figures make client 0 of f = 1.
    pub fn new(f: u8, client: u8, notary: N) -> Office<N>
        ensures figures { (result.figures.f ≡ fitted_f f client) × (result.figures.client ≡ fitted_client f client) }
        ensures desk { result.desk ≡ clear_desk 0 }
        ensures kept { result.notary ≡ notary }
    {
        Office::resume(f, client, notary, 0)
    }

    /// An office that goes on after the number of its last write, as after a restart of its host. Unfit figures make client 0 of f = 1.
    pub fn resume(f: u8, client: u8, notary: N, last: u32) -> Office<N>
        ensures figures { (result.figures.f ≡ fitted_f f client) × (result.figures.client ≡ fitted_client f client) }
        ensures desk { result.desk ≡ clear_desk last }
        ensures kept { result.notary ≡ notary }
    {
        Office {
            figures: fitted(f, client),
            notary,
            desk: Desk::after(last),
        }
    }

    /// What is open, and the replies to it.
    pub fn desk(&self) -> &Desk
        ensures { result.now ≡ self.now.desk }
    {
        &self.desk
    }
}
