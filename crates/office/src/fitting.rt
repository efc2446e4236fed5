//! Which figures fit, and what becomes of those that do not.
ghost use Rattle.message.specs.Refusals.{refusal_at};
ghost use Rattle.office.specs.Fit.{fit_figures, fitted_f, fitted_client};
ghost use Rattle.std.specs.Prelude.{◌≡◌, if◌then◌else◌, Ok, Err};

use crate::figures::Figures;
use message::Refusal;
use message::limits::HIGHEST_FAULTY;
use record::limits::HIGHEST_CLIENT;

/// Whether f lies from 1 to 5, and the client from 0 to 15. A site's figures have another bound, so each has its own test.
fn fit(f: u8, client: u8) -> bool
    ensures { result ≡ fit_figures f client }
{
    (1..=HIGHEST_FAULTY).contains(&f) && client <= HIGHEST_CLIENT
}

/// The check call: whether the figures of an office fit.
pub fn check_figures(f: u8, client: u8) -> Result<(), Refusal>
    ensures { result ≡ (if fit_figures f client then Ok tt else Err (refusal_at 4 0 3)) }
{
    if fit(f, client) {
        Ok(())
    } else {
        Err(Refusal::UNFIT)
    }
}

/// The figures, where they fit; else client 0 of f = 1.
pub fn fitted(f: u8, client: u8) -> Figures
    ensures f { result.f ≡ fitted_f f client }
    ensures client { result.client ≡ fitted_client f client }
{
    if fit(f, client) {
        Figures { f, client }
    } else {
        Figures { f: 1, client: 0 }
    }
}
