//! Which figures fit, and what becomes of those that do not.
ghost use Rattle.message.specs.Refusals.{refusal_at};
ghost use Rattle.site.specs.Fit.{fit_figures, fitted_f, fitted_number};
ghost use Rattle.std.specs.Prelude.{◌≡◌, if◌then◌else◌, Ok, Err};

use crate::figures::{Figures, HIGHEST_F};
use message::Refusal;

/// Whether f lies from 1 to 5, and the number from 0 to 3f. An office's figures have another bound, so each has its own test.
fn fit(f: u8, number: u8) -> bool
    ensures { result ≡ fit_figures f number }
{
    (1..=HIGHEST_F).contains(&f) && u16::from(number) <= 3 * u16::from(f)
}

/// The check call: whether the figures of a site fit.
pub fn check_figures(f: u8, number: u8) -> Result<(), Refusal>
    ensures { result ≡ (if fit_figures f number then Ok tt else Err (refusal_at 4 0 3)) }
{
    if fit(f, number) {
        Ok(())
    } else {
        Err(Refusal::UNFIT)
    }
}

/// The figures, where they fit; else number 0 of f = 1.
pub fn fitted(f: u8, number: u8) -> Figures
    ensures f { result.f ≡ fitted_f f number }
    ensures number { result.number ≡ fitted_number f number }
{
    if fit(f, number) {
        Figures { f, number }
    } else {
        Figures { f: 1, number: 0 }
    }
}
