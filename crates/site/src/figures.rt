//! The figures of a site: the pool's f, and the site's number.
ghost use Rattle.site.specs.Fit.{fit_figures};
ghost use Rattle.std.specs.Prelude.{◌≡◌, true};

use message::limits::HIGHEST_FAULTY;

/// The largest f of a pool.
pub const HIGHEST_F: u8 = HIGHEST_FAULTY;

/// A pool of 3f+1 sites with f from 1 to 5, and one of them, numbered from 0.
#[derive(Clone, Copy)]
pub struct Figures {
    pub f: u8,
    pub number: u8,
    ghost fit: { fit_figures f number ≡ true },
}
