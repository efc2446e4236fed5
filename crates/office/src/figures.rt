//! The figures of an office: the pool's f, and the client whose office it is.
ghost use Rattle.office.specs.Fit.{fit_figures};
ghost use Rattle.std.specs.Prelude.{◌≡◌, true};

/// A pool of 3f+1 sites with f from 1 to 5, and one of its sixteen clients, numbered from 0.
#[derive(Clone, Copy)]
pub struct Figures {
    pub f: u8,
    pub client: u8,
    ghost fit: { fit_figures f client ≡ true },
}
