// The order of preference among the sites. No other file of the code knows it.
ghost use Rattle.finder.specs.Order.{order};
ghost use Rattle.std.specs.Prelude.{◌≡◌};

// How many sites a pool has at most.
pub const SITES: usize = 16;

// Every site, the most preferred first. A lower number is preferred.
pub(crate) fn preference() -> [usize; SITES]
    ensures { result ≡ order }
{
    [0, 1, 2, 3, 4, 5, 6, 7, 8, 9, 10, 11, 12, 13, 14, 15]
}
