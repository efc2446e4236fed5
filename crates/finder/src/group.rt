// A group of sites: at most as many as there are, in the order of preference. It holds no reply.
ghost use Rattle.std.specs.Prelude.{◌≡◌, ◌≤◌, length};

mod methods;

use crate::order::SITES;

// An array and a count in the place of a vector, since a finder allocates nothing and a group is copied.
#[derive(Clone, Copy)]
pub struct Group {
    sites: [usize; SITES],
    count: usize,
    ghost fits: { count ≤ 16 },
    ghost whole: { length sites ≡ 16 },
}
