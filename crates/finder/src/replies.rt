// The replies by site, and the question that is asked of them.
ghost use Rattle.finder.specs.Replies.{together};
ghost use Rattle.std.specs.Prelude.{◌≡◌};

use crate::likeness::Likeness;

// Replies, that of site i at place i, and the likeness by which they are compared.
#[derive(Drop)]
pub(crate) struct Replies<'a, R, L: Likeness<R>> {
    pub likeness: &'a L,
    pub replies: &'a [R],
}

impl<R, L: Likeness<R>> Replies<'_, R, L> {
    // Whether two sites have replies that go together: both are there, both count, and they are alike.
    pub(crate) fn together(&self, i: usize, j: usize) -> bool
        ensures { result ≡ together (L.counted self.now.likeness.now) (L.likened self.now.likeness.now) self.now.replies.now i j }
    {
        let likeness = self.likeness;
        match (self.replies.get(i), self.replies.get(j)) {
            (Some(a), Some(b)) => likeness.counts(a) && likeness.counts(b) && likeness.alike(a, b),
            _ => false,
        }
    }
}
