// A value that remembers the one before it, so that the last write can be taken back, once.
ghost use Rattle.std.specs.Prelude.{◌≡◌, is_some, Some, None, unwrap_or};

use std::mem;

#[derive(Clone, Copy)]
pub struct History<V> {
    pub value: V,
    pub earlier: Option<V>,
}

impl<V: Copy> History<V> {
    // Begins at a value, with nothing before it.
    pub fn new(first: V) -> Self
        ensures value { result.value ≡ first }
        ensures earlier { result.earlier ≡ None }
    {
        History {
            value: first,
            earlier: None,
        }
    }

    // Moves on to another value, and remembers the one that it leaves.
    pub fn write(&mut self, next: V)
        ensures value { self.new.value ≡ next }
        ensures earlier { self.new.earlier ≡ Some self.old.value }
    {
        self.earlier = Some(mem::replace(&mut self.value, next));
    }

    // Goes back to the value before the last write, and says whether there was one.
    pub fn take_back(&mut self) -> bool
        ensures said { result ≡ is_some self.old.earlier }
        ensures value { self.new.value ≡ unwrap_or self.old.earlier self.old.value }
        ensures earlier { self.new.earlier ≡ None }
    {
        let Some(earlier) = self.earlier.take() else {
            return false;
        };
        self.value = earlier;
        true
    }
}
