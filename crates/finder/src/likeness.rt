// A question that can be asked of replies of a kind R: which of them count, and which two are alike.
ghost use Rattle.std.specs.Prelude.{◌≡◌, Bool, true};

pub trait Likeness<R> {
    // this reply counts
    ghost counted: { Self → R → Bool };

    // these two replies are alike, whether they count or not
    ghost likened: { Self → R → R → Bool };

    // Whether this reply counts. An empty slot does not.
    fn counts(&self, reply: &R) -> bool
        ensures { result ≡ counted self.now reply.now };

    // Whether these two replies are alike: no `==`, since one kind of reply has several likenesses.
    fn alike(&self, one: &R, other: &R) -> bool
        ensures { result ≡ likened self.now one.now other.now };

    ghost reflexive: { (k : Self) (x : R) → likened k x x ≡ true };

    ghost symmetric: { (k : Self) (x y : R) → likened k x y ≡ true → likened k y x ≡ true };

    ghost transitive: { (k : Self) (x y z : R) → likened k x y ≡ true → likened k y z ≡ true → likened k x z ≡ true };
}
