// The protocol of a pool, as theory: 3f + 1 sites keep one register object, although f of them may lie.
//
// `specs/` says what sites write (Words), what a quorum is (Quorum), what certified, confirmed, closed and counting
// mean and what the book is (Book), what a sound site does (Moves), and what is promised (Promise). All of it is in the
// protocol's own words: claims, rounds, places. No byte of a message is seen here, and no signature; a crate that
// reads messages shows that each call it accepts is one of the moves, and has the promise from here.
//
// The functions do nothing. Each names a theorem in its contract, so that the crate stands only while the theorem is
// proved, for every kind of object. docs/PROMISE.md says the promise in plain words.
#![tactic(auto)]

ghost use Rattle.protocol.specs.Book.{QuorumsAreSigners};
ghost use Rattle.protocol.specs.Promise.{KeepsOneBook, LivesGoOn};
ghost use Rattle.protocol.specs.Example.{HasALife};

use object::Object;

// In every life of every pool there is one book: no two claims are certified for one round and place, no sound site
// stands more than one place past a round's target, each sound site's writes but for at most the last begin the
// book, confirmed writes stand in it with the answer due, and confirmed readings are of it, and in order.
pub fn keeps_one_book<O: Object>()
    ensures { KeepsOneBook O.Object.rules }
{}

// That a quorum backs a word is that there is a list of 2f + 1 different signers who do.
pub fn quorums_are_signers()
    ensures { QuorumsAreSigners }
{}

// Lives begin with nothing, go on by one call at one sound site, and every moment of a life is a life.
pub fn lives_go_on<O: Object>()
    ensures { LivesGoOn O.Object.rules }
{}

// There is a life with a clash, a round and a strike in it, so that what is promised of lives is promised of something.
pub fn has_a_life<O: Object>()
    ensures { HasALife O.Object.rules }
{}
