// The quorum finder: which q of the sites have sent replies that are alike.
//
// A pool has 16 sites at most, and a slice of replies has that of site i at place i. An office asks the same
// question of several kinds of reply, and of one kind by several likenesses: grants of one claim, grants of one
// round and place, answers to a write, answers to a question. So a likeness is a value of its own, `Likeness<R>`,
// and the finder is written and proved once, for every kind of reply R and every likeness that is reflexive,
// symmetric and transitive. A likeness also says which replies count at all, so that a slot in which no reply
// has been filed stands in the slice and is passed over.
//
// `find` answers for every slice and every q. It gives None exactly where no q different sites have replies that
// count and are alike, each with each. Else it gives q such sites, in the order of preference, and no other q such
// sites are preferred to them: of two groups that is preferred which has the more preferred site where they first
// differ. Today a lower number is preferred. q = 0 is answered by the group of nobody. A slice shorter than 16 has
// no reply from the other sites; what stands in it past place 15 belongs to no site and is not looked at.
//
// It allocates nothing and keeps nothing. Whether a reply is genuine, which replies to file and how large a quorum
// has to be is left to the caller.
#![tactic(auto)]

mod finding;
mod group;
mod likeness;
mod order;
mod replies;

pub use finding::find;
pub use group::Group;
pub use likeness::Likeness;
pub use order::SITES;
