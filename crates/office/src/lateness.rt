//! Which of two replies is the later: the one order by which replies are filed, and by which the latest is named.
ghost use Rattle.office.specs.Slots.{later as later_than, later_slot, latest as latest_of};
ghost use Rattle.std.specs.Prelude.{◌≡◌};

use crate::slots::Slot;
use record::{Kind, Statement};

/// By round, then by place, then an ANSWER over a GRANT. No `Ord` says this: of other kinds neither goes over the other.
fn later(one: &Statement, other: &Statement) -> bool
    ensures { result ≡ later_than one.now other.now }
{
    if one.round != other.round {
        one.round > other.round
    } else if one.place != other.place {
        one.place > other.place
    } else {
        one.is(Kind::Answer) && other.is(Kind::Grant)
    }
}

impl Slot {
    /// Whether this slot's reply is later than the other's. Any reply is later than none. No `Ord`, as for the statements themselves.
    pub(crate) fn is_later(&self, other: &Slot) -> bool
        ensures { result ≡ later_slot self.now other.now }
    {
        match (&self.filed, &other.filed) {
            (Some(one), Some(other)) => later(&one.statement, &other.statement),
            (Some(_), None) => true,
            (None, _) => false,
        }
    }
}

/// The site with the latest reply, the lowest of those that are equally late; site 0 where nobody has replied.
pub(crate) fn latest(slots: &[Slot]) -> usize
    ensures { result ≡ latest_of slots.now }
{
    let mut best = 0;
    for (i, slot) in slots.iter().enumerate() {
        if slot.is_later(&slots[best]) {
            best = i;
        }
    }
    best
}
