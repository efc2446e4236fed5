//! The slots, lent as slices: read, and changed in place where a reply is filed.
ghost use Rattle.office.specs.Slots.{filed_in, filed_among, slot_at};
ghost use Rattle.std.specs.Prelude.{◌≡◌};

use crate::slots::{Slot, Slots};
use record::Record;

/// Files a reply in its signer's slot, where it is later than what stands there.
fn file(slots: &mut [Slot], reply: &Record)
    ensures { slots.new ≡ filed_in slots.old reply.now }
{
    let site = usize::from(reply.statement.signer);
    let holding = Slot {
        filed: Some(*reply),
    };
    let Some(slot) = slots.get(site) else {
        return;
    };
    if holding.is_later(slot) {
        slots[site] = holding;
    }
}

/// The reply that is filed of a site, if any.
pub(crate) fn filed(slots: &[Slot], site: usize) -> Option<Record>
    ensures { result ≡ (slot_at slots.now site).filed }
{
    slots.get(site)?.filed
}

impl Slots {
    /// The slots, site 0's first.
    pub fn view(&self) -> &[Slot]
        ensures { result.now ≡ self.now.at }
    {
        &self.at
    }

    /// Files a reply in its signer's slot, where it is later than what stands there.
    pub(crate) fn take_in(&mut self, reply: &Record)
        ensures { self.new ≡ filed_among self.old reply.now }
    {
        let lent: &mut [Slot] = &mut self.at;
        file(lent, reply);
    }
}
