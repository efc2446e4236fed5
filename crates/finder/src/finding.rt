// The search: a class for each site in turn, until one is large enough.
ghost use Rattle.finder.specs.Groups.{best_group, class_of, led_by};
ghost use Rattle.finder.specs.Law.{Best, Quorum};
ghost use Rattle.finder.specs.Members.{members};
ghost use Rattle.finder.specs.Replies.{together};
ghost use Rattle.std.specs.Option.{option_map};
ghost use Rattle.std.specs.Prelude.{◌≡◌};

use crate::group::Group;
use crate::likeness::Likeness;
use crate::order::{SITES, preference};
use crate::replies::Replies;

impl<R, L: Likeness<R>> Replies<'_, R, L> {
    // The sites whose replies go together with the lead's, in this order.
    fn class(&self, order: &[usize; SITES], lead: usize) -> Group
        ensures { members result ≡ class_of (together (L.counted self.now.likeness.now) (L.likened self.now.likeness.now) self.now.replies.now) order.now lead }
    {
        let mut class = Group::nobody();
        for site in order {
            if self.together(lead, *site) {
                class.add(*site);
            }
        }
        class
    }

    // The first q of the first class, in this order, that has so many.
    fn choose(&self, order: &[usize; SITES], q: usize) -> Option<Group>
        ensures { option_map members result ≡ led_by (together (L.counted self.now.likeness.now) (L.likened self.now.likeness.now) self.now.replies.now) order.now q order.now }
    {
        for lead in order {
            let class = self.class(order, *lead);
            if class.has(q) {
                return Some(class.first_of(q));
            }
        }
        None
    }
}

// The most preferred q sites whose replies count and are alike, or none.
pub fn find<R, L: Likeness<R>>(likeness: &L, replies: &[R], q: usize) -> Option<Group>
    ensures found { option_map members result ≡ best_group (together (L.counted likeness.now) (L.likened likeness.now) replies.now) q }
    ensures best { Best (Quorum (L.counted likeness.now) (L.likened likeness.now) replies.now q) (option_map members result) }
{
    Replies { likeness, replies }.choose(&preference(), q)
}
