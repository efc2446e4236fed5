// What a group is asked, and how one is made.
ghost use Rattle.std.specs.Prelude.{◌≡◌, ◌+◌, ◌<◌, ◌≤◌, nat_le, slice_set};
ghost use Rattle.finder.specs.Members.{members};
ghost use Rattle.std.specs.List.{slice_get};

use super::Group;
use crate::order::SITES;

impl Group {
    // The members, in the order of preference.
    pub fn members(&self) -> &[usize]
        ensures { result.now ≡ members self.now }
    {
        &self.sites[0..self.count]
    }

    // The most preferred member; none in a group of nobody.
    pub fn first(&self) -> Option<usize>
        ensures { result ≡ slice_get (members self.now) 0 }
    {
        self.members().first().copied()
    }

    // A group of nobody.
    pub(crate) fn nobody() -> Group
        ensures { result.count ≡ 0 }
    {
        Group {
            sites: [0; SITES],
            count: 0,
        }
    }

    // Puts one more member at the end.
    pub(crate) fn add(&mut self, site: usize)
        requires { self.old.count < 16 }
        ensures placed { self.new.sites ≡ slice_set self.old.sites self.old.count site }
        ensures counted { self.new.count ≡ self.old.count + 1 }
    {
        self.sites[self.count] = site;
        self.count += 1;
    }

    // Whether it has q members or more.
    pub(crate) fn has(&self, q: usize) -> bool
        ensures { result ≡ nat_le q self.now.count }
    {
        q <= self.count
    }

    // Its first q members.
    pub(crate) fn first_of(&self, q: usize) -> Group
        requires { q ≤ self.now.count }
        ensures same { result.sites ≡ self.now.sites }
        ensures counted { result.count ≡ q }
    {
        Group {
            sites: self.sites,
            count: q,
        }
    }
}
