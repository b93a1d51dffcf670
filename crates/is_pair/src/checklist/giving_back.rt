//! Memory that pairs needed which are gone. A list keeps its capacity when its items are removed: without this, an agent that began with
//! many pairs and has one would keep the memory of all.

ghost use Rattle.std.specs.Prelude.{◌≡◌, ◌≤◌, vec_len, vec_capacity};
ghost use Rattle.is_pair.specs.Checklists.{multiset_of, removed_of};

use super::Checklist;

/// A list with less capacity is left as it is.
const SMALL: usize = 2;

/// Gives back the capacity that a list does not use, if it uses less than half. Then there may be less than what was reserved. If the allocation
/// fails, the capacity stays.
fn give_back<T>(list: &mut Vec<T>)
    ensures items { list.new.items ≡ list.old.items }
    ensures len { vec_len list.new ≡ vec_len list.old }
    ensures capacity { vec_capacity list.new ≤ vec_capacity list.old }
{
    let capacity = list.capacity();
    if capacity > SMALL && list.len() < capacity - capacity / 2 {
        list.shrink_to_fit();
    }
}

impl Checklist {
    /// Gives back most of the capacity of the pairs if most are gone, and that of the removed pairs beyond what these pairs and one more need.
    /// What was reserved may be lost, so call it before capacity is reserved. It can't fail.
    pub fn give_back(&mut self)
        ensures multiset { multiset_of self.new ≡ multiset_of self.old }
        ensures removed { removed_of self.new ≡ removed_of self.old }
    {
        give_back(&mut self.pairs);
        give_back(&mut self.index);
        give_back(&mut self.ranks);
        self.removed.give_back(self.pairs.len().saturating_add(1));
    }
}
