//! A node as a whole.
ghost use Rattle.std.specs.Prelude.{◌≡◌, ◌+◌, ◌<◌, ◌≤◌, ◌++◌, length};
ghost use Rattle.vm_tree.specs.Subtree.{kids, entry_of};
ghost use Rattle.vm_tree.specs.HasKids.{HasKids};
ghost use Rattle.vm_tree.specs.Joins.{AreJoined};

use crate::entries::Entry;
use crate::leaf::Leaf;
use crate::node::{Kids, Node};
use crate::shrink::join_children;
use crate::slots::no_slots;

impl<L: Leaf> Node<L> {
    /// Returns the number of children.
    #[tactic(auto, using(crate::proofs::Sums::has_kids))]
    pub(crate) fn len(&self) -> usize
        ensures kids { HasKids L.enough result self.now }
        ensures fits { result ≤ 16 }
    {
        self.entries.len()
    }

    /// Returns what is stored beside this node.
    #[tactic(auto, using(crate::proofs::Unders::sum_under, crate::proofs::Sums::entry_is))]
    pub(crate) fn entry(&self) -> Entry
        requires { 0 < kids self.now }
        ensures { result ≡ entry_of L.entry self.now }
    {
        self.entries.sum()
    }

    /// Appends the children of the next node if there is room for all, and returns true: then it has none.
    /// Otherwise children are moved, so that both have half of them.
    pub(crate) fn join(&mut self, next: &mut Node<L>) -> bool
        requires height { self.old.height ≡ next.old.height }
        requires some { (0 < kids self.old) × (0 < kids next.old) }
        requires enough { 5 ≤ kids self.old + kids next.old }
        ensures { AreJoined L.enough self.old.height (self.old.leaves ++ next.old.leaves) result self.new next.new }
    {
        match (&mut self.kids, &mut next.kids) {
            (Kids::Leaves(low), Kids::Leaves(high)) => {
                join_children(&mut self.entries, low, &mut next.entries, high)
            }
            (Kids::Nodes(low), Kids::Nodes(high)) => {
                if join_children(&mut self.entries, low, &mut next.entries, high) {
                    next.kids = Kids::Leaves(no_slots());
                    return true;
                }
                false
            }
            _ => unreachable!(),
        }
    }
}
