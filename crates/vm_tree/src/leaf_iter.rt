//! The leaves of a tree, from both ends.
ghost use Rattle.std.specs.Prelude.{◌≡◌, ◌<◌, ◌≤◌, ◌++◌, ◌∷◌, [], length, IfSome, IfNone};
ghost use Rattle.vm_tree.specs.Between.{Rise, IsWalk, IsFirstLeft, IsLastLeft, IsWhole, IsBetween, AreBetween};

use crate::leaf::Leaf;
use crate::tree::Tree;
use std::alloc::AllocError;
use std::marker::Model;

/// Returns the first leaf between two addresses, and the addresses between which the others are.
fn after_first<L: Leaf>(tree: &Tree<L>, from: u64, to: u64) -> (&L, u64, u64)
    requires walk { IsWalk L.entry from to tree.now.leaves }
    requires some { from ≤ to }
    ensures { IsFirstLeft L.entry from to tree.now.leaves result.0.now result.1 result.2 }
{
    match tree.leaf_from(from) {
        Some((leaf, next)) => match next {
            Some(next) => (leaf, next, to),
            None => (leaf, 1, 0),
        },
        None => unreachable!(),
    }
}

/// Returns the last leaf between two addresses, and the addresses between which the others are.
fn before_last<L: Leaf>(tree: &Tree<L>, from: u64, to: u64) -> (&L, u64, u64)
    requires walk { IsWalk L.entry from to tree.now.leaves }
    requires some { from ≤ to }
    ensures { IsLastLeft L.entry from to tree.now.leaves result.0.now result.1 result.2 }
{
    let Some((leaf, _)) = tree.leaf_from(to) else {
        unreachable!()
    };
    if from == to {
        return (leaf, 1, 0);
    }
    let Some((lower, _)) = tree.leaf_from(to - 1) else {
        unreachable!()
    };
    let entry = lower.entry();
    (leaf, from, entry.at)
}

/// Returns the first and the last address of a tree, or 1 and 0 if there is no leaf.
fn whole<L: Leaf>(tree: &Tree<L>) -> (u64, u64)
    requires rise { Rise L.entry tree.now.leaves }
    ensures { IsWhole L.entry tree.now.leaves result.0 result.1 }
{
    let Some((low, _)) = tree.leaf_from(0) else {
        return (1, 0);
    };
    let Some((high, next)) = tree.leaf_from(u64::MAX) else {
        unreachable!()
    };
    match next {
        Some(beyond) => {
            let _beyond = beyond;
            unreachable!()
        }
        None => {
            let first = low.entry();
            let last = high.entry();
            (first.at, last.at)
        }
    }
}

/// Returns the addresses of the leaves to which two keys belong, or 1 and 0 if no leaf is between them.
fn ends_between<L: Leaf>(tree: &Tree<L>, low: u64, high: u64) -> (u64, u64)
    requires rise { Rise L.entry tree.now.leaves }
    ensures { IsBetween L.entry low high tree.now.leaves result.0 result.1 }
{
    if high < low {
        return (1, 0);
    }
    let Some((lowest, _)) = tree.leaf_from(low) else {
        return (1, 0);
    };
    let Some((highest, _)) = tree.leaf_from(high) else {
        unreachable!()
    };
    let first = lowest.entry();
    let last = highest.entry();
    (first.at, last.at)
}

/// The leaves of a tree, from both ends.
///
/// Its model is the list of the leaves that it has not returned yet.
#[derive(Drop)]
pub struct LeafIter<'a, L: Leaf> {
    tree: &'a Tree<L>,
    from: u64,
    to: u64,
}

impl<'a, L: Leaf> Model for LeafIter<'a, L> {
    ghost use Rattle.std.specs.Prelude.{List};
    ghost use Rattle.vm_tree.specs.Between.{left_of, IsWalk};

    ghost Value = { List L };

    ghost view = { λ w. left_of L.entry w.from w.to w.tree.now.leaves };

    ghost invariant = { λ w. IsWalk L.entry w.from w.to w.tree.now.leaves };
}

impl<'a, L: Leaf> LeafIter<'a, L> {
    /// Returns the first leaf that is left.
    pub fn next_leaf(&mut self) -> Option<&'a L>
        ensures some { IfSome result (λ leaf. self.old ≡ leaf.now ∷ self.new) }
        ensures none { IfNone result ((self.old ≡ []) × (self.new ≡ [])) }
    {
        if self.to < self.from {
            return None;
        }
        let (leaf, from, to) = after_first(self.tree, self.from, self.to);
        self.from = from;
        self.to = to;
        Some(leaf)
    }

    /// Returns the last leaf that is left.
    pub fn last_leaf(&mut self) -> Option<&'a L>
        ensures some { IfSome result (λ leaf. self.old ≡ self.new ++ leaf.now ∷ []) }
        ensures none { IfNone result ((self.old ≡ []) × (self.new ≡ [])) }
    {
        if self.to < self.from {
            return None;
        }
        let (leaf, from, to) = before_last(self.tree, self.from, self.to);
        self.from = from;
        self.to = to;
        Some(leaf)
    }
}

impl<'a, L: Leaf> Clone for LeafIter<'a, L> {
    ghost is_clone = { λ i j. j ≡ i };

    fn clone(&self) -> Result<Self, AllocError> {
        Ok(LeafIter {
            tree: self.tree,
            from: self.from,
            to: self.to,
        })
    }
}

impl<L: Leaf> Tree<L> {
    /// Returns the leaves of this tree.
    pub fn leaves(&self) -> LeafIter<'_, L>
        requires rise { Rise L.entry self.now.leaves }
        ensures { result ≡ self.now.leaves }
    {
        let (from, to) = whole(self);
        LeafIter {
            tree: self,
            from,
            to,
        }
    }
    /// Returns the leaves from the one to which `low` belongs to the one to which `high` belongs, or none if `high` is
    /// below `low`.
    pub fn leaves_between(&self, low: u64, high: u64) -> LeafIter<'_, L>
        requires rise { Rise L.entry self.now.leaves }
        ensures some { low ≤ high → 0 < length self.now.leaves → AreBetween L.entry low high self.now.leaves result }
        ensures none { high < low → result ≡ [] }
        ensures empty { length self.now.leaves ≡ 0 → result ≡ [] }
    {
        let (from, to) = ends_between(self, low, high);
        LeafIter {
            tree: self,
            from,
            to,
        }
    }
}
