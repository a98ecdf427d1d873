//! Iteration over the entries of a list from both ends.
ghost use Rattle.std.specs.Prelude.{◌≡◌, ◌<◌, ◌++◌, [], length, reverse};
ghost use Rattle.std.specs.Iterator.{YieldsFirstRef, YieldsLastRef, item_count};
ghost use Rattle.vm_tree.specs.Subtree.{AllOf};
ghost use Rattle.vm_list.specs.Leaves.{items_of, IsEnough};
ghost use Rattle.vm_list.specs.Iters.{left_in, IsBegun};

use crate::Keyed;
use crate::chunk::Chunk;
use std::marker::Model;
use vm_tree::LeafIter;

/// An iterator over the entries of a list in ascending order of their keys, or backwards.
///
/// Its model is the list of the entries that it has not returned yet.
#[derive(Clone, Drop)]
pub struct Iter<'a, E: Keyed> {
    // The leaves that were not begun, and the entries that are left of the leaves begun at both ends.
    leaves: LeafIter<'a, Chunk<E>>,
    lowest: &'a [E],
    highest: &'a [E],
}

impl<'a, E: Keyed> Model for Iter<'a, E> {
    ghost use Rattle.std.specs.Prelude.{List, reverse};
    ghost use Rattle.vm_tree.specs.Subtree.{AllOf};
    ghost use Rattle.vm_list.specs.Leaves.{IsEnough};
    ghost use Rattle.vm_list.specs.Iters.{left_in};

    ghost Value = { List E };

    ghost view = { λ i. reverse (left_in i.highest.now i.leaves i.lowest.now) };

    ghost invariant = { λ i. AllOf IsEnough i.leaves };
}

/// Begins the lowest leaf that is left if no entry is left of `lowest`, or moves `highest` there if no leaf is left.
fn begin_lowest<'a, E: Keyed>(
    leaves: &mut LeafIter<'a, Chunk<E>>,
    lowest: &'a [E],
    highest: &'a [E],
) -> (&'a [E], &'a [E])
    requires { AllOf IsEnough leaves.old }
    ensures same { left_in result.1.now leaves.new result.0.now ≡ left_in highest.now leaves.old lowest.now }
    ensures filled { AllOf IsEnough leaves.new }
    ensures begun { IsBegun result.0.now leaves.new result.1.now }
{
    if !lowest.is_empty() {
        return (lowest, highest);
    }
    match leaves.next_leaf() {
        Some(leaf) => (leaf.as_slice(), highest),
        None => (highest, lowest),
    }
}

/// Begins the highest leaf that is left if no entry is left of `highest`, or moves `lowest` there if no leaf is left.
fn begin_highest<'a, E: Keyed>(
    leaves: &mut LeafIter<'a, Chunk<E>>,
    lowest: &'a [E],
    highest: &'a [E],
) -> (&'a [E], &'a [E])
    requires { AllOf IsEnough leaves.old }
    ensures same { left_in result.1.now leaves.new result.0.now ≡ left_in highest.now leaves.old lowest.now }
    ensures filled { AllOf IsEnough leaves.new }
    ensures begun { IsBegun result.1.now leaves.new result.0.now }
{
    if !highest.is_empty() {
        return (lowest, highest);
    }
    match leaves.last_leaf() {
        Some(leaf) => (lowest, leaf.as_slice()),
        None => (highest, lowest),
    }
}

impl<'a, E: Keyed> Iter<'a, E> {
    /// Returns an iterator over the entries of a leaf, which may be empty, and of the leaves after it.
    pub(crate) fn after(leaf: &'a Chunk<E>, leaves: LeafIter<'a, Chunk<E>>) -> Iter<'a, E>
        requires { AllOf IsEnough leaves }
        ensures { result ≡ reverse (items_of leaves.entry ++ leaf.now) }
    {
        Iter {
            leaves,
            lowest: leaf.as_slice(),
            highest: &[],
        }
    }

    /// Returns an iterator over some entries of two leaves, and those of the leaves between them.
    pub(crate) fn within(
        lowest: &'a [E],
        leaves: LeafIter<'a, Chunk<E>>,
        highest: &'a [E],
    ) -> Iter<'a, E>
        requires { AllOf IsEnough leaves }
        ensures { result ≡ reverse (left_in highest.now leaves.entry lowest.now) }
    {
        Iter {
            leaves,
            lowest,
            highest,
        }
    }

    /// Returns an iterator over the entries of these leaves.
    pub(crate) fn of_leaves(leaves: LeafIter<'a, Chunk<E>>) -> Iter<'a, E>
        requires { AllOf IsEnough leaves }
        ensures { result ≡ reverse (items_of leaves.entry) }
    {
        Iter {
            leaves,
            lowest: &[],
            highest: &[],
        }
    }
}

impl<'a, E: Keyed> Iterator for Iter<'a, E> {
    type Item = &'a E;

    ghost next_gives = { YieldsFirstRef (λ i. i) };

    ghost remaining = { item_count (λ i. i) };

    /// Returns the entry with the lowest key that is left.
    fn next(&mut self) -> Option<&'a E> {
        let (lowest, highest) = begin_lowest(&mut self.leaves, self.lowest, self.highest);
        let Some((entry, others)) = lowest.split_last() else {
            self.lowest = lowest;
            self.highest = highest;
            return None;
        };
        self.lowest = others;
        self.highest = highest;
        Some(entry)
    }
}

impl<'a, E: Keyed> DoubleEndedIterator for Iter<'a, E> {
    ghost next_back_gives = { YieldsLastRef (λ i. i) };

    /// Returns the entry with the highest key that is left.
    fn next_back(&mut self) -> Option<&'a E> {
        let (lowest, highest) = begin_highest(&mut self.leaves, self.lowest, self.highest);
        let Some((entry, others)) = highest.split_first() else {
            self.lowest = lowest;
            self.highest = highest;
            return None;
        };
        self.lowest = lowest;
        self.highest = others;
        Some(entry)
    }
}
