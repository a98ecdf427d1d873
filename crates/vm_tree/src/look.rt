//! A search for the leaf with the place closest to an end, which changes nothing.
ghost use Rattle.std.specs.Prelude.{◌≡◌, ◌+◌, ◌<◌, ◌≤◌, ◌∷◌, ℕ, [], length, option_copied};
ghost use Rattle.vm_tree.specs.Subtree.{leaf_of, leaves_of, kids, over, nth_tree};
ghost use Rattle.vm_tree.specs.Nodes.{kids_of, AreUnder};
ghost use Rattle.vm_tree.specs.Sought.{MayEnter, Looked, FindsLeaf};

use crate::closest::may_enter;
use crate::end::End;
use crate::entries::Entries;
use crate::leaf::Leaf;
use crate::node::{Kids, Node};
use crate::read::{leaf_in, node_in};
use crate::search::Seek;
use crate::tree::{Root, Tree};
use crate::window::{kid_count, low_kid, next_kid};

/// Returns a leaf if it has a place.
#[inline(always)]
fn look_leaf<'a, L: Leaf, S: Seek<L>>(leaf: &'a L, seek: &S) -> Option<&'a L>
    requires may { MayEnter L.entry (S.seeking seek.now) (leaf.now ∷ []) }
    ensures { (c : ℕ) → (d : ℕ) × Looked (S.seeking seek.now) c d (leaf_of leaf.now) (option_copied result) }
{
    if seek.has(leaf) { Some(leaf) } else { None }
}

/// Searches the child `i` of a node.
#[cycle(look)]
#[inline(always)]
fn look_kid<'a, L: Leaf, S: Seek<L>>(
    entries: &Entries,
    kids: &'a Kids<L>,
    i: usize,
    seek: &S,
) -> Option<&'a L>
    requires under { AreUnder L.entry L.enough entries.now kids.now }
    requires within { i < length (kids_of kids.now) }
    requires may { MayEnter L.entry (S.seeking seek.now) (nth_tree (kids_of kids.now) i).leaves }
    ensures { (c : ℕ) → (d : ℕ) × Looked (S.seeking seek.now) c d (nth_tree (kids_of kids.now) i) (option_copied result) }
{
    match kids {
        Kids::Leaves(slots) => look_leaf(leaf_in(slots, i), seek),
        Kids::Nodes(slots) => look_at(node_in(slots, i), seek),
    }
}

/// Searches the children of a node: those in the window whose summary does not exclude a place, from an end.
#[cycle(look)]
#[inline(always)]
fn look_kids<'a, L: Leaf, S: Seek<L>>(
    entries: &Entries,
    kids: &'a Kids<L>,
    seek: &S,
) -> Option<&'a L>
    requires under { AreUnder L.entry L.enough entries.now kids.now }
    requires some { 0 < length (kids_of kids.now) }
    requires may { MayEnter L.entry (S.seeking seek.now) (leaves_of (kids_of kids.now)) }
    ensures { (c : ℕ) → (d : ℕ) × Looked (S.seeking seek.now) c d (over (kids_of kids.now)) (option_copied result) }
{
    let end = seek.end();
    // Proof: `len` bounds the number of children.
    let _len = entries.len();
    let mut from = low_kid(entries, seek.low());
    let mut to = kid_count(entries, seek.high());
    while let Some(i) = next_kid::<L, S>(entries, from, to, end, seek) {
        if let Some(leaf) = look_kid(entries, kids, i, seek) {
            return Some(leaf);
        }
        match end {
            End::First => from = i + 1,
            End::Last => to = i,
        }
    }
    None
}

/// Searches the leaves below a node. Returns the one with the place closest to an end.
#[cycle(look)]
fn look_at<'a, L: Leaf, S: Seek<L>>(node: &'a Node<L>, seek: &S) -> Option<&'a L>
    requires some { 0 < kids node.now }
    requires may { MayEnter L.entry (S.seeking seek.now) node.now.leaves }
    ensures { (c : ℕ) → (d : ℕ) × Looked (S.seeking seek.now) c d node.now (option_copied result) }
{
    look_kids(&node.entries, &node.kids, seek)
}

impl<L: Leaf> Tree<L> {
    /// Returns the leaf that has the place of a search closest to its end, or `None` if no leaf has a place.
    pub fn look<S: Seek<L>>(&self, seek: &S) -> Option<&L>
        requires runs { (S.seeking seek.now).runs self.now.leaves }
        ensures { FindsLeaf (S.seeking seek.now) self.now.leaves (option_copied result) }
    {
        match &self.root {
            Root::Empty => None,
            Root::Leaf(leaf) => {
                let leaf: &L = leaf;
                if seek.has(leaf) { Some(leaf) } else { None }
            }
            Root::Inner(node) => {
                let node: &Node<L> = node;
                // Proof: `end` gives the laws of a search.
                let _end = seek.end();
                if may_enter::<L, S>(node, seek) {
                    look_at(node, seek)
                } else {
                    None
                }
            }
        }
    }
}
