//! The free of a range.
//!
//! A block inside its leaf is freed by one change. A block at an end of its leaf takes two more: the gap beside it
//! in the next leaf is extended over it, and then the block is dropped from its leaf. If no gap is there, it is
//! freed in its leaf instead. Only the last change can make a leaf so small that it is joined with another.
ghost use Rattle.std.specs.Prelude.{◌≡◌, ◌+◌, ◌*◌, ◌<◌, ◌≤◌, List, None, true, false, min, length, MatchOption};
ghost use Rattle.vm_ranges.specs.Range.{MAX};
ghost use Rattle.vm_leaf.specs.declared.block.Block.{Block as ABlock};
ghost use Rattle.vm_leaf.specs.Block.{held_block};
ghost use Rattle.vm_leaf.specs.Blocks.{nth, start_of, end_of};
ghost use Rattle.vm_leaf.specs.Entries.{HasEnough};
ghost use Rattle.vm_tree.specs.Subtree.{AllOf};
ghost use Rattle.vm_space.specs.Spaces.{AreSpace};
ghost use Rattle.vm_space.specs.Frees.{raised_entry, FreesLeaves, RefusesFree, RefusesInside, DoneInside, CutAfter, IsFreed};
ghost use Rattle.vm_space.specs.Edges.{BecomesOne, IsEdge, IsApart, ExtendedAt};

use crate::edge::{DropEnd, Edge, Extend, FreeEnd, edge_of};
use vm_leaf::{Leaf, MIN_BLOCKS, Summary};
use vm_ranges::{NodeState, RangeInclusive};
use vm_tree::{Cut, Cutting, End, Entry, Tree};

/// Returns the index of the allocated block of this range. Returns `None` if the leaf does not hold the range.
#[inline(always)]
fn held_at(leaf: &Leaf, key: &RangeInclusive) -> Option<usize>
    requires from { start_of leaf.now ≤ key.now.start }
    requires upto { key.now.start ≤ end_of leaf.now }
    ensures { MatchOption result (RefusesFree key.now leaf.now) (λ i. (i < length leaf.now) × (nth leaf.now i ≡ held_block key.now)) }
{
    // Proof: `len` gives the facts of a leaf.
    let _len = leaf.len();
    let (start, end) = (key.start(), key.end());
    let i = leaf.index_of(start);
    let block = leaf.block_at(i);
    if block.key.start() != start || block.key.end() != end {
        return None;
    }
    match block.state {
        NodeState::Free => None,
        NodeState::Allocated => Some(i),
    }
}

/// Returns the entry of a leaf after a gap was made of blocks that do not have its first address alone, or of all.
#[inline(always)]
fn with_gap(was: &Entry, gap: &RangeInclusive) -> Entry
    ensures { result ≡ raised_entry was.now gap.now }
{
    let sum = Summary::of_gap(gap);
    Entry {
        at: was.at,
        longest: was.longest.max(sum.longest),
        alignments: was.alignments.max(sum.alignments),
    }
}

/// The result of a call that frees a range inside its leaf.
#[derive(Clone, Copy)]
pub(crate) enum Freeing {
    /// The range is not held.
    Absent,
    /// The block is at an end of its leaf.
    AtEdge(Edge),
    /// It was freed, and this number of gaps was joined with it.
    Done(u64),
}

/// Frees a held range that is not at an end of its leaf, or is alone in it.
#[derive(Drop)]
pub(crate) struct FreeInside {
    pub(crate) key: RangeInclusive,
    pub(crate) answer: Freeing,
}

impl Cut<Leaf> for FreeInside {
    ghost refuses = { λ self bs edit. RefusesInside self.key bs edit.answer };

    ghost edits = { λ self bs edit ls. BecomesOne (DoneInside self.key edit.answer) bs ls };

    ghost shrinks = { λ self. Unit };

    #[inline(always)]
    fn cut(&mut self, leaf: &mut Leaf, was: Entry) -> Cutting {
        let len = leaf.len();
        self.answer = Freeing::Absent;
        let start = self.key.start();
        if start < leaf.start() || leaf.end() < start {
            return Cutting::Refused;
        }
        let Some(i) = held_at(leaf, &self.key) else {
            return Cutting::Refused;
        };
        if let Some(edge) = edge_of(leaf, i) {
            self.answer = Freeing::AtEdge(edge);
            return Cutting::Refused;
        }
        let gap = leaf.join(i);
        let entry = with_gap(&was, &gap);
        let left = leaf.len();
        self.answer = Freeing::Done((len - left) as u64);
        if left < MIN_BLOCKS {
            return Cutting::Small(entry);
        }
        Cutting::Changed(entry)
    }
}

/// Extends the gap beside a block at an end of its leaf over it. Returns `false` if there is none.
fn extend_beside(tree: &mut Tree<Leaf>, key: &RangeInclusive, edge: Edge, count: &mut u64) -> bool
    requires space { AreSpace tree.old.leaves }
    requires edge { IsEdge key.now edge tree.old.leaves }
    ensures extended { result ≡ true → ExtendedAt edge.end key.now edge tree.old.leaves tree.new.leaves }
    ensures apart { result ≡ false → (tree.new ≡ tree.old) × IsApart key.now edge tree.old.leaves }
    ensures height { tree.new.height ≤ tree.old.height }
    ensures count { (min count.old MAX ≤ count.new) × (count.new ≤ count.old + tree.old.height) }
{
    match edge.end {
        End::First => {
            if key.start() == 0 {
                return false;
            }
            let mut extend = Extend {
                end: End::First,
                beside: key.start(),
                to: edge.to,
            };
            tree.cut(key.start() - 1, &mut extend, count)
        }
        End::Last => {
            let mut extend = Extend {
                end: End::Last,
                beside: key.end(),
                to: edge.to,
            };
            tree.cut(key.end() + 1, &mut extend, count)
        }
    }
}

/// Drops a block at an end of its leaf, after the gap beside it was extended over it. Returns the number of gaps
/// that were joined.
fn drop_end(tree: &mut Tree<Leaf>, _key: &RangeInclusive, edge: Edge, count: &mut u64) -> u64
    requires extended { (was : List (List ABlock)) × (AreSpace was × ExtendedAt edge.end _key.now edge was tree.old.leaves) }
    ensures freed { (was : List (List ABlock)) → AreSpace was → ExtendedAt edge.end _key.now edge was tree.old.leaves → IsFreed _key.now result was tree.new.leaves }
    ensures height { tree.new.height ≤ tree.old.height }
    ensures count { (min count.old MAX ≤ count.new) × (count.new ≤ count.old + tree.old.height) }
{
    // Proof: one of several leaves has `MIN_BLOCKS` blocks.
    tree.facts();
    let mut drop = DropEnd {
        end: edge.end,
        dropped: 0,
    };
    tree.cut(edge.at, &mut drop, count);
    drop.dropped
}

/// Frees a held block at an end of its leaf, with no gap beside it in the next leaf. Returns the number of gaps
/// that were joined.
fn free_end(tree: &mut Tree<Leaf>, _key: &RangeInclusive, edge: Edge, count: &mut u64) -> u64
    requires space { AreSpace tree.old.leaves }
    requires apart { IsApart _key.now edge tree.old.leaves }
    ensures freed { IsFreed _key.now result tree.old.leaves tree.new.leaves }
    ensures height { tree.new.height ≤ tree.old.height }
    ensures count { (min count.old MAX ≤ count.new) × (count.new ≤ count.old + tree.old.height) }
{
    let mut free = FreeEnd {
        end: edge.end,
        joined: 0,
    };
    tree.cut(edge.at, &mut free, count);
    free.joined
}

/// Frees a held block at an end of its leaf. Returns the number of gaps that were joined.
fn free_at_edge(tree: &mut Tree<Leaf>, key: &RangeInclusive, edge: Edge, count: &mut u64) -> u64
    requires space { AreSpace tree.old.leaves }
    requires edge { IsEdge key.now edge tree.old.leaves }
    ensures freed { IsFreed key.now result tree.old.leaves tree.new.leaves }
    ensures height { tree.new.height ≤ tree.old.height }
    ensures count { (min count.old MAX ≤ count.new) × (count.new ≤ count.old + 2 * tree.old.height) }
{
    if extend_beside(tree, key, edge, count) {
        return drop_end(tree, key, edge, count);
    }
    free_end(tree, key, edge, count)
}

/// Frees a range in its leaf, and joins the gap with a gap beside it in the next leaf. Leaves that became too small
/// are joined with others. Returns the number of gaps that were joined, or `None` if the range is not held.
pub(crate) fn free_in_tree(
    tree: &mut Tree<Leaf>,
    key: &RangeInclusive,
    count: &mut u64,
) -> Option<u64>
    requires space { AreSpace tree.old.leaves }
    ensures freed { FreesLeaves key.now tree.old.leaves tree.new.leaves result }
    ensures unchanged { result ≡ None → tree.new ≡ tree.old }
    ensures height { tree.new.height ≤ tree.old.height }
    ensures count { count.new ≤ count.old + 3 * tree.old.height }
    ensures path { min (count.old + tree.old.height) MAX ≤ count.new }
{
    // Proof: one of several leaves has `MIN_BLOCKS` blocks.
    tree.facts();
    let mut free = FreeInside {
        key: *key,
        answer: Freeing::Absent,
    };
    let _done = tree.cut(key.start(), &mut free, count);
    match free.answer {
        Freeing::Absent => None,
        Freeing::AtEdge(edge) => Some(free_at_edge(tree, key, edge, count)),
        Freeing::Done(joined) => Some(joined),
    }
}
