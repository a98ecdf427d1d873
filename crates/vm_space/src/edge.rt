//! A held block at an end of its leaf, and the gap beside it in the next leaf.
ghost use Rattle.std.specs.Prelude.{◌≡◌, ◌⊎◌, ◌+◌, ◌-◌, ◌<◌, ◌≤◌, length, true, false, MatchOption};
ghost use Rattle.vm_ranges.specs.declared.state.NodeState.TheVariants.{Allocated};
ghost use Rattle.vm_tree.specs.declared.end.End.TheVariants.{First, Last};
ghost use Rattle.vm_leaf.specs.Blocks.{nth};
ghost use Rattle.vm_space.specs.Edges.{end_if, start_if, ExtendsLast, ExtendsFirst, Extends, DropsFirst, DropsLast, Drops, FreesEnd, IsShorter, BecomesOne, IsEdgeOf, RefusesExtension, RefusesEnd};
ghost use Rattle.vm_leaf.specs.declared.leaf.TheConstants.{MIN_BLOCKS};

use vm_leaf::{Block, Leaf, MIN_BLOCKS};
use vm_ranges::NodeState;
use vm_tree::{Cut, Cutting, End, Entry};

/// A held block at an end of its leaf.
#[derive(Clone, Copy)]
pub(crate) struct Edge {
    /// The end of the leaf at which the block is.
    pub(crate) end: End,
    /// The first address of the leaf.
    pub(crate) at: u64,
    /// The address at which the block ends, or starts if it is the last one, with a gap beside it in the leaf.
    pub(crate) to: u64,
}

/// Returns the end of a gap that ends at `end`, joined with the block after it if that is free.
#[inline(always)]
fn end_with(end: u64, next: &Block) -> u64
    ensures { result ≡ end_if next.now.state end next.now }
{
    match next.state {
        NodeState::Free => next.key.end(),
        NodeState::Allocated => end,
    }
}

/// Returns the start of a gap that starts at `start`, joined with the block before it if that is free.
#[inline(always)]
fn start_with(start: u64, last: &Block) -> u64
    ensures { result ≡ start_if last.now.state start last.now }
{
    match last.state {
        NodeState::Free => last.key.start(),
        NodeState::Allocated => start,
    }
}

/// Returns the edge of the first block of a leaf, which is held and not alone.
#[tactic(auto, using(crate::proofs::Edged::first_held))]
fn first_edge(leaf: &Leaf) -> Edge
    requires many { 1 < length leaf.now }
    requires held { (nth leaf.now 0).state ≡ Allocated }
    ensures { IsEdgeOf (nth leaf.now 0).key result leaf.now }
{
    Edge {
        end: End::First,
        at: leaf.start(),
        to: end_with(leaf.block_at(0).key.end(), &leaf.block_at(1)),
    }
}

/// Returns the edge of the last block of a leaf, which is held and not alone.
#[tactic(auto, using(crate::proofs::Edged::last_held))]
fn last_edge(leaf: &Leaf) -> Edge
    requires many { 1 < length leaf.now }
    requires held { (nth leaf.now (length leaf.now - 1)).state ≡ Allocated }
    ensures { IsEdgeOf (nth leaf.now (length leaf.now - 1)).key result leaf.now }
{
    let last = leaf.len() - 1;
    Edge {
        end: End::Last,
        at: leaf.start(),
        to: start_with(leaf.block_at(last).key.start(), &leaf.block_at(last - 1)),
    }
}

/// Returns the edge of block `i`, which is held. Returns `None` if it is not at an end of the leaf, or is alone.
pub(crate) fn edge_of(leaf: &Leaf, i: usize) -> Option<Edge>
    requires within { i < length leaf.now }
    requires held { (nth leaf.now i).state ≡ Allocated }
    ensures { MatchOption result (((0 < i) × (i + 1 < length leaf.now)) ⊎ (length leaf.now ≡ 1)) (λ edge. IsEdgeOf (nth leaf.now i).key edge leaf.now) }
{
    let len = leaf.len();
    if len == 1 {
        return None;
    }
    if i == 0 {
        return Some(first_edge(leaf));
    }
    if i + 1 == len {
        return Some(last_edge(leaf));
    }
    None
}

/// Extends the last block up to `last`, if it is a gap that ends right before `start`.
fn extend_last(leaf: &mut Leaf, start: u64, last: u64) -> bool
    requires { start ≤ last }
    ensures refused { result ≡ false → (leaf.new ≡ leaf.old) × RefusesExtension First start last leaf.old }
    ensures extended { result ≡ true → ExtendsLast start last leaf.old leaf.new }
{
    let len = leaf.len();
    if leaf.end() >= start || start - leaf.end() > 1 {
        return false;
    }
    if leaf.start() == 0 && last == u64::MAX {
        return false;
    }
    let gap = leaf.block_at(len - 1);
    match gap.state {
        NodeState::Allocated => false,
        NodeState::Free => {
            leaf.move_end(last);
            true
        }
    }
}

/// Extends the first block down to `first`, if it is a gap that starts right after `end`.
fn extend_first(leaf: &mut Leaf, end: u64, first: u64) -> bool
    requires { first ≤ end }
    ensures refused { result ≡ false → (leaf.new ≡ leaf.old) × RefusesExtension Last end first leaf.old }
    ensures extended { result ≡ true → ExtendsFirst end first leaf.old leaf.new }
{
    let _len = leaf.len();
    if leaf.start() <= end || leaf.start() - end > 1 {
        return false;
    }
    if first == 0 && leaf.end() == u64::MAX {
        return false;
    }
    let gap = leaf.block_at(0);
    match gap.state {
        NodeState::Allocated => false,
        NodeState::Free => {
            leaf.move_start(first);
            true
        }
    }
}

/// Drops the first block, and a gap after it.
#[tactic(auto, using(crate::proofs::Edged::dropped_one, crate::proofs::Edged::dropped_two))]
fn drop_first(leaf: &mut Leaf)
    requires { 2 < length leaf.old }
    ensures { DropsFirst leaf.old leaf.new }
{
    leaf.drop_first();
    match leaf.block_at(0).state {
        NodeState::Allocated => {}
        NodeState::Free => leaf.drop_first(),
    }
}

/// Drops the last block, and a gap before it.
#[tactic(auto, using(crate::proofs::Edged::dropped_last, crate::proofs::Edged::dropped_lasts))]
fn drop_last(leaf: &mut Leaf)
    requires { 2 < length leaf.old }
    ensures { DropsLast leaf.old leaf.new }
{
    leaf.drop_last();
    match leaf.block_at(leaf.len() - 1).state {
        NodeState::Allocated => {}
        NodeState::Free => leaf.drop_last(),
    }
}

/// Extends the gap beside a block over it, in the next leaf.
#[derive(Drop)]
pub(crate) struct Extend {
    /// The end of its leaf at which the block is.
    pub(crate) end: End,
    /// The first address of the block, or the last one if it is at the end of its leaf.
    pub(crate) beside: u64,
    /// The other end of the block, with a gap beside it in its leaf.
    pub(crate) to: u64,
    ghost valid: { (end ≡ First → beside ≤ to) × (end ≡ Last → to ≤ beside) },
}

impl Cut<Leaf> for Extend {
    ghost refuses = { λ self bs edit. RefusesExtension self.end self.beside self.to bs };

    ghost edits = { λ self bs edit ls. BecomesOne (Extends self.end self.beside self.to) bs ls };

    ghost shrinks = { λ self. ⊥ };

    fn cut(&mut self, leaf: &mut Leaf, _was: Entry) -> Cutting {
        let extended = match self.end {
            End::First => extend_last(leaf, self.beside, self.to),
            End::Last => extend_first(leaf, self.beside, self.to),
        };
        if extended {
            return Cutting::Changed(vm_tree::Leaf::entry(leaf));
        }
        Cutting::Refused
    }
}

/// Drops the block at an end of a leaf, and a gap beside it.
#[derive(Drop)]
pub(crate) struct DropEnd {
    pub(crate) end: End,
    /// The number of blocks that were dropped.
    pub(crate) dropped: u64,
}

impl Cut<Leaf> for DropEnd {
    ghost refuses = { λ self bs edit. length bs < MIN_BLOCKS };

    ghost edits = { λ self bs edit ls. BecomesOne (λ a b. Drops self.end a b × IsShorter edit.dropped a b) bs ls };

    ghost shrinks = { λ self. Unit };

    fn cut(&mut self, leaf: &mut Leaf, _was: Entry) -> Cutting {
        let len = leaf.len();
        if len < MIN_BLOCKS {
            return Cutting::Refused;
        }
        match self.end {
            End::First => drop_first(leaf),
            End::Last => drop_last(leaf),
        }
        let left = leaf.len();
        self.dropped = (len - left) as u64;
        if left < MIN_BLOCKS {
            return Cutting::Small(vm_tree::Leaf::entry(leaf));
        }
        Cutting::Changed(vm_tree::Leaf::entry(leaf))
    }
}

/// Frees the held block at an end of a leaf, and joins it with a gap beside it in the leaf.
#[derive(Drop)]
pub(crate) struct FreeEnd {
    pub(crate) end: End,
    /// The number of gaps that were joined.
    pub(crate) joined: u64,
}

impl Cut<Leaf> for FreeEnd {
    ghost refuses = { λ self bs edit. RefusesEnd self.end bs };

    ghost edits = { λ self bs edit ls. BecomesOne (λ a b. FreesEnd self.end a b × IsShorter edit.joined a b) bs ls };

    ghost shrinks = { λ self. Unit };

    fn cut(&mut self, leaf: &mut Leaf, _was: Entry) -> Cutting {
        let len = leaf.len();
        let i = match self.end {
            End::First => 0,
            End::Last => len - 1,
        };
        if let NodeState::Free = leaf.block_at(i).state {
            return Cutting::Refused;
        }
        leaf.join(i);
        let left = leaf.len();
        self.joined = (len - left) as u64;
        if left < MIN_BLOCKS {
            return Cutting::Small(vm_tree::Leaf::entry(leaf));
        }
        Cutting::Changed(vm_tree::Leaf::entry(leaf))
    }
}
