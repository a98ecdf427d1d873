//! The saved tree that is written for a tree: a balanced tree of its blocks.
//!
//! The blocks decide its shape, so trees with the same blocks are written in the same way.
ghost use Rattle.std.specs.Prelude.{◌≡◌, ◌↔◌, [], IsTrue};
ghost use Rattle.vm_leaf.specs.BlockStarts.{blocks_from, last_before, AreRanges};
ghost use Rattle.vm_saved_trees.specs.WrittenTrees.{WritesNode};

use std::marker::Model;
use vm_leaf::BlockStart;
use vm_ranges::{NodeState, RangeInclusive};

/// The blocks of a space in ascending order.
///
/// Its model is the list of the blocks.
#[derive(Drop)]
pub struct WrittenBlocks {
    starts: Vec<BlockStart>,
    // The last address of the space.
    end: u64,
}

impl Model for WrittenBlocks {
    ghost use Rattle.std.specs.Prelude.{List};
    ghost use Rattle.vm_leaf.specs.declared.block.Block.{Block};
    ghost use Rattle.vm_leaf.specs.BlockStarts.{blocks_from, AreRanges};

    ghost Value = { List Block };

    ghost view = { λ w. blocks_from w.starts.items w.end };

    ghost invariant = { λ w. AreRanges (blocks_from w.starts.items w.end) };
}

impl WrittenBlocks {
    /// Returns the blocks with these starts, of which the last ends at `end`.
    pub fn new(starts: Vec<BlockStart>, end: u64) -> Self
        requires { AreRanges (blocks_from starts.items end) }
        ensures { result ≡ blocks_from starts.items end }
    {
        WrittenBlocks { starts, end }
    }

    /// Returns the saved tree of all blocks.
    pub fn tree(&self) -> WrittenTree<'_>
        ensures { result ≡ self.now }
    {
        WrittenTree {
            starts: &self.starts,
            end: self.end,
        }
    }
}

/// The saved tree of some blocks.
///
/// Its model is the list of the blocks.
#[derive(Clone, Drop)]
pub struct WrittenTree<'a> {
    starts: &'a [BlockStart],
    // The last address of the last block.
    end: u64,
}

impl<'a> Model for WrittenTree<'a> {
    ghost use Rattle.std.specs.Prelude.{List};
    ghost use Rattle.vm_leaf.specs.declared.block.Block.{Block};
    ghost use Rattle.vm_leaf.specs.BlockStarts.{blocks_from, AreRanges};

    ghost Value = { List Block };

    ghost view = { λ w. blocks_from w.starts.now w.end };

    ghost invariant = { λ w. AreRanges (blocks_from w.starts.now w.end) };
}

/// A node of a saved tree.
#[derive(Clone, Drop)]
pub struct WrittenNode<'a> {
    /// The range of the block.
    pub key: RangeInclusive,
    /// The state of the block.
    pub state: NodeState,
    /// The left child.
    pub left: WrittenTree<'a>,
    /// The right child.
    pub right: WrittenTree<'a>,
    /// The height of the node.
    pub height: u64,
}

/// Returns the last address before these starts, or `end` if there is no start.
fn last_before(starts: &[BlockStart], end: u64) -> u64
    ensures { result ≡ last_before starts.now end }
{
    match starts.first() {
        Some(next) => next.address.saturating_sub(1),
        None => end,
    }
}

impl<'a> WrittenTree<'a> {
    /// Returns `true` if there is no block, so there is no root.
    #[tactic(auto, using(crate::proofs::SavedNodes::BlockStarts::no_blocks))]
    pub fn is_empty(&self) -> bool
        ensures { IsTrue result ↔ (self.now ≡ []) }
    {
        self.starts.is_empty()
    }

    /// Returns the root: the block in the middle, and the trees of the blocks before and after it.
    pub fn root(&self) -> Option<WrittenNode<'a>>
        ensures { WritesNode self.now result }
    {
        let count = self.starts.len();
        let (before, rest) = self.starts.split_at(count / 2);
        let Some((block, after)) = rest.split_first() else {
            return None;
        };
        Some(WrittenNode {
            key: RangeInclusive::between(block.address, last_before(after, self.end)),
            state: block.state,
            left: WrittenTree {
                starts: before,
                end: block.address.saturating_sub(1),
            },
            right: WrittenTree {
                starts: after,
                end: self.end,
            },
            height: u64::from(count.ilog2()) + 1,
        })
    }
}
