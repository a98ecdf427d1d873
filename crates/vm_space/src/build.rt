//! Builds the tree of a space in which some ranges are allocated.
//!
//! Each leaf is filled directly, and has nearly the same number of blocks.
ghost use Rattle.std.specs.Prelude.{◌≡◌, ◌≢◌, ◌+◌, ◌*◌, ◌^◌, ◌<◌, ◌≤◌, ◌++◌, ◌∷◌, [], length, IfOk};
ghost use Rattle.vm_ranges.specs.Range.{IsRange};
ghost use Rattle.vm_space.specs.Building.{remaining_blocks, IsBlockCursor, IsBuiltTree};
ghost use Rattle.vm_leaf.specs.TreeHeights.{TOO_MANY_BLOCKS};
ghost use Rattle.vm_leaf.specs.SpaceBlocks.{blocks_between};
ghost use Rattle.vm_ranges.specs.Address.{AreInOrder};

use std::alloc::{AllocError, Global};
use std::marker::Model;
use vm_leaf::{Block, CAPACITY, Leaf};
use vm_ranges::{NodeState, RangeInclusive};
use vm_tree::{Source, Tree};

/// Returns the free block from `start` to `end`. The caller proves that these are the ends of a range.
fn free_between(start: u64, end: u64) -> Block
    requires { IsRange start end }
    ensures { result ≡ record { key = record { start = start; end = end }; state = NodeState.Free } }
{
    Block {
        key: RangeInclusive::between(start, end),
        state: NodeState::Free,
    }
}

/// A cursor at the blocks that are not built yet: the gaps and the allocated ranges from `next` to
/// `end`.
#[derive(Drop)]
struct BlockCursor<'a> {
    next: u128,
    held: &'a [RangeInclusive],
    end: u64,
}

impl BlockCursor<'_> {
    /// Returns the next block, and advances.
    #[tactic(auto, using(crate::proofs::BlockCursors::firsts))]
    fn take_first(&mut self) -> Block
        requires cursor { IsBlockCursor self.old }
        requires some { remaining_blocks self.old ≢ [] }
        ensures first { remaining_blocks self.old ≡ result ∷ remaining_blocks self.new }
        ensures cursor { IsBlockCursor self.new }
    {
        let start = self.next as u64;
        let Some((range, others)) = self.held.split_first() else {
            self.next = u128::from(self.end) + 1;
            return free_between(start, self.end);
        };
        if start < range.start() {
            self.next = range.start().into();
            return free_between(start, range.start() - 1);
        }
        self.next = u128::from(range.end()) + 1;
        self.held = others;
        Block {
            key: *range,
            state: NodeState::Allocated,
        }
    }
}

/// Returns a leaf of the next `count` blocks.
#[tactic(auto, using(crate::proofs::BlockCursors::filling))]
fn fill_leaf(count: u64, cursor: &mut BlockCursor<'_>) -> Leaf
    requires cursor { IsBlockCursor cursor.old }
    requires some { 0 < count }
    requires fits { count ≤ CAPACITY }
    requires enough { count ≤ length (remaining_blocks cursor.old) }
    ensures cut { remaining_blocks cursor.old ≡ result ++ remaining_blocks cursor.new }
    ensures count { length result ≡ count }
    ensures cursor { IsBlockCursor cursor.new }
{
    let mut leaf = Leaf::single(cursor.take_first());
    for _filled in 1..count {
        leaf.push(cursor.take_first());
    }
    leaf
}

/// The leaves that are not built yet. Each has the next `each` blocks, and each of the first `more` leaves one block
/// more.
#[derive(Drop)]
struct Leaves<'a> {
    cursor: BlockCursor<'a>,
    count: u64,
    each: u64,
    more: u64,
}

impl<'a> Model for Leaves<'a> {
    ghost use Rattle.std.specs.Prelude.{List};
    ghost use Rattle.vm_leaf.specs.declared.block.Block.{Block};
    ghost use Rattle.vm_space.specs.Building.{leaves_left, IsLeaves};

    ghost Value = { List (List Block) };

    ghost view = { leaves_left };

    ghost invariant = { IsLeaves };
}

impl<'a> Source<Leaf> for Leaves<'a> {
    ghost left = { λ leaves. leaves };

    fn next_leaf(&mut self, alloc: Global) -> Result<Box<Leaf>, AllocError> {
        let more = self.more.min(1);
        let leaf = fill_leaf(self.each + more, &mut self.cursor);
        self.count -= 1;
        self.more -= more;
        Ok(Box::new(alloc, leaf)?)
    }
}

/// Builds the tree of a space in which these ranges are allocated. It has `count` blocks in the fewest leaves, and the
/// minimum height for its leaves.
///
/// It returns an error if an allocation fails. The leaves built so far are freed.
pub(crate) fn build_tree(
    alloc: Global,
    count: u64,
    space: &RangeInclusive,
    held: &[RangeInclusive],
) -> Result<Tree<Leaf>, AllocError>
    requires in_order { AreInOrder space.now.start held.now space.now.end }
    requires count { count ≡ length (blocks_between space.now.start held.now space.now.end) }
    requires few { count < TOO_MANY_BLOCKS }
    ensures { IfOk result
        (λ tree. IsBuiltTree (blocks_between space.now.start held.now space.now.end) tree) }
{
    let mut cursor = BlockCursor {
        next: space.start().into(),
        held,
        end: space.end(),
    };
    let leaves = (count - 1) / CAPACITY as u64 + 1;
    if leaves == 1 {
        let leaf = fill_leaf(count, &mut cursor);
        return Ok(Tree::single(Box::new(alloc, leaf)?));
    }
    let mut source = Leaves {
        cursor,
        count: leaves,
        each: count / leaves,
        more: count % leaves,
    };
    Tree::build(leaves as usize, &mut source, alloc)
}
