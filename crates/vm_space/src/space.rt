//! The blocks of a space.
//!
//! All calls pass the tree to functions of this crate that ask for a valid space, which the invariant of [`Space`] gives.
ghost use Rattle.std.specs.Prelude.{◌≡◌, ◌≢◌, ◌-◌, min, Err, ◌+◌, ◌*◌, ◌<◌, ◌≤◌, ◌∷◌, ◌++◌, [], length, IfOk, IfErr, IsOk, IsSome, OnErr, MatchOption};
ghost use Rattle.vm_ranges.specs.Range.{MAX, at_address};
ghost use Rattle.vm_ranges.specs.Address.{AreInOrder};
ghost use Rattle.vm_leaf.specs.Block.{free_block};
ghost use Rattle.vm_leaf.specs.Blocks.{longest_gap};
ghost use Rattle.vm_leaf.specs.BlockStarts.{starts_of};
ghost use Rattle.vm_leaf.specs.SpaceBlocks.{blocks_between};
ghost use Rattle.vm_leaf.specs.TreeHeights.{TOO_MANY_BLOCKS};
ghost use Rattle.vm_space.specs.Building.{IsBuiltTree};
ghost use Rattle.vm_space.specs.Lookups.{find_superset};
ghost use Rattle.vm_space.specs.Trees.{IsBlockTree, held_blocks};
ghost use Rattle.vm_space.specs.Spares.{HasSpare};
ghost use Rattle.vm_space.specs.Walks.{meeting_blocks};
ghost use Rattle.vm_tree.specs.Subtree.{leaf_of};
ghost use Rattle.vm_tree.specs.Sought.{nodes};
ghost use Rattle.vm_space.specs.NodeCounts.{IsSearchCount};
ghost use Rattle.vm_space.specs.Shape.{blocks, height_of};
ghost use Rattle.vm_space.specs.Leaves.{IsInLeaf};
ghost use Rattle.vm_space.specs.Frees.{FreesBlock, Holds};
ghost use Rattle.vm_space.specs.Allocation.{window_of, IsSearch, IsOutOfMemory, AllocatesExact, FindsFit, AllocatesFit};
ghost use Rattle.vm_space.specs.Placing.{IsStartIn};

use crate::build::build_tree;
use crate::closest::{fit_in_space, look_in_space};
use crate::copy::append_starts;
use crate::exact::Exact;
use crate::find::block_at;
use crate::free::free_in_tree;
use crate::search::{Refusal, Search, Taken};
use crate::spare::{Spare, take};
use crate::walk::Walk;
use std::alloc::{AllocError, Global};
use std::fmt::{Debug, Formatter, Write};
use std::marker::Model;
use vm_leaf::{Block, BlockStart, Leaf};
use vm_ranges::{NodeState, RangeInclusive};
use vm_tree::{End, Tree};

/// The blocks of a space, in the leaves of a tree.
#[derive(Drop)]
pub struct Space {
    tree: Tree<Leaf>,
}

impl Model for Space {
    ghost use Rattle.vm_space.specs.Shape.{Shape, shape_code};

    ghost Value = { Shape };

    ghost coded = { shape_code };

    ghost use Rattle.vm_space.specs.Spaces.{AreSpace};

    ghost view = { λ a. a.tree };

    ghost invariant = { λ a. AreSpace a.tree.leaves };
}

impl Space {
    /// Creates a space that is free as a whole. It allocates one leaf.
    pub fn new(alloc: Global, space: RangeInclusive) -> Result<Space, AllocError>
        ensures { IfOk result (λ made. made ≡ leaf_of (free_block space ∷ [])) }
    {
        let block = Block {
            key: space,
            state: NodeState::Free,
        };
        let leaf = Box::new(alloc, Leaf::single(block))?;
        Ok(Space {
            tree: Tree::single(leaf),
        })
    }

    /// Creates the tree of a space in which these ranges are allocated. It has the fewest leaves, and the
    /// minimum height for them.
    ///
    /// It returns an error if an allocation fails.
    ///
    /// `held` must be in ascending order, in the space, without overlaps and without `u64::MAX`. `count` must
    /// be the number of blocks: the ranges, and the gaps between them.
    pub fn with_held(
        alloc: Global,
        count: u64,
        space: RangeInclusive,
        held: &[RangeInclusive],
    ) -> Result<Space, AllocError>
        requires in_order { AreInOrder space.start held.now space.end }
        requires count { count ≡ length (blocks_between space.start held.now space.end) }
        requires few { count < TOO_MANY_BLOCKS }
        ensures { IfOk result (λ made. IsBuiltTree (blocks_between space.start held.now space.end) made) }
    {
        Ok(Space {
            tree: build_tree(alloc, count, &space, held)?,
        })
    }

    /// Returns a copy with the same nodes, or an error if an allocation fails.
    pub fn try_clone(&self, alloc: Global) -> Result<Space, AllocError>
        ensures { IfOk result (λ space. space ≡ self.now) }
    {
        Ok(Space {
            tree: self.tree.copy(alloc)?,
        })
    }

    /// Proof: the tree is valid.
    pub fn facts(&self)
        ensures { IsBlockTree self.now }
    {
        self.tree.facts();
        if let Some(leaf) = self.tree.only_leaf() {
            let _len = leaf.len();
        }
    }

    /// Returns the height: the number of nodes on the path to a leaf. A leaf is a node.
    #[tactic(auto, using(crate::proofs::Spaces::space_some, crate::proofs::Heights::few_leaves))]
    pub fn height(&self) -> u64
        ensures { result ≡ height_of self.now }
    {
        self.tree.height()
    }

    /// Returns the length of the longest gap, or 0 if there is none.
    #[tactic(auto, using(crate::proofs::Spaces::space_some, crate::proofs::Spaces::longest_of_leaves))]
    pub fn longest_gap(&self) -> u64
        ensures { result ≡ longest_gap (blocks self.now) }
    {
        self.tree.entry().longest
    }

    /// Returns the block that contains an address, or `None` outside the space.
    pub fn block_at(&self, address: u64) -> Option<Block>
        ensures { result ≡ find_superset (at_address address) (blocks self.now) }
    {
        block_at(&self.tree, address)
    }

    /// Appends the starts of all blocks to a list, or returns an error if an allocation fails.
    pub fn append_starts(&self, list: &mut Vec<BlockStart>) -> Result<(), AllocError>
        ensures { IfOk result (λ _. list.new.items ≡ list.old.items ++ starts_of (blocks self.now)) }
    {
        append_starts(&self.tree, list)
    }

    /// Returns an iterator over all blocks, from both ends. It does not allocate.
    pub fn blocks(&self) -> Walk<'_>
        ensures { result ≡ blocks self.now }
    {
        Walk::new(&self.tree)
    }

    /// Returns an iterator over the blocks that have an address in common with `window`, from both ends. It
    /// does not allocate.
    pub fn blocks_in(&self, window: &RangeInclusive) -> Walk<'_>
        ensures { result ≡ meeting_blocks window.now (blocks self.now) }
    {
        Walk::within(&self.tree, window)
    }

    /// Allocates the range of a search that starts at `start`.
    ///
    /// It returns `Held` if exactly this range is allocated, and otherwise `NoPlace` if the range is not in a
    /// gap and in the window. It returns `PastMax` if the range ends at `u64::MAX`, `CannotSplit` if gaps cannot be
    /// split, and `OutOfMemory` if an allocation fails. It does not allocate if there is a `spare` for as many ranges
    /// as are allocated. An error changes nothing.
    ///
    /// `start` must be in the space and in the window, and the range must end at most at `u64::MAX`.
    pub fn allocate_exact(
        &mut self,
        start: u64,
        search: &Search,
        spare: &mut Option<Spare>,
        alloc: Global,
        count: &mut u64,
    ) -> Result<Taken, Refusal>
        requires sized { 0 < search.now.size }
        requires start { IsStartIn search.now start (blocks self.old) }
        ensures answer { AllocatesExact search.now start (blocks self.old) (blocks self.new) result }
        ensures unchanged { OnErr result (self.new ≡ self.old) }
        ensures memory { HasSpare (held_blocks (blocks self.old)) spare.old → IfErr result (λ refusal. ¬ IsOutOfMemory refusal) }
        ensures height { (self.old.height ≤ self.new.height) × (self.new.height ≤ self.old.height + 1) }
        ensures count { count.new ≤ count.old + self.old.height }
        ensures path { IsOk result → min (count.old + self.old.height) MAX ≤ count.new }
    {
        // Proof: the tree is valid.
        self.facts();
        if start == u64::MAX {
            return Err(Refusal::PastMax);
        }
        let (leaf, mut nodes) = take(spare, alloc);
        let mut exact = Exact {
            start,
            search: *search,
            answer: Err(Refusal::NoPlace),
            spare: leaf,
        };
        self.tree
            .edit_with(start, &mut exact, &mut nodes, alloc, count)?;
        exact.answer
    }

    /// Frees an allocated range, and joins it with the gaps on both sides. Returns the number of these gaps:
    /// 0, 1 or 2.
    ///
    /// It returns `None`, and changes nothing, unless exactly this range is allocated. It does not allocate
    /// memory, and enters at most three nodes for each level of the tree.
    ///
    /// The range must start in the space.
    pub fn free(&mut self, key: &RangeInclusive, count: &mut u64) -> Option<u64>
        requires start { IsInLeaf key.now.start (blocks self.old) }
        ensures freed { MatchOption result
            ((self.new ≡ self.old) × ¬ Holds key.now (blocks self.old))
            (λ joined. FreesBlock key.now (blocks self.old) (blocks self.new) × (length (blocks self.old) ≡ length (blocks self.new) + joined)) }
        ensures height { self.new.height ≤ self.old.height }
        ensures count { count.new ≤ count.old + 3 * self.old.height }
        ensures path { IsSome result → min (count.old + self.old.height) MAX ≤ count.new }
    {
        // Proof: a field that is read gives the facts of a space.
        let _tree = &self.tree;
        if key.start() == u64::MAX {
            return None;
        }
        free_in_tree(&mut self.tree, key, count)
    }

    /// Returns the range of the place of a search that is closest to an end, or `None` if there is no place.
    pub fn look_fit(&self, end: End, search: &Search) -> Option<RangeInclusive>
        requires search { IsSearch search.now }
        ensures { FindsFit end search.now (blocks self.now) result }
    {
        look_in_space(&self.tree, end, search)
    }

    /// Allocates the place of a search that is closest to an end: the lowest or the highest place.
    ///
    /// It returns `NoPlace` if there is none, `PastMax` if the range there ends at `u64::MAX`, `CannotSplit` if gaps
    /// cannot be split, and `OutOfMemory` if an allocation fails. An error changes nothing.
    pub fn allocate_fit(
        &mut self,
        end: End,
        search: &Search,
        alloc: Global,
        count: &mut u64,
    ) -> Result<Taken, Refusal>
        requires search { IsSearch search.now }
        ensures answer { AllocatesFit end search.now (blocks self.old) (blocks self.new) result }
        ensures unchanged { OnErr result (self.new ≡ self.old) }
        ensures height { (self.old.height ≤ self.new.height) × (self.new.height ≤ self.old.height + 1) }
        ensures count { IsSearchCount (window_of search.now) search.now.size search.now.alignment self.old.height (nodes self.old) (blocks self.old) (count.new - count.old) }
        ensures path { result ≢ Err Refusal.NoPlace → min (count.old + self.old.height) MAX ≤ count.new }
    {
        // Proof: a field that is read gives the facts of a space.
        let _tree = &self.tree;
        fit_in_space(&mut self.tree, end, search, alloc, count)
    }
}

impl Debug for Space {
    fn fmt<W: Write>(&self, f: &mut Formatter<W>) -> std::fmt::Result {
        f.debug_list().entries(self.blocks()).finish()
    }
}
