//! The saved tree of an allocator, as nodes that a serializer writes and reads.
ghost use Rattle.std.specs.Prelude.{◌≡◌, IfOk};
ghost use Rattle.vm_ranges.specs.Address.{IsAddressState};
ghost use Rattle.vm_ranges.specs.declared.saved.Condition.TheVariants.{Inside, Tree};
ghost use Rattle.vm_space.specs.Building.{IsLowestTree};
ghost use Rattle.vm_space.specs.Shape.{blocks};
ghost use Rattle.vm_saved_trees.specs.NodesRead.{MakesOfNodes, condition_of};
ghost use Rattle.vm_saved_trees.specs.SavedTrees.{HasHeldKeys, HasTreeOf, HasHeldAs};
ghost use Rattle.vm_addresses.specs.Allocator.{state_of, made_state};

use crate::AddressAllocator;
use std::alloc::{AllocError, Global};
use vm_ranges::{RangeInclusive, SavedError};
use vm_saved_trees::{Form, ReadNodes, WrittenBlocks};

impl AddressAllocator {
    /// Returns the blocks of which the saved tree of the allocator is made, or an error if an
    /// allocation fails.
    #[tactic(auto, using(crate::proofs::Trees::CountedTrees::blocks_fit))]
    pub fn written_blocks(&self, alloc: Global) -> std::result::Result<WrittenBlocks, AllocError>
        ensures { IfOk result (λ written. written ≡ blocks self.now) }
    {
        let mut starts = Vec::with_capacity(alloc, (self.held_count + self.gap_count) as usize)?;
        self.tree.append_starts(&mut starts)?;
        Ok(WrittenBlocks::new(starts, self.end()))
    }

    /// Returns the allocator that a saved space and a saved tree represent. Its tree has the minimum height.
    ///
    /// # Errors
    ///
    /// In this order:
    /// - The error of reading the nodes.
    /// - `Violated(Tree)` if the nodes are not one whole tree of the space.
    /// - `OutOfMemory` if an allocation fails.
    pub fn from_nodes(
        alloc: Global,
        space: RangeInclusive,
        nodes: &ReadNodes,
    ) -> std::result::Result<Self, SavedError>
        ensures answer { MakesOfNodes (HasTreeOf space) Tree nodes.now (made_state result) }
        ensures low { IfOk result IsLowestTree }
        ensures state { IfOk result (λ allocator. IsAddressState (state_of allocator)) }
    {
        Self::from_read_nodes(alloc, space, nodes, Form::Strict)
    }

    /// Returns the allocator of a saved space in which the allocated keys of a saved tree are
    /// allocated. The saved tree can be empty or unbalanced, with gaps, free neighbours and wrong heights.
    /// The tree of the allocator has the minimum height.
    ///
    /// # Errors
    ///
    /// In this order:
    /// - The error of reading the nodes.
    /// - `Violated(Inside)` if the nodes are not one whole tree, if a key is not in the space, or if more
    ///   than 6,293,134,512 keys are allocated.
    /// - `OutOfMemory` if an allocation fails.
    pub fn from_nodes_repaired(
        alloc: Global,
        space: RangeInclusive,
        nodes: &ReadNodes,
    ) -> std::result::Result<Self, SavedError>
        ensures answer { MakesOfNodes (HasHeldKeys space) Inside nodes.now (made_state result) }
        ensures low { IfOk result IsLowestTree }
        ensures state { IfOk result (λ allocator. IsAddressState (state_of allocator)) }
    {
        Self::from_read_nodes(alloc, space, nodes, Form::Repaired)
    }

    /// Returns the allocator of a space, of nodes that are accepted in this form.
    ///
    /// [`from_nodes`](Self::from_nodes) and [`from_nodes_repaired`](Self::from_nodes_repaired) document the
    /// errors.
    fn from_read_nodes(
        alloc: Global,
        space: RangeInclusive,
        nodes: &ReadNodes,
        form: Form,
    ) -> std::result::Result<Self, SavedError>
        ensures answer { MakesOfNodes (HasHeldAs form space) (condition_of form) nodes.now (made_state result) }
        ensures low { IfOk result IsLowestTree }
        ensures state { IfOk result (λ allocator. IsAddressState (state_of allocator)) }
    {
        let held = nodes.held_keys(&space, form)?;
        Ok(Self::of_held(alloc, space, held)?)
    }
}
