//! The saved value of an address allocator.
ghost use Rattle.std.specs.Prelude.{◌≡◌, IfOk, option_map};
ghost use Rattle.serde_json.specs.View.{view};
ghost use Rattle.vm_space.specs.Shape.{blocks};
ghost use Rattle.vm_space.specs.Building.{IsLowestTree};
ghost use Rattle.vm_ranges.specs.Address.{IsAddressState};
ghost use Rattle.vm_ranges.specs.Saving.{Saves, Reads};
ghost use Rattle.vm_saved_trees.specs.KeyValues.{EncodesAs};
ghost use Rattle.vm_saved_trees.specs.TreeValues.{EncodesSpaceTree};
ghost use Rattle.vm_saved_trees.specs.ValueNodes.{WritesTree};
ghost use Rattle.vm_addresses.specs.Allocator.{state_of, made_state};
ghost use Rattle.vm_addresses.specs.Values.AllocatorValues.{EncodesAddresses, EncodesRepaired};
ghost use Rattle.vm_addresses.specs.Checks.AllocatorChecks.{AllocatorParts, WritesAllocator, decoded_parts, decoded_root};

use crate::address_allocator::AddressAllocator;
use serde_json::{Value, json};
use std::alloc::{AllocError, Global};
use vm_ranges::{RangeInclusive, Result, ValueError, has_fields, range_in};
use vm_saved_trees::{Form, encode, read_held_keys};

impl AddressAllocator {
    /// Encodes the allocator as a value: its space, and a balanced tree of its blocks.
    ///
    /// # Errors
    ///
    /// - `OutOfMemory` if an allocation fails.
    #[tactic(auto, using(crate::proofs::Reading::WrittenAllocators::allocators))]
    pub fn to_value(&self, alloc: Global) -> Result<Value>
        ensures answer { Saves (λ d. EncodesAddresses d (state_of self.now)) result }
        // The blocks decide the saved tree.
        ensures written { Saves (WritesAllocator (blocks self.now)) result }
    {
        let root = self.to_root_value(alloc)?;
        let space = self.space.to_value(alloc)?;
        Ok(allocator_object(alloc, space, root)?)
    }

    /// Decodes an allocator from a value: its space and its allocated ranges. Its tree has the minimum
    /// height.
    ///
    /// The value can be untrusted input. All of it is checked before anything is allocated, and the
    /// check descends at most 51 levels.
    ///
    /// # Errors
    ///
    /// In this order:
    /// - `NotAState` if the value does not encode an allocator.
    /// - `OutOfMemory` if an allocation fails.
    #[tactic(auto, using(crate::proofs::Reading::ReadAllocators::read_by))]
    pub fn from_value(alloc: Global, value: &Value) -> std::result::Result<Self, ValueError>
        ensures answer { Reads (EncodesAddresses (view value.now)) (made_state result) }
        ensures low { IfOk result IsLowestTree }
        ensures state { IfOk result (λ allocator. IsAddressState (state_of allocator)) }
    {
        let Some(parts) = decode_parts(value) else {
            return Err(ValueError::NotAState);
        };
        Self::from_root_value(alloc, &parts.space, parts.root, Form::Strict)
    }

    /// Decodes an allocator from a value that vm-allocator saved, and repairs the effects of its bugs.
    ///
    /// The keys that are `Allocated` are the allocated ranges, and all other addresses of the space
    /// are free. The tree can have no nodes, gaps between keys, free neighbours, no balance and any
    /// heights. The allocator's tree has the minimum height.
    ///
    /// A value that [`from_value`](Self::from_value) reads is read to an equal allocator, if at
    /// most 6,293,134,512 ranges are allocated.
    ///
    /// The value can be untrusted input. All of it is checked before anything is allocated, and the
    /// check descends at most 51 levels.
    ///
    /// # Errors
    ///
    /// In this order:
    /// - `NotAState` if one of these is true:
    ///   - The fields are not those of an allocator and of its nodes.
    ///   - Nodes are nested more than 50 deep.
    ///   - The keys are not in ascending order, overlap, or are not in the space.
    ///   - An allocated key ends at `u64::MAX`.
    ///   - More than 6,293,134,512 keys are allocated.
    /// - `OutOfMemory` if an allocation fails.
    #[tactic(auto, using(crate::proofs::Reading::ReadAllocators::none_repaired, crate::proofs::Reading::ReadAllocators::repaired_read_by))]
    pub fn from_value_repaired(
        alloc: Global,
        value: &Value,
    ) -> std::result::Result<Self, ValueError>
        ensures answer { Reads (EncodesRepaired (view value.now)) (made_state result) }
        ensures low { IfOk result IsLowestTree }
        ensures state { IfOk result (λ allocator. IsAddressState (state_of allocator)) }
    {
        let Some(parts) = decode_parts(value) else {
            return Err(ValueError::NotAState);
        };
        Self::from_root_value(alloc, &parts.space, parts.root, Form::Repaired)
    }

    /// Returns the value that encodes the tree, with one object for each block.
    ///
    /// # Errors
    ///
    /// - `OutOfMemory` if an allocation fails.
    fn to_root_value(&self, alloc: Global) -> Result<Value>
        ensures answer { Saves (λ d. EncodesSpaceTree d (state_of self.now).space (state_of self.now)) result }
        // The blocks decide the saved tree.
        ensures written { Saves (WritesTree (blocks self.now)) result }
    {
        // Proof: this shows that the tree is valid.
        let _tree = &self.tree;
        let written = self.written_blocks(alloc)?;
        encode(&written.tree(), alloc)
    }

    /// Returns the allocator of a space that a value encodes, as a tree that is accepted in this form.
    ///
    /// [`from_value`](Self::from_value) and [`from_value_repaired`](Self::from_value_repaired) document the
    /// errors.
    fn from_root_value(
        alloc: Global,
        space: &RangeInclusive,
        value: &Value,
        form: Form,
    ) -> std::result::Result<Self, ValueError>
        ensures answer { Reads (EncodesAs form (view value.now) space.now) (made_state result) }
        ensures low { IfOk result IsLowestTree }
        ensures state { IfOk result (λ allocator. IsAddressState (state_of allocator)) }
    {
        // Proof: this shows that the space is a range.
        let _end = space.end();
        let held = read_held_keys(alloc, space, value, form)?;
        Ok(Self::of_held(alloc, *space, &held)?)
    }
}

/// Builds the object with the fields of an allocator.
fn allocator_object(
    alloc: Global,
    space: Value,
    root: Value,
) -> std::result::Result<Value, AllocError>
    ensures { IfOk result (λ value. AllocatorParts (view value) (view space) (view root)) }
{
    json!(in alloc; {"address_space": space, "interval_tree": {"root": root}})
}

/// The space in an allocator's value, and the value of the root of its tree.
#[derive(Clone, Copy)]
pub(super) struct SavedAllocator<'a> {
    pub(super) space: RangeInclusive,
    pub(super) root: &'a Value,
}

/// Decodes the fields of an allocator's value. Returns `None` if it has other fields or its space
/// is invalid. The root is not checked.
pub(super) fn decode_parts(value: &Value) -> Option<SavedAllocator<'_>>
    ensures { option_map (λ c. (c.space, view c.root.now)) result ≡ decoded_parts (view value.now) }
{
    if !has_fields(value, 2) {
        return None;
    }
    let space = range_in(value, "address_space")?;
    let root = decode_root(value.get("interval_tree")?)?;
    Some(SavedAllocator { space, root })
}

/// Returns the root in a tree's value, or `None` if it has other fields.
fn decode_root(tree: &Value) -> Option<&Value>
    ensures { option_map (λ v. view v.now) result ≡ decoded_root (view tree.now) }
{
    if !has_fields(tree, 1) {
        return None;
    }
    tree.get("root")
}
