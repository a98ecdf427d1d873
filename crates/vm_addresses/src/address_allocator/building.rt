//! Creates an allocator with some ranges allocated.
//!
//! A first pass checks and counts without allocating. A second pass builds the blocks into leaves.
ghost use Rattle.std.specs.Prelude.{◌≡◌, ◌+◌, ◌<◌, ◌≤◌, Some, None, Ok, IfOk, IfErr, MatchResult};
ghost use Rattle.vm_ranges.specs.ListErrors.{by_error};
ghost use Rattle.vm_ranges.specs.Range.{IsRange};
ghost use Rattle.vm_space.specs.Building.{IsLowestTree};
ghost use Rattle.vm_leaf.specs.TreeHeights.{TOO_MANY_BLOCKS};
ghost use Rattle.vm_addresses.specs.Checks.HeldKeys.{CanBeHeld};
ghost use Rattle.vm_ranges.specs.Address.{IsAddressState, AreInOrder};
ghost use Rattle.vm_addresses.specs.Held.{MakesHeld, MakesWithHeld, HasFaultIndex, ChecksHeld, CountsBlocks, range_fault, fault_index};
ghost use Rattle.vm_addresses.specs.Allocator.{state_of, made_state};

use super::{AddressAllocator, space_from};
use std::alloc::{AllocError, Global};
use vm_ranges::{Error, ListError, RangeInclusive, Result};
use vm_space::Space;

/// A tree of this many blocks or more is too high.
const TOO_MANY_BLOCKS: u64 = 1 << 49;

impl AddressAllocator {
    /// Creates an allocator of the `size` addresses that start at `base`, with these ranges allocated.
    /// They must be in ascending order.
    ///
    /// Its tree has the fewest leaves, and the minimum height for its nodes. It takes time linear in the
    /// number of ranges.
    ///
    /// # Errors
    ///
    /// In this order. Only the error of a range that cannot be allocated has an index.
    /// - `Underflow` if `size` is 0.
    /// - `Overflow` if the space would end past `u64::MAX`.
    /// - For the first range that cannot be allocated:
    ///   - `ResourceNotAvailable` if it does not start after the end of the range before it.
    ///   - `Overflow` if it starts at `u64::MAX`.
    ///   - `ResourceNotAvailable` if it is outside the space.
    ///   - `Overflow` if it ends at `u64::MAX`.
    /// - `Overflow` if the ranges and the gaps together are 2^49 or more.
    /// - `OutOfMemory` if an allocation fails.
    #[tactic(auto, using(crate::proofs::Results::Making::making_held))]
    pub fn with_held(
        alloc: Global,
        base: u64,
        size: u64,
        held: &[RangeInclusive],
    ) -> std::result::Result<Self, ListError>
        ensures answer { MakesWithHeld base size held.now (made_state (by_error result)) }
        ensures index { IfErr result (λ failure. HasFaultIndex base size held.now failure.index) }
        ensures low { IfOk result IsLowestTree }
        ensures state { IfOk result (λ allocator. IsAddressState (state_of allocator)) }
    {
        let space = space_from(base, size)?;
        Self::holding(alloc, space, held)
    }

    /// Creates an allocator of a space with these ranges allocated. They must be in ascending order.
    ///
    /// [`with_held`](Self::with_held) documents the errors.
    #[tactic(auto, using(crate::proofs::Trees::HeldTrees::makings))]
    pub(super) fn holding(
        alloc: Global,
        space: RangeInclusive,
        held: &[RangeInclusive],
    ) -> std::result::Result<Self, ListError>
        ensures answer { MakesHeld space held.now (made_state (by_error result)) }
        ensures index { IfErr result (λ failure. failure.index ≡ fault_index 0 space.start space.end held.now) }
        ensures low { IfOk result IsLowestTree }
        ensures state { IfOk result (λ allocator. IsAddressState (state_of allocator)) }
    {
        check_held(&space, held)?;
        let (count, left) = count_blocks(&space, held);
        if count >= TOO_MANY_BLOCKS {
            return Err(Error::Overflow.into());
        }
        Ok(build(alloc, space, held, count, left)?)
    }

    /// Creates an allocator of a space with these ranges allocated, which can be. Its tree has the minimum
    /// height for its nodes.
    #[tactic(auto, using(crate::proofs::Trees::HeldTrees::holdings))]
    pub(crate) fn of_held(
        alloc: Global,
        space: RangeInclusive,
        held: &[RangeInclusive],
    ) -> std::result::Result<Self, AllocError>
        requires { CanBeHeld space held.now }
        ensures made { IfOk result (λ allocator. state_of allocator ≡ record { space = space; held = held.now }) }
        ensures low { IfOk result IsLowestTree }
        ensures state { IfOk result (λ allocator. IsAddressState (state_of allocator)) }
    {
        let (count, left) = count_blocks(&space, held);
        build(alloc, space, held, count, left)
    }
}

/// Builds an allocator of a space with these ranges allocated. `count` is the number of its blocks, and `left`
/// the number of its free addresses.
fn build(
    alloc: Global,
    space: RangeInclusive,
    held: &[RangeInclusive],
    count: u64,
    left: u64,
) -> std::result::Result<AddressAllocator, AllocError>
    requires in_order { AreInOrder space.start held.now space.end }
    requires counted { CountsBlocks space held.now (count, left) }
    requires few { count < TOO_MANY_BLOCKS }
    ensures made { IfOk result (λ allocator. state_of allocator ≡ record { space = space; held = held.now }) }
    ensures low { IfOk result IsLowestTree }
    ensures state { IfOk result (λ allocator. IsAddressState (state_of allocator)) }
{
    // Proof: this shows that the space is a range.
    let _end = space.end();
    Ok(AddressAllocator {
        tree: Space::with_held(alloc, count, space, held)?,
        space,
        held_count: held.len() as u64,
        gap_count: count - held.len() as u64,
        free_len: left,
    })
}

/// Checks that these ranges can be allocated in the space. The error has the index of the first that cannot.
fn check_held(space: &RangeInclusive, held: &[RangeInclusive]) -> std::result::Result<(), ListError>
    ensures checked { ChecksHeld space.now held.now result }
    ensures space { IsRange space.now.start space.now.end }
{
    let end = space.end();
    let mut next = space.start();
    for (index, range) in held.iter().enumerate() {
        if let Err(error) = check_next(next, end, range) {
            let index = Some(index);
            return Err(ListError { index, error });
        }
        next = range.end() + 1;
    }
    Ok(())
}

/// Returns the numbers of blocks and of free addresses of the space with these ranges allocated.
fn count_blocks(space: &RangeInclusive, held: &[RangeInclusive]) -> (u64, u64)
    requires { AreInOrder space.now.start held.now space.now.end }
    ensures { CountsBlocks space.now held.now result }
{
    let end = space.end();
    let mut next = space.start();
    let (mut count, mut left) = (0, 0);
    for range in held {
        if next < range.start() {
            count += 1;
            left += range.start() - next;
        }
        count += 1;
        next = range.end() + 1;
    }
    if next <= end {
        count += 1;
        left += end - next + 1;
    }
    (count, left)
}

/// Checks that a range can be allocated if it must start at `next` or later, in a space that ends at
/// `end`.
fn check_next(next: u64, end: u64, range: &RangeInclusive) -> Result<()>
    ensures { MatchResult result
        (λ _. range_fault next end range.now ≡ None)
        (λ error. range_fault next end range.now ≡ Some error) }
{
    if range.start() < next {
        return Err(Error::ResourceNotAvailable);
    }
    if range.start() == u64::MAX {
        return Err(Error::Overflow);
    }
    if end < range.end() {
        return Err(Error::ResourceNotAvailable);
    }
    if range.end() == u64::MAX {
        return Err(Error::Overflow);
    }
    Ok(())
}
