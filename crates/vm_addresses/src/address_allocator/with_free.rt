//! Creates an allocator of the ranges that are free in it.
ghost use Rattle.std.specs.Prelude.{◌≡◌, ◌↔◌, ℕ, ◌+◌, None, IfOk, IfErr};
ghost use Rattle.std.specs.List.{Contains};
ghost use Rattle.vm_ranges.specs.ListErrors.{by_error};
ghost use Rattle.vm_ranges.specs.Range.{Range, IsIn};
ghost use Rattle.vm_ranges.specs.Address.{IsAddressState, IsClear};
ghost use Rattle.vm_space.specs.Building.{IsLowestTree};
ghost use Rattle.vm_addresses.specs.Allocator.{state_of, made_state};
ghost use Rattle.vm_addresses.specs.Holes.{MakesWithFree, wrong_index, holes_after};
ghost use Rattle.vm_addresses.specs.Checks.FreeChecks.{ChecksFree};

use super::AddressAllocator;
use std::alloc::{AllocError, Global};
use vm_ranges::{Error, ListError, RangeInclusive};

/// The maximum number of holes.
const MAX_HOLES: u64 = (1 << 48) - 1;

impl AddressAllocator {
    /// Creates an allocator in which exactly these ranges are free. They must be in ascending order,
    /// and share no address.
    ///
    /// The space is from the first address of the first range to the last address of the last one. The
    /// holes between the ranges are allocated, one range for each hole, and can be freed. Two ranges
    /// without a hole between them are one gap.
    ///
    /// Its tree has the fewest leaves, and the minimum height for its nodes. It takes time linear in the
    /// number of ranges, and also allocates a list of the holes.
    ///
    /// # Errors
    ///
    /// In this order. Only the error of a range has an index.
    /// - `Underflow` if there is no range.
    /// - `ResourceNotAvailable` for the first range that does not start after the end of the range before
    ///   it.
    /// - `InvalidRange` if the space would have all 2^64 addresses.
    /// - `Overflow` if there are 2^48 holes or more.
    /// - `OutOfMemory` if an allocation fails.
    #[tactic(auto, using(crate::proofs::Results::Making::making_held))]
    pub fn with_free(alloc: Global, free: &[RangeInclusive]) -> std::result::Result<Self, ListError>
        ensures answer { MakesWithFree free.now (made_state (by_error result)) }
        ensures index { IfErr result (λ failure. failure.index ≡ wrong_index 0 0 free.now) }

        // An address is clear if and only if it is in one of the ranges.
        ensures clear { IfOk result (λ allocator. (x : ℕ) →
            IsClear (state_of allocator) x ↔ ((r : Range) × Contains free.now r × IsIn r x)) }
        ensures low { IfOk result IsLowestTree }
        ensures state { IfOk result (λ allocator. IsAddressState (state_of allocator)) }
    {
        let Some((first, others)) = free.split_first() else {
            return Err(Error::Underflow.into());
        };
        let (last, count) = check_free(first, others)?;
        let space = RangeInclusive::new(first.start(), last.end())?;
        if count > MAX_HOLES {
            return Err(Error::Overflow.into());
        }
        let holes = holes_between(alloc, first, others, count)?;
        Self::holding(alloc, space, &holes)
    }
}

/// Returns the last range and the number of holes, or the error of the first range that does not start
/// after the end of the range before it.
#[tactic(auto, using(crate::proofs::Results::Holes::wrong_here, crate::proofs::Results::Holes::right_here, crate::proofs::Results::Holes::hole_here, crate::proofs::Results::Holes::no_hole))]
fn check_free(
    first: &RangeInclusive,
    others: &[RangeInclusive],
) -> std::result::Result<(RangeInclusive, u64), ListError>
    ensures { ChecksFree first.now others.now result }
{
    let mut last = *first;
    let mut holes = 0;
    for (index, range) in others.iter().enumerate() {
        if range.start() <= last.end() {
            return Err(ListError {
                index: Some(index + 1),
                error: Error::ResourceNotAvailable,
            });
        }
        if range.start() - last.end() > 1 {
            holes += 1;
        }
        last = *range;
    }
    Ok((last, holes))
}

/// Returns the holes between ranges, in a list for `count` of them. The ranges are in ascending order.
#[tactic(auto, using(crate::proofs::Results::Holes::in_order_first, crate::proofs::Results::Holes::in_order_rest, crate::proofs::Results::Holes::hole_here, crate::proofs::Results::Holes::no_hole))]
fn holes_between(
    alloc: Global,
    first: &RangeInclusive,
    others: &[RangeInclusive],
    count: u64,
) -> std::result::Result<Vec<RangeInclusive>, AllocError>
    requires { wrong_index 1 (first.now.end + 1) others.now ≡ None }
    ensures { IfOk result (λ holes. holes.items ≡ holes_after (first.now.end + 1) others.now) }
{
    let mut holes = Vec::with_capacity(alloc, count as usize)?;
    let mut end = first.end();
    for range in others {
        let start = range.start();
        if let Ok(hole) = RangeInclusive::new(end + 1, start - 1) {
            holes.push(hole)?;
        }
        end = range.end();
    }
    Ok(holes)
}
