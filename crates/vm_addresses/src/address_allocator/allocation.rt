//! Allocates the range of a request.
ghost use Rattle.std.specs.Prelude.{◌≡◌, ◌≢◌, ℕ, ◌<◌, ◌≤◌, true, None, Err, OnErr, IsOk, length};
ghost use Rattle.vm_ranges.specs.Cases.{IsTestOf};
ghost use Rattle.vm_ranges.specs.Request.{Request, IsRequest};
ghost use Rattle.vm_ranges.specs.declared.constraint.AllocPolicy.TheVariants.{ExactMatch};
ghost use Rattle.vm_space.specs.Allocation.{IsSearch};
ghost use Rattle.vm_space.specs.Spares.{HasSpare};
ghost use Rattle.vm_space.specs.Trees.{IsBlockTree};
ghost use Rattle.vm_space.specs.Shape.{blocks, height_of};
ghost use Rattle.vm_ranges.specs.Address.{IsAddressState};
ghost use Rattle.vm_ranges.specs.Answer.{SPLIT_LIMIT_MIN_HELD, Grants, Allocates, FillsGap};
ghost use Rattle.vm_addresses.specs.Counts.GapSearch.{SearchesGaps};
ghost use Rattle.vm_addresses.specs.Counts.Steps.{IsAllocationCount};
ghost use Rattle.vm_addresses.specs.Tree.Allocation.{with_error, IsSearchOf, IsAllocation};
ghost use Rattle.vm_leaf.specs.SpaceBlocks.{IsTiling, held_of};
ghost use Rattle.vm_addresses.specs.Allocator.{state_of};

use super::AddressAllocator;
use std::alloc::Global;
use vm_ranges::{AllocPolicy, Constraint, Error, NodeState, RangeInclusive, Result, SPLIT_LIMIT};
use vm_space::{End, Refusal, Search, Space, Spare, Taken};

impl AddressAllocator {
    /// Allocates like [`allocate_constraint`](Self::allocate_constraint), and also returns the number
    /// of tree nodes that the call entered.
    ///
    /// A request without a window has the bounds of [`allocate_counted`](Self::allocate_counted). Let
    /// h be the [`height`](Self::height) and k the number of allocated ranges before the call. With a
    /// window, the count is
    /// - at most h for `ExactMatch`.
    /// - at most 2k + 1 for `FirstMatch` and `LastMatch`.
    /// - at most h(v + 2) for these two. Here v is the number of parts of gaps in the window that are long
    ///   enough but misaligned.
    ///
    /// # Errors
    ///
    /// Those of [`allocate_constraint`](Self::allocate_constraint), in the same order.
    #[inline(always)]
    pub fn allocate_constraint_counted(
        &mut self,
        alloc: Global,
        request: Constraint,
    ) -> (Result<RangeInclusive>, u64)
        ensures answer { Allocates (state_of self.old) request result.0 (state_of self.new) }
        ensures unchanged { OnErr result.0 (self.new ≡ self.old) }

        // A request that fills its gap needs no memory, so it succeeds.
        ensures filling { (start : ℕ) → FillsGap (state_of self.old) request start → IsOk result.0 }
        ensures steps { IsAllocationCount (height_of self.old) (state_of self.old) request result.0 result.1 }
        ensures search { SearchesGaps (height_of self.old) (state_of self.old) request result.0 result.1 }
        ensures state { IsAddressState (state_of self.new) }
    {
        let can_split = self.held_count < SPLIT_LIMIT;
        self.allocate_with(&mut None, alloc, request, can_split)
    }

    /// Allocates like [`allocate_constraint_counted`](Self::allocate_constraint_counted). It splits gaps only
    /// if `can_split`. For `ExactMatch` it allocates no memory if there is a `spare`.
    #[inline(always)]
    pub(super) fn allocate_with(
        &mut self,
        spare: &mut Option<Spare>,
        alloc: Global,
        request: Constraint,
        can_split: bool,
    ) -> (Result<RangeInclusive>, u64)
        requires few { can_split ≡ true → length (state_of self.old).held ≤ SPLIT_LIMIT_MIN_HELD }
        ensures valid { IsRequest request }
        ensures grants { (counted : ℕ) → IsTestOf can_split (counted < SPLIT_LIMIT_MIN_HELD)
            → Grants counted (state_of self.old) request result.0 (state_of self.new) }
        ensures memory { (t : ℕ) → request.policy ≡ ExactMatch t → HasSpare (length (state_of self.old).held) spare.old → result.0 ≢ Err Error.OutOfMemory }
        ensures unchanged { OnErr result.0 (self.new ≡ self.old) }
        ensures steps { IsAllocationCount (height_of self.old) (state_of self.old) request result.0 result.1 }
        ensures search { SearchesGaps (height_of self.old) (state_of self.old) request result.0 result.1 }
        ensures state { IsAddressState (state_of self.new) }
    {
        let mut count = 0;
        let (tree, space) = (&mut self.tree, &self.space);
        let taken = match allocate_in(tree, space, &request, can_split, spare, alloc, &mut count) {
            Ok(taken) => taken,
            Err(error) => return (Err(error), count),
        };
        self.held_count += 1;
        self.gap_count += u64::from(taken.added);
        self.gap_count -= 1;
        self.free_len -= request.size();
        (Ok(taken.range), count)
    }
}

/// Allocates the range of a request in the tree of a space.
#[inline(always)]
fn allocate_in(
    tree: &mut Space,
    space: &RangeInclusive,
    constraint: &Constraint,
    can_split: bool,
    spare: &mut Option<Spare>,
    alloc: Global,
    count: &mut u64,
) -> Result<Taken>
    requires tiling { IsTiling space.now (blocks tree.old) }
    requires few { can_split ≡ true → length (held_of (blocks tree.old)) ≤ SPLIT_LIMIT_MIN_HELD }
    requires count { count.old ≡ 0 }
    ensures valid { IsRequest constraint.now }
    ensures answer { IsAllocation constraint.now space.now can_split tree.old tree.new result count.new }
    ensures memory { (t : ℕ) → constraint.now.policy ≡ ExactMatch t → HasSpare (length (held_of (blocks tree.old))) spare.old
        → result ≢ Err Error.OutOfMemory }
{
    // Proof: the tree is valid.
    tree.facts();
    let search = search_of(constraint, space, can_split);
    let end = match constraint.policy() {
        AllocPolicy::FirstMatch => End::First,
        AllocPolicy::LastMatch => End::Last,
        AllocPolicy::ExactMatch(start) => {
            return allocate_exact(tree, space, start, &search, spare, alloc, count);
        }
    };
    with_error(tree.allocate_fit(end, &search, alloc, count), space)
}

/// Allocates the range of a search that starts at `start`.
///
/// The errors are, in this order:
/// - `Overflow` if `start` is `u64::MAX`.
/// - `ResourceNotAvailable` if `start` is outside the space or outside the window.
/// - `Overflow` if the range would end past `u64::MAX`.
/// - The error of the tree.
#[inline(always)]
#[tactic(auto, using(crate::proofs::Placing::Requests::allocating_exact))]
fn allocate_exact(
    tree: &mut Space,
    space: &RangeInclusive,
    start: u64,
    search: &Search,
    spare: &mut Option<Spare>,
    alloc: Global,
    count: &mut u64,
) -> Result<Taken>
    requires tiling { IsTiling space.now (blocks tree.old) }
    requires few { search.now.can_split ≡ true → length (held_of (blocks tree.old)) ≤ SPLIT_LIMIT_MIN_HELD }
    requires low { IsBlockTree tree.old }
    requires search { IsSearch search.now }
    requires count { count.old ≡ 0 }
    ensures memory { HasSpare (length (held_of (blocks tree.old))) spare.old → result ≢ Err Error.OutOfMemory }
    ensures answer { (request : Request) → IsRequest request → request.policy ≡ ExactMatch start
        → IsSearchOf request space.now search.now
        → IsAllocation request space.now search.now.can_split tree.old tree.new result count.new }
{
    if start == u64::MAX {
        return Err(Error::Overflow);
    }
    let (from, to) = (search.low.max(space.start()), search.high.min(space.end()));
    if start < from || to < start {
        return Err(Error::ResourceNotAvailable);
    }
    let Some(last) = start.checked_add(search.size - 1) else {
        return Err(Error::Overflow);
    };
    let range = RangeInclusive::between(start, last);
    with_error(
        tree.allocate_exact(start, search, spare, alloc, count),
        &range,
    )
}

/// Returns the search of a request in a space.
#[inline(always)]
pub(super) fn search_of(constraint: &Constraint, space: &RangeInclusive, can_split: bool) -> Search
    ensures search { IsSearchOf constraint.now space.now result }
    ensures valid { IsSearch result }
    ensures request { IsRequest constraint.now }
    ensures split { result.can_split ≡ can_split }
{
    let window = match constraint.window() {
        None => *space,
        Some(window) => window,
    };
    Search {
        size: constraint.size(),
        alignment: constraint.align(),
        low: window.start(),
        high: window.end(),
        can_split,
    }
}

/// Returns what a search found, with the error of its refusal. A search for `range` alone can find that
/// it is allocated.
#[inline(always)]
fn with_error(found: std::result::Result<Taken, Refusal>, range: &RangeInclusive) -> Result<Taken>
    ensures { result ≡ with_error range.now found }
{
    let refusal = match found {
        Ok(taken) => return Ok(taken),
        Err(refusal) => refusal,
    };
    Err(match refusal {
        Refusal::NoPlace => Error::ResourceNotAvailable,
        Refusal::Held => Error::InvalidStateTransition(*range, NodeState::Allocated),
        Refusal::PastMax | Refusal::CannotSplit => Error::Overflow,
        Refusal::OutOfMemory(failed) => Error::from(failed),
    })
}
