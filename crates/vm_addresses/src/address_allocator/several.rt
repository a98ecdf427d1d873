//! Several allocations in one call: all or none.
ghost use Rattle.std.specs.Prelude.{◌≡◌, ℕ, ◌+◌, ◌*◌, List, length, IfErr, IfOk, MatchResult};
ghost use Rattle.vm_ranges.specs.Request.{Request};
ghost use Rattle.vm_ranges.specs.Address.{AddressState, IsAddressState};
ghost use Rattle.vm_space.specs.Shape.{Shape};
ghost use Rattle.vm_addresses.specs.Allocator.{state_of};
ghost use Rattle.vm_addresses.specs.Conflicts.{IsConflict};
ghost use Rattle.vm_addresses.specs.Queries.{gaps_of, FindsLongestPart};
ghost use Rattle.vm_addresses.specs.Several.{FailsAsNamed, AllocatesEach, FailsAll, IsTrueAfter};

use super::AddressAllocator;
use super::conflicts::Conflict;
use std::alloc::Global;
use vm_ranges::{Constraint, ListError, RangeInclusive};

impl AddressAllocator {
    /// Allocates a range for each request, in their order, and returns the ranges. Each range is where
    /// [`allocate`](Self::allocate) places it after the requests before it.
    ///
    /// # Errors
    ///
    /// An error leaves the same ranges allocated, because the ranges allocated so far are freed again.
    /// All later calls have the same results. The shape of the tree can differ, and so the height and the
    /// counts of later calls.
    /// - `OutOfMemory` without an index if the allocation of the list fails. This is first, and leaves the
    ///   same tree.
    /// - The error of the first request that fails, with its index.
    #[tactic(auto, using(crate::proofs::Trees::Spaces::states))]
    pub fn allocate_all(
        &mut self,
        alloc: Global,
        requests: &[Constraint],
    ) -> std::result::Result<Vec<RangeInclusive>, ListError>
        ensures answer { MatchResult result
            (λ ranges. AllocatesEach (state_of self.old) requests.now ranges.items (state_of self.new))
            (λ failure. FailsAll (state_of self.old) requests.now failure.error (state_of self.new)) }
        ensures failed { IfErr result (λ failure.
            FailsAsNamed self.old requests.now failure self.new) }
        ensures state { IsAddressState (state_of self.new) }
    {
        // Proof: this shows that the tree is valid.
        let _tree = &self.tree;
        let mut ranges = Vec::with_capacity(alloc, requests.len())?;
        for (index, request) in requests.iter().enumerate() {
            match self.allocate_constraint(alloc, *request) {
                Ok(range) => {
                    let Ok(()) = ranges.push(range) else {
                        // The list has the capacity for each range.
                        unreachable!()
                    };
                }
                Err(error) => {
                    self.free_all(&mut ranges);
                    let index = Some(index);
                    return Err(ListError { index, error });
                }
            }
        }
        Ok(ranges)
    }

    /// Returns the [`conflict`](Self::conflict) that a request has after earlier requests of a list got their
    /// ranges.
    ///
    /// It allocates these ranges and frees them again, so the same ranges are allocated as before. The shape of
    /// the tree can differ.
    ///
    /// # Errors
    ///
    /// Those of [`allocate_all`](Self::allocate_all) for the earlier requests.
    #[tactic(auto, using(crate::proofs::Trees::Spaces::states))]
    pub fn conflict_after(
        &mut self,
        alloc: Global,
        earlier: &[Constraint],
        request: Constraint,
    ) -> std::result::Result<Option<Conflict>, ListError>
        ensures reason { IfOk result (λ conflict.
            IsTrueAfter (state_of self.old) earlier.now (λ state. IsConflict state request conflict)) }
        ensures state { state_of self.new ≡ state_of self.old }
    {
        // Proof: this shows that the tree is valid.
        let _tree = &self.tree;
        let mut ranges = self.allocate_all(alloc, earlier)?;
        let conflict = self.conflict(request);
        self.free_all(&mut ranges);
        Ok(conflict)
    }

    /// Returns the [`longest_gap_in`](Self::longest_gap_in) a window after earlier requests of a list got their
    /// ranges, like [`conflict_after`](Self::conflict_after).
    ///
    /// # Errors
    ///
    /// Those of [`conflict_after`](Self::conflict_after).
    #[tactic(auto, using(crate::proofs::Trees::Spaces::states))]
    pub fn longest_gap_after(
        &mut self,
        alloc: Global,
        earlier: &[Constraint],
        window: &RangeInclusive,
    ) -> std::result::Result<Option<RangeInclusive>, ListError>
        ensures part { IfOk result (λ part.
            IsTrueAfter (state_of self.old) earlier.now (λ state. FindsLongestPart window.now (gaps_of state) part)) }
        ensures state { state_of self.new ≡ state_of self.old }
    {
        // Proof: this shows that the tree is valid.
        let _tree = &self.tree;
        let mut ranges = self.allocate_all(alloc, earlier)?;
        let longest = self.longest_gap_in(window);
        self.free_all(&mut ranges);
        Ok(longest)
    }

    /// Frees ranges that were allocated one after the other, the last one first. This leads back to the
    /// state before their allocation.
    pub fn free_all(&mut self, ranges: &mut Vec<RangeInclusive>)
        ensures state { (before : AddressState) (requests : List Request) → IsAddressState before
            → AllocatesEach before requests ranges.old.items (state_of self.old)
            → state_of self.new ≡ before }
    {
        while let Some(range) = ranges.pop() {
            let _ = self.free(&range);
        }
    }
}
