//! The result of a request without a change.
ghost use Rattle.std.specs.Prelude.{◌≡◌, ℕ, false, Some};
ghost use Rattle.vm_ranges.specs.Range.{IsIn};
ghost use Rattle.vm_ranges.specs.declared.constraint.AllocPolicy.TheVariants.{FirstMatch, LastMatch, ExactMatch};
ghost use Rattle.vm_ranges.specs.Address.{IsAddressState, IsClear, SplitsGap};
ghost use Rattle.vm_addresses.specs.Allocator.{state_of};
ghost use Rattle.vm_addresses.specs.Peeks.{Peeks};
ghost use Rattle.vm_addresses.specs.Tree.Allocation.{policy_of};
ghost use Rattle.vm_addresses.specs.Checks.Peeking.{FindsChosen, Settles};

use super::AddressAllocator;
use super::allocation::search_of;
use super::moving::ends_in;
use vm_ranges::{AllocPolicy, Constraint, Error, NodeState, RangeInclusive, Result, SPLIT_LIMIT};
use vm_space::End;

impl AddressAllocator {
    /// Returns `true` if a range of free addresses fills its gap.
    #[tactic(auto, using(crate::proofs::Peeking::Filling::filling))]
    fn fills_gap(&self, range: &RangeInclusive) -> bool
        requires state { IsAddressState (state_of self.now) }
        requires clear { (x : ℕ) → IsIn range.now x → IsClear (state_of self.now) x }
        ensures fills { SplitsGap (state_of self.now) range.now → result ≡ false }
        ensures splits { result ≡ false → SplitsGap (state_of self.now) range.now }
    {
        // Proof: these give the facts of the tree and of the range.
        let _tree = &self.tree;
        let _end = range.end();
        match self.gap_at(range.start()) {
            None => false,
            Some(gap) => gap == *range,
        }
    }

    /// Returns the range that [`allocate_constraint`](Self::allocate_constraint) would allocate now, and
    /// changes nothing. So a monitor can check a configuration before it begins.
    ///
    /// For `ExactMatch` it descends one path of the tree for each end of the range. For the other policies it
    /// searches as [`allocate_constraint`](Self::allocate_constraint) does. It does not allocate.
    ///
    /// # Errors
    ///
    /// Those of [`allocate_constraint`](Self::allocate_constraint) except `OutOfMemory`, in the same order.
    #[tactic(auto, using(crate::proofs::Peeking::Chosen::settled, crate::proofs::Trees::Spaces::states))]
    pub fn peek(&self, request: Constraint) -> Result<RangeInclusive>
        // The result is that of `allocate_constraint` if there is memory.
        ensures { Peeks (state_of self.now) request result }
    {
        // Proof: this shows that the tree is valid.
        let _tree = &self.tree;
        match request.policy() {
            AllocPolicy::FirstMatch => self.settle(End::First, request),
            AllocPolicy::LastMatch => self.settle(End::Last, request),
            AllocPolicy::ExactMatch(start) => self.peek_exact(start, request),
        }
    }

    /// Returns the result of a request with another policy than `ExactMatch`.
    #[tactic(auto, using(crate::proofs::Peeking::Chosen::settled, crate::proofs::Placing::Places::not_exact))]
    fn settle(&self, end: End, request: Constraint) -> Result<RangeInclusive>
        requires state { IsAddressState (state_of self.now) }
        requires policy { request.policy ≡ policy_of end }
        ensures { Peeks (state_of self.now) request result }
    {
        // Proof: the size is not 0.
        let _size = request.size();
        let Some(range) = self.chosen_place(end, request) else {
            return Err(Error::ResourceNotAvailable);
        };
        // Proof: the range ends at `u64::MAX` or below.
        let _end = range.end();
        self.settle_at(range)
    }

    /// Returns the range at the place that the policy of a request chooses, or `None` if there is no place.
    #[tactic(auto, using(crate::proofs::Peeking::Chosen::found_chosen))]
    fn chosen_place(&self, end: End, request: Constraint) -> Option<RangeInclusive>
        requires policy { request.policy ≡ policy_of end }
        ensures { FindsChosen (state_of self.now) request result }
    {
        let search = search_of(&request, &self.space, true);
        self.tree.look_fit(end, &search)
    }

    /// Returns the result of a request with the policy `ExactMatch(start)`.
    #[tactic(auto, using(crate::proofs::Peeking::Exact::exact, crate::proofs::Peeking::Chosen::chosen_clear))]
    fn peek_exact(&self, start: u64, request: Constraint) -> Result<RangeInclusive>
        requires state { IsAddressState (state_of self.now) }
        requires policy { request.policy ≡ ExactMatch start }
        ensures { Peeks (state_of self.now) request result }
    {
        let size = request.size();
        if start == u64::MAX {
            return Err(Error::Overflow);
        }
        let (low, high) = ends_in(&self.space(), request.window());
        if start < low {
            return Err(Error::ResourceNotAvailable);
        }
        if high < start {
            return Err(Error::ResourceNotAvailable);
        }
        let Ok(range) = RangeInclusive::from_start_len(start, size) else {
            return Err(Error::Overflow);
        };
        if self.holds(&range) {
            return Err(Error::InvalidStateTransition(range, NodeState::Allocated));
        }
        if self.conflict(request).is_some() {
            return Err(Error::ResourceNotAvailable);
        }
        self.settle_at(range)
    }

    /// Returns the range at the place that a request gets, or the error of the range.
    ///
    /// The errors are:
    /// - `Overflow` if the range ends at `u64::MAX`.
    /// - `Overflow` if it splits its gap and too many ranges are allocated.
    #[tactic(auto, using(crate::proofs::Peeking::Settling::settling))]
    fn settle_at(&self, range: RangeInclusive) -> Result<RangeInclusive>
        requires state { IsAddressState (state_of self.now) }
        requires clear { (x : ℕ) → IsIn range x → IsClear (state_of self.now) x }
        ensures { Settles (state_of self.now) range result }
    {
        // Proof: this gives the number of ranges.
        let _tree = &self.tree;
        if range.end() == u64::MAX {
            return Err(Error::Overflow);
        }
        if self.fills_gap(&range) {
            return Ok(range);
        }
        if self.held_count < SPLIT_LIMIT {
            return Ok(range);
        }
        Err(Error::Overflow)
    }
}
