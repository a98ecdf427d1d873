//! The reason why the range of a request is not free.
ghost use Rattle.std.specs.Prelude.{◌≡◌};
ghost use Rattle.std.specs.List.{Contains};
ghost use Rattle.vm_ranges.specs.Request.{IsRequest};
ghost use Rattle.vm_ranges.specs.Address.{releasing, without_range};
ghost use Rattle.vm_addresses.specs.Allocator.{state_of};
ghost use Rattle.vm_addresses.specs.Conflicts.{IsConflict, IsMoveConflict, IsWindowConflict, ConflictDecides, LooksAt, with_first};
ghost use Rattle.vm_addresses.specs.Queries.{meeting};

use super::AddressAllocator;
use vm_ranges::{AllocPolicy, Constraint, RangeInclusive};

/// The reason why the range of a request is not free.
#[derive(Clone, Copy, Debug, PartialEq, Eq)]
pub enum Conflict {
    /// The range is not in the space, or no range in the window is. This is the space.
    OutsideSpace(RangeInclusive),
    /// The range is in the space and not in the window of the request. This is the window.
    OutsideWindow(RangeInclusive),
    /// This allocated range has an address in common with the range. It is the lowest of them.
    Allocated(RangeInclusive),
}

impl AddressAllocator {
    /// Returns the reason why the range of an `ExactMatch` request is not free, or `None` if it is free.
    ///
    /// It returns the first of these reasons:
    /// - `OutsideSpace` if the range is not in the space.
    /// - `OutsideWindow` if it is not in the window of the request.
    /// - `Allocated` if an allocated range has an address in common with it.
    ///
    /// For the other policies it returns `OutsideSpace` if the window and the space have no address in common,
    /// and otherwise `None`.
    ///
    /// It descends one path of the tree for each end of the range and does not allocate.
    #[tactic(auto, using(crate::proofs::Results::Conflicts::conflicts, crate::proofs::Trees::Spaces::states))]
    pub fn conflict(&self, request: Constraint) -> Option<Conflict>
        ensures value { IsConflict (state_of self.now) request result }
        ensures decides { ConflictDecides (state_of self.now) request result }
    {
        match range_of(&self.space, request) {
            Err(conflict) => conflict,
            Ok(range) => Some(Conflict::Allocated(self.held_ranges_in(&range).next()?)),
        }
    }

    /// Returns the reason why the range of an `ExactMatch` request is not free if `key` is free, like
    /// [`conflict`](Self::conflict). So `key` is never the reason. Returns `None` if exactly the range `key` is
    /// not allocated.
    ///
    /// It descends one path of the tree for `key` and one for each end of the range, and does not allocate.
    #[tactic(auto, using(crate::proofs::Results::Conflicts::move_conflicts, crate::proofs::Trees::Spaces::states))]
    pub fn move_conflict(&self, key: &RangeInclusive, request: Constraint) -> Option<Conflict>
        ensures value { IsMoveConflict (state_of self.now) key.now request result }
        ensures decides { Contains (state_of self.now).held key.now
            → ConflictDecides (releasing key.now (state_of self.now)) request result }
    {
        if !self.holds(key) {
            return None;
        }
        match range_of(&self.space, request) {
            Err(conflict) => conflict,
            Ok(range) => self.conflict_beside(key, &range),
        }
    }

    /// Returns the lowest allocated range other than `key` that has an address in common with `range`.
    fn conflict_beside(&self, key: &RangeInclusive, range: &RangeInclusive) -> Option<Conflict>
        ensures { result ≡ with_first (without_range key.now (meeting range.now (state_of self.now).held)) }
    {
        let mut ranges = self.held_ranges_in(range);
        let first = ranges.next()?;
        if first.start() == key.start() {
            return Some(Conflict::Allocated(ranges.next()?));
        }
        Some(Conflict::Allocated(first))
    }
}

/// Returns the range of an `ExactMatch` request, or the conflict if it does not depend on allocated ranges.
#[tactic(auto, unfolding(crate::specs::Conflicts::IsConflict, crate::specs::Conflicts::IsConflictOf))]
fn range_of(space: &RangeInclusive, request: Constraint) -> Result<RangeInclusive, Option<Conflict>>
    ensures looks { LooksAt space.now request result }
    ensures valid { IsRequest request }
{
    // Proof: `end` gives the facts of a range.
    let _end = space.end();
    let AllocPolicy::ExactMatch(start) = request.policy() else {
        return Err(window_conflict(space, request));
    };
    let Ok(range) = RangeInclusive::from_start_len(start, request.size()) else {
        // The range would end past `u64::MAX`, which no space does.
        return Err(Some(Conflict::OutsideSpace(*space)));
    };
    match request.window() {
        _ if !space.contains(&range) => Err(Some(Conflict::OutsideSpace(*space))),
        Some(window) if !window.contains(&range) => Err(Some(Conflict::OutsideWindow(window))),
        _ => Ok(range),
    }
}

/// Returns `OutsideSpace` if the window of a request and the space have no address in common.
fn window_conflict(space: &RangeInclusive, request: Constraint) -> Option<Conflict>
    ensures { IsWindowConflict space.now request.window result }
{
    if request.window()?.overlaps(space) {
        return None;
    }
    Some(Conflict::OutsideSpace(*space))
}
