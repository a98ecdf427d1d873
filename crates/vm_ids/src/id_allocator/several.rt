//! Several ids in one call, and the number of free ids.
ghost use Rattle.std.specs.Prelude.{◌≡◌, length, take, Ok, Err, OnErr, IfOk, MatchResult};
ghost use Rattle.vm_ranges.specs.Cases.{IfElse};
ghost use Rattle.vm_ranges.specs.declared.error.Error.TheVariants.{Overflow, ResourceNotAvailable};
ghost use Rattle.vm_ids.specs.Ids.{MAX_ID, IsIdState};
ghost use Rattle.vm_ids.specs.IdRequests.{AllocatesIds, free_ids, holding_ids};

use super::IdAllocator;
use std::alloc::Global;
use vm_ranges::{Error, Result};

impl IdAllocator {
    /// Returns the number of free ids of the range.
    ///
    /// It does not visit the ids, and does not allocate memory.
    #[tactic(auto, using(crate::proofs::Ids::FreeIds::counts, crate::proofs::Ids::IdFields::states))]
    pub fn free_count(&self) -> u64
        ensures value { result ≡ length (free_ids self.now) }
        ensures state { IsIdState self.now }
    {
        let ids = u64::from(self.range_end) + 1 - u64::from(self.range_base);
        ids - self.held_count()
    }

    /// Allocates the `count` lowest free ids, and returns them in ascending order.
    ///
    /// They are the ids that `count` calls of [`allocate_id`](Self::allocate_id) would allocate. Memory is
    /// allocated only for the list.
    ///
    /// # Errors
    ///
    /// An error changes nothing. In this order:
    /// - `Overflow` if fewer than `count` ids are free and the range ends at `u32::MAX`.
    /// - `ResourceNotAvailable` if fewer than `count` ids are free and the range ends below `u32::MAX`.
    /// - `OutOfMemory` if an allocation of memory fails.
    #[tactic(auto, using(crate::proofs::Ids::FreeIds::several))]
    pub fn allocate_ids(&mut self, alloc: Global, count: usize) -> Result<Vec<u32>>
        ensures ids { IfOk result (λ ids. ids.items ≡ take count (free_ids self.old)) }
        ensures held { IfOk result (λ ids. self.new ≡ holding_ids ids.items self.old) }
        ensures unchanged { OnErr result (self.new ≡ self.old) }

        // Each result under its exact condition.
        ensures answer { MatchResult result
            (λ ids. AllocatesIds self.old count (Ok ids.items) self.new)
            (λ error. AllocatesIds self.old count (Err error) self.new) }
    {
        if self.free_count() < count as u64 {
            return Err(self.none_free());
        }
        let mut ids = Vec::with_capacity(alloc, count)?;
        for _ in 0..count {
            let Ok(id) = self.allocate_id() else {
                // At least `count` ids are free.
                unreachable!()
            };
            let Ok(()) = ids.push(id) else {
                // The list has the capacity for each id.
                unreachable!()
            };
        }
        Ok(ids)
    }

    /// Returns the error of [`allocate_id`](Self::allocate_id) if all ids are allocated.
    #[tactic(auto, unfolding(crate::specs::Ids::ids_of))]
    fn none_free(&self) -> Error
        ensures { IfElse (self.now.hi ≡ MAX_ID) (result ≡ Overflow) (result ≡ ResourceNotAvailable) }
    {
        if self.range_end == u32::MAX {
            Error::Overflow
        } else {
            Error::ResourceNotAvailable
        }
    }
}
