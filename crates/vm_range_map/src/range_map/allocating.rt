//! Allocations: a range for a request, with a value.
ghost use Rattle.std.specs.Prelude.{◌≡◌, ◌%◌, ◌⊎◌, OnErr, IfErr, IfOk, IfSome};
ghost use Rattle.vm_ranges.specs.Range.{Covers, address_count};
ghost use Rattle.vm_ranges.specs.Request.{request_for};
ghost use Rattle.vm_ranges.specs.declared.error.Error.TheVariants.{OutOfMemory};
ghost use Rattle.vm_ranges.specs.Answer.{IsChosen};
ghost use Rattle.vm_range_map.specs.RangeMaps.{IsMapState, AllocatesWith, with_range};
ghost use Rattle.vm_range_map.specs.Trees.{map_state, plain};

use super::RangeMap;
use crate::refused::Refused;
use std::alloc::Global;
use std::result::Result;
use vm_addresses::{AllocPolicy, Constraint, Error, RangeInclusive};

impl<T: Drop> RangeMap<T> {
    /// Allocates `size` free addresses that start at a multiple of `alignment`, and returns their range. The range
    /// gets the value.
    ///
    /// `policy` chooses the addresses as in `AddressAllocator::allocate`.
    ///
    /// # Errors
    ///
    /// An error returns the value. It leaves ranges and values unchanged, and each error but the last one the same
    /// tree. In this order:
    /// - The errors of `AddressAllocator::allocate`, in the order of its documentation.
    /// - `OutOfMemory` if an allocation for the values fails. The range is freed again, and the tree of
    ///   [`addresses`](Self::addresses) can have another shape. Then its height and its later counts can differ.
    #[tactic(auto, using(crate::proofs::MapCalls::request_refused, vm_ranges::proofs::Requests::constraint_made))]
    pub fn allocate(
        &mut self,
        alloc: Global,
        size: u64,
        alignment: u64,
        policy: AllocPolicy,
        value: T,
    ) -> Result<RangeInclusive, Refused<T>>
        // The range is as long as asked and aligned, at the place that the policy chooses.
        ensures fits { IfOk result (λ range. (address_count range ≡ size) × (range.start % alignment ≡ 0)) }
        ensures chosen { IfOk result (λ range.
            IsChosen (request_for size alignment policy) (map_state self.old).space range.start) }

        // It is held with the value, and nothing else changes.
        ensures held { IfOk result (λ range. map_state self.new ≡ with_range range value (map_state self.old)) }
        ensures unchanged { OnErr result (map_state self.new ≡ map_state self.old) }
        ensures same { IfErr result (λ refused. (self.new ≡ self.old) ⊎ (refused.error ≡ OutOfMemory)) }
        ensures returned { IfErr result (λ refused. refused.value ≡ value) }
        ensures state { IsMapState (map_state self.new) }

        // Each result under its exact condition.
        ensures answer { AllocatesWith (map_state self.old) (request_for size alignment policy) value (plain result)
            (map_state self.new) }
    {
        // Proof: this shows that the map is valid.
        let _addresses = &self.addresses;
        match Constraint::new(size, alignment, policy) {
            Ok(request) => self.allocate_constraint(alloc, request, value),
            Err(error) => Err(Refused { error, value }),
        }
    }

    /// Allocates a range like [`allocate`](Self::allocate), for a request that was made before. If the request has
    /// a window, the range lies in the window.
    ///
    /// # Errors
    ///
    /// An error returns the value. It leaves ranges and values unchanged, and each error but the last one the same
    /// tree. In this order:
    /// - The errors of `AddressAllocator::allocate_constraint`, in the order of its documentation.
    /// - `OutOfMemory` if an allocation for the values fails. The range is freed again, as by
    ///   [`allocate`](Self::allocate).
    pub fn allocate_constraint(
        &mut self,
        alloc: Global,
        request: Constraint,
        value: T,
    ) -> Result<RangeInclusive, Refused<T>>
        // The range is as long as asked, aligned and in the window, at the place that the policy chooses there.
        ensures fits { IfOk result (λ range. (address_count range ≡ request.size) × (range.start % request.align ≡ 0)) }
        ensures inside { IfOk result (λ range. IfSome request.window (λ window. Covers window range)) }
        ensures chosen { IfOk result (λ range. IsChosen request (map_state self.old).space range.start) }

        // It is held with the value, and nothing else changes.
        ensures held { IfOk result (λ range. map_state self.new ≡ with_range range value (map_state self.old)) }
        ensures unchanged { OnErr result (map_state self.new ≡ map_state self.old) }
        ensures same { IfErr result (λ refused. (self.new ≡ self.old) ⊎ (refused.error ≡ OutOfMemory)) }
        ensures returned { IfErr result (λ refused. refused.value ≡ value) }
        ensures state { IsMapState (map_state self.new) }

        // Each result under its exact condition.
        ensures answer { AllocatesWith (map_state self.old) request value (plain result) (map_state self.new) }
    {
        let range = match self.addresses.allocate_constraint(alloc, request) {
            Ok(range) => range,
            Err(error) => return Err(Refused { error, value }),
        };
        if let Err(refused) = self.values.insert(alloc, range.start(), value) {
            // Freeing an allocated range always succeeds.
            let _ = self.addresses.free(&range);
            return Err(Refused {
                error: Error::OutOfMemory,
                value: refused.value,
            });
        }
        Ok(range)
    }
}
