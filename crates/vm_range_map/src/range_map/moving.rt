//! The move of an allocated range to the place of a request. Its value moves too.
ghost use Rattle.std.specs.Prelude.{◌≡◌, ◌%◌, ◌⊎◌, OnErr, IfErr, IfOk, IfSome};
ghost use Rattle.vm_ranges.specs.Range.{Covers, address_count};
ghost use Rattle.vm_ranges.specs.declared.error.Error.TheVariants.{OutOfMemory};
ghost use Rattle.vm_range_map.specs.RangeMaps.{IsMapState, HasValue, MovesWith, with_moved};
ghost use Rattle.vm_range_map.specs.Trees.{map_state};

use super::RangeMap;
use std::alloc::Global;
use vm_addresses::{Constraint, RangeInclusive, Result};

impl<T: Drop> RangeMap<T> {
    /// Moves an allocated range to the place of a request, and returns the range there. It keeps its value.
    ///
    /// The range can overlap the one before, as by `AddressAllocator::move_constraint`.
    ///
    /// # Errors
    ///
    /// An error leaves ranges and values unchanged, and each error but the last one the same tree. In this order:
    /// - The errors of `AddressAllocator::move_constraint`, in the order of its documentation.
    /// - `OutOfMemory` if an allocation for the values fails. It is possible only if the start changes.
    pub fn move_constraint(
        &mut self,
        alloc: Global,
        range: &RangeInclusive,
        request: Constraint,
    ) -> Result<RangeInclusive>
        // The range is as long as asked, aligned and in the window.
        ensures fits { IfOk result (λ to. (address_count to ≡ request.size) × (to.start % request.align ≡ 0)) }
        ensures inside { IfOk result (λ to. IfSome request.window (λ window. Covers window to)) }

        // It is held instead, with the value of the range before, and nothing else changes.
        ensures moved { IfOk result (λ to. (value : T) × HasValue (map_state self.old) range.now value
            × (map_state self.new ≡ with_moved range.now to value (map_state self.old))) }
        ensures unchanged { OnErr result (map_state self.new ≡ map_state self.old) }
        ensures same { IfErr result (λ e. (self.new ≡ self.old) ⊎ (e ≡ OutOfMemory)) }
        ensures state { IsMapState (map_state self.new) }

        // Each result under its exact condition.
        ensures answer { MovesWith (map_state self.old) range.now request result (map_state self.new) }
    {
        let begun = self.addresses.begin_move(alloc, range, request)?;
        let to = begun.range();
        if let Err(refused) = self.values.move_to(alloc, range.start(), to.start()) {
            self.addresses.cancel_move(begun);
            return Err(refused.into());
        }
        self.addresses.finish_move(alloc, range, begun);
        Ok(to)
    }
}
