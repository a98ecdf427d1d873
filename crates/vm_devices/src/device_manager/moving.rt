//! The move of a device to the place of a request.
ghost use Rattle.std.specs.Prelude.{◌≡◌, ◌%◌, ◌⊎◌, OnErr, IfErr, IfOk, IfSome};
ghost use Rattle.vm_ranges.specs.Range.{Range, Covers, address_count};
ghost use Rattle.vm_ranges.specs.declared.error.Error.TheVariants.{OutOfMemory};
ghost use Rattle.vm_devices.specs.Devices.{IsDeviceState, IsDevice, MovesDevice, with_range};
ghost use Rattle.vm_devices.specs.Manager.{device_state};

use super::DeviceManager;
use std::alloc::Global;
use vm_addresses::{Constraint, Error, RangeInclusive, Result};

impl DeviceManager {
    /// Moves a device to the place of a request, and returns its range there. It keeps its id.
    ///
    /// The range can overlap the one before, as by `AddressAllocator::move_constraint`.
    ///
    /// # Errors
    ///
    /// An error leaves ids, ranges and devices unchanged, and each error but the last one the same tree. In
    /// this order:
    /// - `NeverAllocated(id)` if no device has the id.
    /// - The errors of `AddressAllocator::move_constraint`, in the order of its documentation.
    /// - `OutOfMemory` if an allocation for the table of devices fails. It is possible only if the start changes.
    #[tactic(auto, using(crate::proofs::DeviceMoves::moves))]
    pub fn move_constraint(
        &mut self,
        alloc: Global,
        id: u32,
        request: Constraint,
    ) -> Result<RangeInclusive>
        // The range is as long as asked, aligned and in the window.
        ensures fits { IfOk result (λ range. (address_count range ≡ request.size) × (range.start % request.align ≡ 0)) }
        ensures inside { IfOk result (λ range. IfSome request.window (λ window. Covers window range)) }

        // The device has it instead, and nothing else changes.
        ensures moved { IfOk result (λ range. (before : Range) × IsDevice (device_state self.old) id before
            × (device_state self.new ≡ with_range id before range (device_state self.old))) }
        ensures unchanged { OnErr result (device_state self.new ≡ device_state self.old) }
        ensures same { IfErr result (λ e. (self.new ≡ self.old) ⊎ (e ≡ OutOfMemory)) }
        ensures state { IsDeviceState (device_state self.new) }

        // Each result under its exact condition.
        ensures answer { MovesDevice (device_state self.old) id request result (device_state self.new) }
    {
        let Some(before) = self.slot(id) else {
            return Err(Error::NeverAllocated(id));
        };
        let begun = self.mmio_allocator.begin_move(alloc, &before, request)?;
        let range = begun.range();
        if let Err(refused) = self.slots.insert(alloc, id, range) {
            self.mmio_allocator.cancel_move(begun);
            return Err(refused.into());
        }
        self.mmio_allocator.finish_move(alloc, &before, begun);
        Ok(range)
    }
}
