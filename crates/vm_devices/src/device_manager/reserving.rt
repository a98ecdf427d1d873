//! Reservations: an id and a range for a new device, both or neither.
ghost use Rattle.std.specs.Prelude.{◌≡◌, ◌%◌, ◌⊎◌, None, Ok, OnErr, OnOk, IfErr, IfOk, IfSome};
ghost use Rattle.std.specs.FinMap as map;
ghost use Rattle.vm_ranges.specs.Range.{Covers, address_count};
ghost use Rattle.vm_ranges.specs.Request.{request_for};
ghost use Rattle.vm_ranges.specs.declared.error.Error.TheVariants.{OutOfMemory};
ghost use Rattle.vm_ranges.specs.Answer.{IsChosen};
ghost use Rattle.vm_ids.specs.Ids.{IsLowestNotHeld, IsNotHeld, holding_id};
ghost use Rattle.vm_ids.specs.IdRequests.{Peeks};
ghost use Rattle.vm_ids.specs.declared.id_request.IdRequest.TheVariants.{Lowest};
ghost use Rattle.vm_devices.specs.Checks.{IsOnlyStart};
ghost use Rattle.vm_devices.specs.Devices.{IsDeviceState, Reserves, ReservesFor, with_device};
ghost use Rattle.vm_devices.specs.Manager.{device_state};

use super::DeviceManager;
use super::device_table::DeviceTable;
use crate::device_slot::DeviceSlot;
use std::alloc::Global;
use vm_addresses::{AllocPolicy, Constraint, RangeInclusive, Result};
use vm_ids::{IdAllocator, IdRequest};

impl DeviceManager {
    /// Reserves the lowest free id and `size` free addresses for a new device, and returns both.
    ///
    /// The addresses start at a multiple of `align`, and `policy` chooses them as in
    /// `AddressAllocator::allocate`.
    ///
    /// # Errors
    ///
    /// An error leaves ids, ranges and devices unchanged, and each error but the last one the same tree. In
    /// this order:
    /// - `Overflow` if all ids are allocated and their range ends at `u32::MAX`.
    /// - `ResourceNotAvailable` if all ids are allocated and their range ends below `u32::MAX`.
    /// - The errors of `AddressAllocator::allocate`, in the order of its documentation.
    /// - `OutOfMemory` if an allocation for the table of devices fails. The range is freed again, and the
    ///   tree of [`addresses`](Self::addresses) can have another shape. Then its height and its later
    ///   counts can differ.
    #[tactic(auto, using(crate::proofs::DeviceCalls::reserves))]
    pub fn reserve(
        &mut self,
        alloc: Global,
        size: u64,
        align: u64,
        policy: AllocPolicy,
    ) -> Result<DeviceSlot>
        // The id is the lowest that is not held. The range is as long as asked and aligned, at the place
        // that the policy chooses.
        ensures lowest { IfOk result (λ slot. IsLowestNotHeld (device_state self.old).ids slot.id) }
        ensures fits { IfOk result (λ slot. (address_count slot.range ≡ size) × (slot.range.start % align ≡ 0)) }
        ensures chosen { IfOk result (λ slot.
            IsChosen (request_for size align policy) (device_state self.old).space slot.range.start) }

        // The device has both, and nothing else changes.
        ensures held { IfOk result (λ slot.
            device_state self.new ≡ with_device slot.id slot.range (device_state self.old)) }
        ensures unchanged { OnErr result (device_state self.new ≡ device_state self.old) }
        ensures same { IfErr result (λ e. (self.new ≡ self.old) ⊎ (e ≡ OutOfMemory)) }
        ensures state { IsDeviceState (device_state self.new) }

        // Each result under its exact condition.
        ensures answer { Reserves (device_state self.old) Lowest (request_for size align policy) result
            (device_state self.new) }
    {
        let id = self.id_allocator.peek(IdRequest::Lowest)?;
        let request = Constraint::new(size, align, policy)?;
        self.reserve_range(alloc, id, request)
    }

    /// Reserves an id and a range like [`reserve`](Self::reserve), for a request that was made before.
    /// If the request has a window, the range lies in the window.
    ///
    /// # Errors
    ///
    /// Those of [`reserve_with_id`](Self::reserve_with_id) for the lowest id.
    #[tactic(auto, using(crate::proofs::DeviceCalls::reserves))]
    pub fn reserve_constraint(&mut self, alloc: Global, request: Constraint) -> Result<DeviceSlot>
        // The id is the lowest that is not held. The range is as long as asked, aligned and in the window,
        // at the place that the policy chooses there.
        ensures lowest { IfOk result (λ slot. IsLowestNotHeld (device_state self.old).ids slot.id) }
        ensures fits { IfOk result (λ slot.
            (address_count slot.range ≡ request.size) × (slot.range.start % request.align ≡ 0)) }
        ensures inside { IfOk result (λ slot. IfSome request.window (λ window. Covers window slot.range)) }
        ensures chosen { IfOk result (λ slot. IsChosen request (device_state self.old).space slot.range.start) }

        // The device has both, and nothing else changes.
        ensures held { IfOk result (λ slot.
            device_state self.new ≡ with_device slot.id slot.range (device_state self.old)) }
        ensures unchanged { OnErr result (device_state self.new ≡ device_state self.old) }
        ensures same { IfErr result (λ e. (self.new ≡ self.old) ⊎ (e ≡ OutOfMemory)) }

        // Each result under its exact condition.
        ensures answer { Reserves (device_state self.old) Lowest request result (device_state self.new) }
    {
        self.reserve_with_id(alloc, IdRequest::Lowest, request)
    }

    /// Reserves an id and a range for a new device, each for its request, and returns both.
    ///
    /// A saved value lists each free id below the highest one that was ever allocated. So it can be too long
    /// for the memory after a reservation of a high id.
    ///
    /// # Errors
    ///
    /// An error leaves ids, ranges and devices unchanged, and each error but the last one the same tree. In
    /// this order:
    /// - The errors of `IdAllocator::peek`.
    /// - The errors of `AddressAllocator::allocate_constraint`, in the order of its documentation.
    /// - `OutOfMemory` if an allocation for the table of devices or for skipped ids fails. The range is
    ///   freed again, as by [`reserve`](Self::reserve).
    #[tactic(auto, using(crate::proofs::DeviceCalls::reserves))]
    pub fn reserve_with_id(
        &mut self,
        alloc: Global,
        id: IdRequest,
        request: Constraint,
    ) -> Result<DeviceSlot>
        // The id is the one that was requested. The range is as long as asked, aligned and in the window,
        // at the place that the policy chooses there.
        ensures peeked { IfOk result (λ slot. Peeks (device_state self.old).ids id (Ok slot.id)) }
        ensures fits { IfOk result (λ slot.
            (address_count slot.range ≡ request.size) × (slot.range.start % request.align ≡ 0)) }
        ensures inside { IfOk result (λ slot. IfSome request.window (λ window. Covers window slot.range)) }
        ensures chosen { IfOk result (λ slot. IsChosen request (device_state self.old).space slot.range.start) }

        // The device has both, and nothing else changes.
        ensures held { IfOk result (λ slot.
            device_state self.new ≡ with_device slot.id slot.range (device_state self.old)) }
        ensures unchanged { OnErr result (device_state self.new ≡ device_state self.old) }
        ensures same { IfErr result (λ e. (self.new ≡ self.old) ⊎ (e ≡ OutOfMemory)) }

        // Each result under its exact condition.
        ensures answer { Reserves (device_state self.old) id request result (device_state self.new) }
    {
        let id = self.id_allocator.peek(id)?;
        self.reserve_range(alloc, id, request)
    }

    /// Makes a device of a free id and of a range for the request. An error leaves ids, ranges and
    /// devices unchanged.
    fn reserve_range(&mut self, alloc: Global, id: u32, request: Constraint) -> Result<DeviceSlot>
        requires { IsNotHeld (device_state self.old).ids id }
        ensures fits { IfOk result (λ slot.
            (address_count slot.range ≡ request.size) × (slot.range.start % request.align ≡ 0)) }
        ensures inside { IfOk result (λ slot. IfSome request.window (λ window. Covers window slot.range)) }
        ensures chosen { IfOk result (λ slot. IsChosen request (device_state self.old).space slot.range.start) }
        ensures answer { ReservesFor (device_state self.old) request (Ok id) result (device_state self.new) }
        ensures same { IfErr result (λ e. (self.new ≡ self.old) ⊎ (e ≡ OutOfMemory)) }
        ensures state { IsDeviceState (device_state self.new) }
    {
        let range = self.mmio_allocator.allocate_constraint(alloc, request)?;
        if let Err(refused) = enter(alloc, &mut self.id_allocator, &mut self.slots, id, range) {
            // Freeing an allocated range always succeeds.
            let _ = self.mmio_allocator.free(&range);
            return Err(refused);
        }
        Ok(DeviceSlot { id, range })
    }
}

/// Inserts a device into the table, and allocates its id. An error changes nothing.
#[tactic(auto, using(crate::proofs::DeviceCalls::enters))]
fn enter(
    alloc: Global,
    ids: &mut IdAllocator,
    slots: &mut DeviceTable,
    id: u32,
    range: RangeInclusive,
) -> Result<()>
    requires id { IsNotHeld ids.old id × (map.get slots.old id ≡ None) }
    requires start { IsOnlyStart slots.old id range.start }
    ensures ids { OnOk result (ids.new ≡ holding_id id ids.old) }
    ensures slots { OnOk result (slots.new ≡ map.insert slots.old id range) }
    ensures unchanged { OnErr result ((ids.new ≡ ids.old) × (slots.new ≡ slots.old)) }
    ensures memory { IfErr result (λ e. e ≡ OutOfMemory) }
{
    slots.insert(alloc, id, range)?;
    if let Err(refused) = ids.allocate_exact(id) {
        slots.remove(id);
        return Err(refused);
    }
    Ok(())
}
