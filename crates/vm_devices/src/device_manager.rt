//! The manager of devices.
//!
//! Ids, ranges and the table of devices change together or not at all. Calls that can fail are
//! first. The calls after them, and the call that undoes an allocation, always succeed.
ghost use Rattle.std.specs.Prelude.{◌≡◌, OnErr, OnOk, IfOk};
ghost use Rattle.std.specs.FinMap as map;
ghost use Rattle.vm_ranges.specs.Cloning.{Clones};
ghost use Rattle.vm_ranges.specs.Range.{Range};
ghost use Rattle.vm_devices.specs.Devices.{
  IsDeviceState,
  IsDevice,
  MakesManager,
  Releases,
  without_device,
};
ghost use Rattle.vm_devices.specs.Manager.{device_state, made_manager};

use std::alloc::Global;
use std::marker::Model;
use vm_addresses::{AddressAllocator, Error, RangeInclusive, Result};
use vm_ids::IdAllocator;

mod comparing;
mod device_table;
mod moving;
mod queries;
mod reserving;
mod saved;

use self::device_table::DeviceTable;
pub use self::device_table::{Devices, DevicesIn};
pub use self::saved::read_devices::{ReadDevices, SAVED_VERSION};

/// Reserves an id and a range of addresses for each device, both or neither.
///
/// No two devices share an id or an address.
///
/// It fits devices of one id and one range each, such as those of virtio-mmio. A PCI function has
/// several BARs and interrupt vectors: `AddressAllocator::allocate_all` and
/// `IdAllocator::allocate_ids` allocate these, each all or none.
#[derive(Debug, Drop)]
pub struct DeviceManager {
    id_allocator: IdAllocator,
    mmio_allocator: AddressAllocator,
    // The range of each device, by its id.
    slots: DeviceTable,
}

impl Model for DeviceManager {
    ghost use Rattle.vm_addresses.specs.Allocator.{state_of};
    ghost use Rattle.vm_devices.specs.Devices.{devices_of, IsDeviceState};
    ghost use Rattle.vm_devices.specs.Manager.{DevicesInTree, devices_code};

    ghost Value = { DevicesInTree };

    ghost coded = { devices_code };

    ghost view = { λ a. record { ids = a.id_allocator; addresses = a.mmio_allocator; devices = a.slots } };

    ghost invariant = { λ a. IsDeviceState (devices_of a.id_allocator (state_of a.mmio_allocator) a.slots) };
}

impl DeviceManager {
    /// Creates a manager without devices. It has the ids from `id_lo` to `id_hi`, both included,
    /// and the `size` addresses starting at `base`.
    ///
    /// # Errors
    ///
    /// In this order:
    /// - `InvalidRange(id_lo, id_hi)` if `id_hi` is below `id_lo`.
    /// - `Underflow` if `size` is 0.
    /// - `Overflow` if the last address would be past `u64::MAX`.
    /// - `OutOfMemory` if an allocation fails.
    #[tactic(auto, using(crate::proofs::DeviceCalls::makes_managers))]
    pub fn new(alloc: Global, id_lo: u32, id_hi: u32, base: u64, size: u64) -> Result<Self>
        ensures answer { MakesManager id_lo id_hi base size (made_manager result) }
        ensures state { IfOk result (λ manager. IsDeviceState (device_state manager)) }
    {
        let id_allocator = IdAllocator::new(alloc, id_lo, id_hi)?;
        let mmio_allocator = AddressAllocator::new(alloc, base, size)?;
        Ok(DeviceManager {
            id_allocator,
            mmio_allocator,
            slots: DeviceTable::new(),
        })
    }

    /// Returns a copy. It has equal allocators, the same tree of addresses and the same devices.
    ///
    /// # Errors
    ///
    /// - `OutOfMemory` if an allocation fails.
    pub fn try_clone(&self, alloc: Global) -> Result<Self>
        ensures answer { Clones (device_state self.now) (made_manager result) }
        ensures same { Clones self.now result }
    {
        let id_allocator = self.id_allocator.try_clone(alloc)?;
        let mmio_allocator = self.mmio_allocator.try_clone(alloc)?;
        let slots = self.slots.try_clone(alloc)?;
        Ok(DeviceManager {
            id_allocator,
            mmio_allocator,
            slots,
        })
    }

    /// Releases a device: frees its id and its range.
    ///
    /// # Errors
    ///
    /// An error changes nothing, and leaves the same tree. In this order:
    /// - `NeverAllocated(id)` if no device has the id.
    /// - `OutOfMemory` if an allocation of memory fails.
    #[tactic(auto, using(crate::proofs::DeviceCalls::no_device))]
    pub fn release(&mut self, id: u32) -> Result<()>
        // The id and the range of the device are freed, and nothing else changes.
        ensures released { OnOk result ((range : Range) × IsDevice (device_state self.old) id range
            × (device_state self.new ≡ without_device id range (device_state self.old))) }
        ensures unchanged { OnErr result (self.new ≡ self.old) }
        ensures state { IsDeviceState (device_state self.new) }

        // Each result under its exact condition.
        ensures answer { Releases (device_state self.old) id result (device_state self.new) }
    {
        let Some(range) = self.slot(id) else {
            return Err(Error::NeverAllocated(id));
        };
        // Only this call can fail (out of memory), so it is first.
        self.id_allocator.free_id(id)?;
        let _ = self.mmio_allocator.free(&range);
        self.slots.remove(id);
        Ok(())
    }

    /// Returns the range of the device with this id, or `None` if no device has it.
    ///
    /// It does not allocate.
    pub fn slot(&self, id: u32) -> Option<RangeInclusive>
        ensures value { result ≡ map.get (device_state self.now).devices id }
        ensures state { IsDeviceState (device_state self.now) }
    {
        self.slots.get(id)
    }
}
