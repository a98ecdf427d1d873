//! Queries of the devices: an iterator, their number, the device at an address, and both
//! allocators.
ghost use Rattle.std.specs.Prelude.{◌≡◌};
ghost use Rattle.vm_devices.specs.Manager.{device_state};
ghost use Rattle.vm_devices.specs.Queries.{device_list, device_list_in, device_count, DeviceAt};

use super::DeviceManager;
use super::device_table::{Devices, DevicesIn};
use crate::device_slot::DeviceSlot;
use vm_addresses::AddressAllocator;
use vm_ids::IdAllocator;

impl DeviceManager {
    /// Returns an iterator over the devices, by ascending ids.
    ///
    /// It does not allocate.
    pub fn devices(&self) -> Devices<'_>
        ensures { result ≡ device_list (device_state self.now) }
    {
        self.slots.iter(self.device_count())
    }

    /// Returns an iterator over the devices with ids from `first` to `last`, both included, by ascending ids.
    ///
    /// It descends one path of a tree for each end, and does not allocate.
    pub fn devices_in(&self, first: u32, last: u32) -> DevicesIn<'_>
        ensures { result ≡ device_list_in first last (device_state self.now) }
    {
        self.slots.iter_in(first, last)
    }

    /// Returns the number of devices.
    ///
    /// It does not visit the devices, and does not allocate.
    pub fn device_count(&self) -> u64
        ensures { result ≡ device_count (device_state self.now) }
    {
        self.id_allocator.held_count()
    }

    /// Returns the device whose range contains the address, or `None` if no device has it.
    ///
    /// It descends one path of the tree, looks the range up in a table, and does not allocate.
    #[tactic(auto, using(crate::proofs::DeviceStarts::found))]
    pub fn device_at(&self, address: u64) -> Option<DeviceSlot>
        ensures { DeviceAt (device_state self.now) address result }
    {
        let range = self.mmio_allocator.held_at(address)?;
        let id = self.slots.id_at(range.start())?;
        Some(DeviceSlot { id, range })
    }

    /// Returns the allocator of the addresses, to read.
    pub fn addresses(&self) -> &AddressAllocator
        ensures { result.now ≡ self.now.addresses }
    {
        &self.mmio_allocator
    }

    /// Returns the allocator of the ids, to read.
    pub fn ids(&self) -> &IdAllocator
        ensures { result.now ≡ self.now.ids }
    {
        &self.id_allocator
    }
}
