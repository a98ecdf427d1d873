//! The table of the devices. It finds a range by its id, and an id by the start of its range.
ghost use Rattle.std.specs.Prelude.{◌≡◌, ◌≢◌, ◌↔◌, ℕ, None, Some, length, map as map_list, IfOk, IfSome, OnOk, OnErr, nat_le, ◌&&◌};
ghost use Rattle.std.specs.Iterator.{YieldsFirst, YieldsLast, UpTo, at_most, item_count};
ghost use Rattle.std.specs.Iterator.SizeHint.{IsWithinCount};
ghost use Rattle.std.specs.List.{filter};
ghost use Rattle.std.specs.FinMap as map;
ghost use Rattle.vm_devices.specs.Checks.{StartsAt, IsOnlyStart};
ghost use Rattle.vm_devices.specs.Queries.{device_of};

use crate::device_slot::DeviceSlot;
use std::alloc::{AllocError, Global};
use std::marker::Model;
use vm_addresses::RangeInclusive;
use vm_list::{Iter, Keyed, KeyedList};

/// The start of the range of a device, and the id of the device.
#[derive(Clone, Copy, Debug)]
struct DeviceStart {
    start: u64,
    id: u32,
}

impl Keyed for DeviceStart {
    ghost key_of = { λ s. s.start };

    /// Returns the start.
    fn key(&self) -> u64 {
        self.start
    }
}

/// The range of each device by its id, and the id of each device by the start of its range.
///
/// Its model is the map by ids.
#[derive(Debug, Drop)]
pub(super) struct DeviceTable {
    slots: KeyedList<DeviceSlot>,
    starts: KeyedList<DeviceStart>,
}

impl Model for DeviceTable {
    ghost use Rattle.std.specs.Coded.{coded_ℕ};
    ghost use Rattle.std.specs.Ordering.{nat_cmp};
    ghost use Rattle.std.specs.FinMap as map;
    ghost use Rattle.vm_ranges.specs.Range.{Range, range_code};
    ghost use Rattle.vm_devices.specs.Checks.{AreIdsByStart};
    ghost use Rattle.vm_devices.specs.Listed.{entries_of};

    ghost Value = { map.FinMap nat_cmp Range };

    ghost coded = { map.code coded_ℕ range_code };

    ghost view = { λ t. map.from_entries (entries_of t.slots) };

    ghost invariant = { λ t. AreIdsByStart (map.from_entries (entries_of t.slots)) t.starts };
}

impl DeviceTable {
    /// Creates a table without devices. It does not allocate.
    #[tactic(auto, using(crate::proofs::Tables::no_starts))]
    pub(super) fn new() -> DeviceTable
        ensures { result ≡ map.empty }
    {
        DeviceTable {
            slots: KeyedList::new(),
            starts: KeyedList::new(),
        }
    }

    /// Returns a copy.
    pub(super) fn try_clone(&self, alloc: Global) -> Result<DeviceTable, AllocError>
        ensures { IfOk result (λ table. table ≡ self.now) }
    {
        let slots = self.slots.try_clone(alloc)?;
        let starts = self.starts.try_clone(alloc)?;
        Ok(DeviceTable { slots, starts })
    }

    /// Returns the range of the device with this id, or `None` if there is none.
    #[tactic(auto, using(crate::proofs::Tables::gets))]
    pub(super) fn get(&self, id: u32) -> Option<RangeInclusive>
        ensures { result ≡ map.get self.now id }
    {
        let slot = self.slots.get(u64::from(id))?;
        Some(slot.range)
    }

    /// Returns an iterator over the devices, by ascending ids. `count` is their number.
    pub(super) fn iter(&self, count: u64) -> Devices<'_>
        requires { count ≡ map.len self.now }
        ensures { result ≡ map_list device_of (map.entries self.now) }
    {
        let devices = DevicesIn {
            slots: self.slots.iter(),
        };
        Devices {
            devices,
            left: count as usize,
        }
    }

    /// Returns an iterator over the devices with ids from `first` to `last`, by ascending ids.
    pub(super) fn iter_in(&self, first: u32, last: u32) -> DevicesIn<'_>
        ensures { result ≡ filter (λ d. nat_le first d.id && nat_le d.id last) (map_list device_of (map.entries self.now)) }
    {
        DevicesIn {
            slots: self.slots.iter_between(first.into(), last.into()),
        }
    }

    /// Returns the id of the device whose range starts at `start`, or `None` if there is none.
    pub(super) fn id_at(&self, start: u64) -> Option<u32>
        ensures { (id : ℕ) → (result ≡ Some id) ↔ StartsAt self.now id start }
    {
        let at = self.starts.get(start)?;
        Some(at.id)
    }

    /// Inserts a device, or changes its range. An error changes nothing, and is possible only for another start.
    pub(super) fn insert(
        &mut self,
        alloc: Global,
        id: u32,
        range: RangeInclusive,
    ) -> Result<(), AllocError>
        requires { IsOnlyStart self.old id range.start }
        ensures inserted { OnOk result (self.new ≡ map.insert self.old id range) }
        ensures err { OnErr result (self.new ≡ self.old) }
        ensures start { OnErr result (¬ StartsAt self.old id range.start) }
    {
        let slot = DeviceSlot { id, range };
        match self.get(id) {
            Some(before) => self.replace(alloc, before.start(), slot),
            None => self.add(alloc, slot),
        }
    }

    /// Inserts a device with a new id. An error changes nothing.
    fn add(&mut self, alloc: Global, slot: DeviceSlot) -> Result<(), AllocError>
        requires new { map.get self.old slot.id ≡ None }
        requires only { IsOnlyStart self.old slot.id slot.range.start }
        ensures inserted { OnOk result (self.new ≡ map.insert self.old slot.id slot.range) }
        ensures err { OnErr result (self.new ≡ self.old) }
    {
        let start = slot.range.start();
        let at = DeviceStart { start, id: slot.id };
        self.starts.insert(alloc, at)?;
        if let Err(failed) = self.slots.insert(alloc, slot) {
            self.starts.remove(start);
            return Err(failed.into());
        }
        Ok(())
    }

    /// Changes the range of a device, which starts at `before`. An error changes nothing, and is possible only for
    /// another start.
    fn replace(&mut self, alloc: Global, before: u64, slot: DeviceSlot) -> Result<(), AllocError>
        requires known { StartsAt self.old slot.id before }
        requires only { IsOnlyStart self.old slot.id slot.range.start }
        ensures inserted { OnOk result (self.new ≡ map.insert self.old slot.id slot.range) }
        ensures err { OnErr result (self.new ≡ self.old) }
        ensures start { OnErr result (before ≢ slot.range.start) }
    {
        let start = slot.range.start();
        if before != start {
            let at = DeviceStart { start, id: slot.id };
            self.starts.insert(alloc, at)?;
            self.starts.remove(before);
        }
        self.slots.set(slot);
        Ok(())
    }

    /// Removes the device with this id, if there is one.
    pub(super) fn remove(&mut self, id: u32)
        ensures { self.new ≡ map.remove self.old id }
    {
        if let Some(slot) = self.slots.remove(u64::from(id)) {
            self.starts.remove(slot.range.start());
        }
    }
}

/// An iterator over the devices with ids from an id to an id, by ascending ids, or backwards. It does not allocate.
///
/// Its model is the list of the devices that it has not returned yet.
#[derive(Clone, Drop)]
pub struct DevicesIn<'a> {
    slots: Iter<'a, DeviceSlot>,
}

impl<'a> Model for DevicesIn<'a> {
    ghost use Rattle.std.specs.Prelude.{List};
    ghost use Rattle.vm_devices.specs.declared.device_slot.DeviceSlot.{DeviceSlot};

    ghost Value = { List DeviceSlot };

    ghost view = { λ d. d.slots };
}

impl<'a> Iterator for DevicesIn<'a> {
    type Item = DeviceSlot;

    ghost next_gives = { YieldsFirst (λ d. d) };

    ghost remaining = { item_count (λ d. d) };

    /// Returns the device with the lowest id that is left.
    fn next(&mut self) -> Option<DeviceSlot> {
        self.slots.next().copied()
    }
}

impl<'a> DoubleEndedIterator for DevicesIn<'a> {
    ghost next_back_gives = { YieldsLast (λ d. d) };

    /// Returns the device with the highest id that is left.
    fn next_back(&mut self) -> Option<DeviceSlot> {
        self.slots.next_back().copied()
    }
}

/// An iterator over the devices, by ascending ids, or backwards. It does not allocate.
///
/// Its model is the list of the devices that it has not returned yet.
#[derive(Clone, Drop)]
pub struct Devices<'a> {
    devices: DevicesIn<'a>,
    // The number of devices that were not returned.
    left: usize,
}

impl<'a> Model for Devices<'a> {
    ghost use Rattle.std.specs.Prelude.{◌≡◌, List, length};
    ghost use Rattle.vm_devices.specs.declared.device_slot.DeviceSlot.{DeviceSlot};

    ghost Value = { List DeviceSlot };

    ghost view = { λ d. d.devices };

    ghost invariant = { λ d. d.left ≡ length d.devices };
}

impl<'a> Iterator for Devices<'a> {
    type Item = DeviceSlot;

    ghost next_gives = { YieldsFirst (λ d. d) };

    ghost remaining = { item_count (λ d. d) };

    /// Returns the device with the lowest id that is left.
    fn next(&mut self) -> Option<DeviceSlot> {
        let device = self.devices.next()?;
        self.left -= 1;
        Some(device)
    }

    /// Returns the number of devices that are left, as both bounds.
    fn size_hint(&self) -> (usize, Option<usize>)
        ensures exact { result ≡ (length self.now, Some (length self.now)) }
        ensures lower { IsWithinCount result.0 (at_most (length self.now)) }
        ensures upper { IfSome result.1 (UpTo (at_most (length self.now))) }
    {
        (self.left, Some(self.left))
    }
}

impl<'a> DoubleEndedIterator for Devices<'a> {
    ghost next_back_gives = { YieldsLast (λ d. d) };

    /// Returns the device with the highest id that is left.
    fn next_back(&mut self) -> Option<DeviceSlot> {
        let device = self.devices.next_back()?;
        self.left -= 1;
        Some(device)
    }
}

impl<'a> ExactSizeIterator for Devices<'a> {
    /// Returns the number of devices that are left. It takes constant time.
    fn len(&self) -> usize {
        self.left
    }
}
