//! A map from allocated ranges to values.
//!
//! Ranges and values change together or not at all. Calls that can fail are first. The calls after them, and the
//! call that undoes an allocation, always succeed.
ghost use Rattle.std.specs.Prelude.{◌≡◌, IfErr, IfNone, IfOk, IfSome, OnErr, option_map};
ghost use Rattle.std.specs.Borrow.{sem};
ghost use Rattle.vm_ranges.specs.Range.{Range, IsIn, IsInNone};
ghost use Rattle.vm_ranges.specs.declared.error.Error.TheVariants.{OutOfMemory};
ghost use Rattle.vm_range_map.specs.RangeMaps.{
  IsMapState,
  MakesMap,
  FreesWith,
  IsValueAt,
  SetsValue,
  HasValue,
  AreCopies,
  without_range,
};
ghost use Rattle.vm_range_map.specs.Trees.{map_state, made_map};

use std::alloc::Global;
use std::marker::Model;
use std::mem;
use vm_addresses::{AddressAllocator, RangeInclusive, Result};

mod allocating;
mod comparing;
mod iter;
mod moving;
mod several;
mod value_table;
mod windows;

pub use self::iter::ValuedRanges;
use self::value_table::ValueTable;
pub use self::windows::ValuedRangesIn;

/// Allocates ranges of addresses from one space, and keeps a value with each allocated range.
///
/// Ranges are allocated as by [`AddressAllocator`]. A value is any value of the caller, such as the number of the
/// owner of the range.
#[derive(Drop)]
pub struct RangeMap<T> {
    addresses: AddressAllocator,
    // The value of each allocated range, by its start.
    values: ValueTable<T>,
}

impl<T> Model for RangeMap<T> {
    ghost use Rattle.vm_addresses.specs.Allocator.{state_of};
    ghost use Rattle.vm_range_map.specs.RangeMaps.{map_of, IsMapState};
    ghost use Rattle.vm_range_map.specs.Trees.{RangeMapInTree, range_map_code};

    ghost Value = { RangeMapInTree T };

    ghost coded = { range_map_code T.code };

    ghost view = { λ m. record { addresses = m.addresses; values = m.values } };

    ghost invariant = { λ m. IsMapState (map_of (state_of m.addresses) m.values) };
}

impl<T: Drop> RangeMap<T> {
    ghost use Rattle.vm_range_map.specs.MapLends.{lends_value};

    /// Creates a map of the `size` addresses starting at `base`. All of them are free.
    ///
    /// # Errors
    ///
    /// In this order:
    /// - `Underflow` if `size` is 0.
    /// - `Overflow` if the last address would be past `u64::MAX`.
    /// - `OutOfMemory` if an allocation fails.
    #[tactic(auto, using(crate::proofs::MapCalls::makes, crate::proofs::MapCalls::new_state))]
    pub fn new(alloc: Global, base: u64, size: u64) -> Result<Self>
        ensures answer { MakesMap base size (made_map result) }
        ensures state { IfOk result (λ m. IsMapState (map_state m)) }
    {
        let addresses = AddressAllocator::new(alloc, base, size)?;
        Ok(RangeMap {
            addresses,
            values: ValueTable::new(alloc),
        })
    }

    /// Frees an allocated range, and returns its value.
    ///
    /// It does not allocate, and always succeeds for an allocated range.
    ///
    /// # Errors
    ///
    /// An error changes nothing.
    /// - `ResourceNotAvailable` if exactly this range is not allocated. A part of an allocated range cannot be
    ///   freed.
    #[tactic(auto, using(crate::proofs::MapCalls::free_refused))]
    pub fn free(&mut self, range: &RangeInclusive) -> Result<T>
        // The range had this value. It is freed, and nothing else changes.
        ensures freed { IfOk result (λ value. HasValue (map_state self.old) range.now value
            × (map_state self.new ≡ without_range range.now (map_state self.old))) }
        ensures unchanged { OnErr result (self.new ≡ self.old) }
        ensures state { IsMapState (map_state self.new) }

        // Each result under its exact condition.
        ensures answer { FreesWith (map_state self.old) range.now result (map_state self.new) }
    {
        self.addresses.free(range)?;
        let Some(value) = self.values.remove(range.start()) else {
            // Each allocated range has a value.
            unreachable!()
        };
        Ok(value)
    }

    /// Returns the allocated range that contains an address, and its value, or `None` if the address is free or
    /// outside the space.
    ///
    /// It descends one path of the tree, looks the value up by the start of the range, and does not allocate.
    #[tactic(auto, using(crate::proofs::MapCalls::values))]
    pub fn get(&self, address: u64) -> Option<(RangeInclusive, &T)>
        ensures { IsValueAt (map_state self.now) address (option_map (λ found. (found.0, found.1.now)) result) }
    {
        let range = self.addresses.held_at(address)?;
        let value = self.values.get(range.start())?;
        Some((range, value))
    }

    /// Returns the value of the allocated range that contains an address, to change it, or `None` if the address is
    /// free or outside the space.
    ///
    /// It takes as long as [`get`](Self::get), and does not allocate.
    pub fn get_mut(&mut self, address: u64) -> Option<&mut T>
        // The range has the value that is written last through the result, and nothing else changes.
        ensures* writes_back { sem 𝓛 (lends_value T.row self.entry address result) }
        ensures value { IfSome result (λ value. (r : Range) × HasValue (map_state self.old) r value.now × IsIn r address) }
        ensures none { IfNone result (IsInNone (map_state self.old).space.held address) }
    {
        let range = self.addresses.held_at(address)?;
        Some(self.values.value_mut(range.start()))
    }

    /// Replaces the value of the allocated range that contains an address, and returns the value before.
    ///
    /// It does not allocate.
    ///
    /// # Errors
    ///
    /// If the address is free or outside the space, it returns the given value and changes nothing.
    pub fn set(&mut self, address: u64, value: T) -> std::result::Result<T, T>
        ensures answer { SetsValue (map_state self.old) address value result (map_state self.new) }
        ensures tree { self.new.addresses ≡ self.old.addresses }
        ensures state { IsMapState (map_state self.new) }
    {
        // Proof: this shows that the map is valid.
        let _addresses = &self.addresses;
        match self.get_mut(address) {
            Some(place) => Ok(mem::replace(place, value)),
            None => Err(value),
        }
    }

    /// Returns the range of all addresses of the space.
    pub fn space(&self) -> RangeInclusive
        ensures { result ≡ (map_state self.now).space.space }
    {
        self.addresses.space()
    }

    /// Returns the allocator of the addresses, to read.
    pub fn addresses(&self) -> &AddressAllocator
        ensures { result.now ≡ self.now.addresses }
    {
        &self.addresses
    }
}

impl<T: Clone> RangeMap<T> {
    /// Returns a copy. It has the same tree of addresses, and a clone of each value.
    ///
    /// # Errors
    ///
    /// - `OutOfMemory` if an allocation fails.
    pub fn try_clone(&self, alloc: Global) -> Result<Self>
        ensures addresses { IfOk result (λ copy. copy.addresses ≡ self.now.addresses) }
        ensures values { IfOk result (λ copy. AreCopies T.is_clone self.now.values copy.values) }
        ensures refused { IfErr result (λ e. e ≡ OutOfMemory) }
    {
        let addresses = self.addresses.try_clone(alloc)?;
        let values = self.values.try_clone(alloc)?;
        Ok(RangeMap { addresses, values })
    }
}
