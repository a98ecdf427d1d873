//! Calls with a list of ranges or of requests, and a value for each.
ghost use Rattle.std.specs.Prelude.{◌≡◌, OnErr, IfErr, IfOk};
ghost use Rattle.vm_addresses.specs.Held.{HasFaultIndex};
ghost use Rattle.vm_range_map.specs.RangeMaps.{IsMapState, MakesMapWithHeld, AllocatesEachWith, FailsAsListed};
ghost use Rattle.vm_range_map.specs.Trees.{map_state, made_map, plain_list};

use super::RangeMap;
use super::value_table::ValueTable;
use crate::refused::RefusedList;
use crate::valued_list::ValuedList;
use std::alloc::{AllocFailed, Global};
use std::result::Result;
use vm_addresses::{AddressAllocator, Constraint, Error, RangeInclusive};

impl<T: Drop> RangeMap<T> {
    /// Creates a map of the `size` addresses starting at `base`, with these ranges allocated. They must be in
    /// ascending order.
    ///
    /// # Errors
    ///
    /// An error returns the list. In this order:
    /// - The errors of `AddressAllocator::with_held`, in the order of its documentation. Only that of a range has an
    ///   index.
    /// - `OutOfMemory` if an allocation for the values fails.
    pub fn with_held(
        alloc: Global,
        base: u64,
        size: u64,
        held: ValuedList<RangeInclusive, T>,
    ) -> Result<Self, RefusedList<RangeInclusive, T>>
        ensures answer { MakesMapWithHeld base size held.0 held.1 (made_map (plain_list result)) }
        ensures index { IfErr result (λ refused. HasFaultIndex base size held.0 refused.error.index) }
        ensures returned { IfErr result (λ refused. refused.list ≡ held) }
        ensures state { IfOk result (λ m. IsMapState (map_state m)) }
    {
        let addresses = match AddressAllocator::with_held(alloc, base, size, &held.items) {
            Ok(addresses) => addresses,
            Err(error) => return Err(RefusedList { error, list: held }),
        };
        let ValuedList { items, values } = held;
        let mut table = ValueTable::new(alloc);
        if let Err(AllocFailed { value: values }) = table.insert_all(alloc, &items, values) {
            let error = Error::OutOfMemory.into();
            let list = ValuedList { items, values };
            return Err(RefusedList { error, list });
        }
        Ok(RangeMap {
            addresses,
            values: table,
        })
    }

    /// Allocates a range for each request, in their order, and returns the ranges. Each range is where
    /// [`allocate`](Self::allocate) places it after the requests before it, and gets the value of its request.
    ///
    /// # Errors
    ///
    /// An error returns the list. It leaves ranges and values unchanged, and the tree of
    /// [`addresses`](Self::addresses) can have another shape. In this order:
    /// - The errors of `AddressAllocator::allocate_all`, in the order of its documentation.
    /// - `OutOfMemory` without an index if an allocation for the values fails.
    pub fn allocate_all(
        &mut self,
        alloc: Global,
        list: ValuedList<Constraint, T>,
    ) -> Result<Vec<RangeInclusive>, RefusedList<Constraint, T>>
        ensures allocated { IfOk result (λ ranges.
            AllocatesEachWith (map_state self.old) list.0 list.1 ranges.items (map_state self.new)) }
        ensures unchanged { OnErr result (map_state self.new ≡ map_state self.old) }
        ensures failed { IfErr result (λ refused.
            FailsAsListed (map_state self.old).space list.0 refused.error) }
        ensures returned { IfErr result (λ refused. refused.list ≡ list) }
        ensures state { IsMapState (map_state self.new) }
    {
        let mut ranges = match self.addresses.allocate_all(alloc, &list.items) {
            Ok(ranges) => ranges,
            Err(error) => return Err(RefusedList { error, list }),
        };
        let ValuedList { items, values } = list;
        if let Err(AllocFailed { value: values }) = self.values.insert_all(alloc, &ranges, values) {
            self.addresses.free_all(&mut ranges);
            let error = Error::OutOfMemory.into();
            let list = ValuedList { items, values };
            return Err(RefusedList { error, list });
        }
        Ok(ranges)
    }
}
