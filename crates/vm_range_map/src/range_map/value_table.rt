//! The values of the allocated ranges, by the starts of the ranges.
//!
//! The values are in a list, in no order, each with the start of its range. A list of entries in the order of the
//! starts has the index of each value. The last value takes the index of one that is removed.
ghost use Rattle.std.specs.Prelude.{
  ◌≡◌,
  ◌≢◌,
  ◌+◌,
  ◌≤◌,
  List,
  ◌++◌,
  length,
  IsSome,
  Some,
  None,
  IfOk,
  IfErr,
  OnErr,
  OnOk,
  option_copied,
};
ghost use Rattle.std.specs.Borrow.{sem};
ghost use Rattle.std.specs.List.{slice_get};
ghost use Rattle.std.specs.Ordering.{nat_cmp};
ghost use Rattle.std.specs.Vec.{vec_len, vec_capacity};
ghost use Rattle.std.specs.FinMap as map;
ghost use Rattle.vm_range_map.specs.Checks.{AreListed, AreInserted, AreNewStarts, IsKnownAt, renumbered};
ghost use Rattle.vm_range_map.specs.RangeMaps.{AreCopies, with_values};

use std::alloc::{AllocError, AllocFailed, Global};
use std::marker::Model;
use vm_addresses::RangeInclusive;
use vm_list::{Iter, Keyed, KeyedList};

/// A value, and the start of its range.
#[derive(Clone, Drop)]
pub(super) struct ValueAt<T> {
    pub(super) start: u64,
    pub(super) value: T,
}

/// The index of a value, and the start of its range.
#[derive(Clone, Copy)]
pub(super) struct IndexAt {
    pub(super) start: u64,
    pub(super) index: usize,
}

impl Keyed for IndexAt {
    ghost key_of = { λ e. e.start };

    /// Returns the start of the range.
    fn key(&self) -> u64 {
        self.start
    }
}

/// The value of each allocated range by the start of the range.
///
/// Its model is the map from starts to values.
#[derive(Drop)]
pub(super) struct ValueTable<T> {
    indices: KeyedList<IndexAt>,
    values: Vec<ValueAt<T>>,
}

impl<T> Model for ValueTable<T> {
    ghost use Rattle.std.specs.Coded.{coded_ℕ};
    ghost use Rattle.std.specs.Ordering.{nat_cmp};
    ghost use Rattle.std.specs.FinMap as map;
    ghost use Rattle.vm_range_map.specs.Checks.{values_of, indices_of, AreIndexed};

    ghost Value = { map.FinMap nat_cmp T };

    ghost coded = { map.code coded_ℕ T.code };

    ghost view = { λ t. values_of t.values.items };

    ghost invariant = { λ t. AreIndexed (indices_of t.indices) t.values.items };
}

/// Writes the index of the item there into its entry, unless the index is past the end.
fn renumber<T>(indices: &mut KeyedList<IndexAt>, values: &[ValueAt<T>], index: usize)
    requires { IsKnownAt values.now index indices.old }
    ensures { indices.new ≡ renumbered (slice_get values.now index) index indices.old }
{
    if let Some(moved) = values.get(index) {
        indices.set(IndexAt {
            start: moved.start,
            index,
        });
    }
}

impl<T: Drop> ValueTable<T> {
    ghost use Rattle.vm_range_map.specs.TableLends.{lends_at};

    /// Creates a table without values. It does not allocate.
    pub(super) fn new(alloc: Global) -> ValueTable<T>
        ensures { result ≡ map.empty }
    {
        ValueTable {
            indices: KeyedList::new(),
            values: Vec::new(alloc),
        }
    }

    /// Returns the value at a start, or `None` if there is none.
    pub(super) fn get(&self, start: u64) -> Option<&T>
        ensures { option_copied result ≡ map.get self.now start }
    {
        let entry = self.indices.get(start)?;
        Some(&self.values[entry.index].value)
    }

    /// Returns the value at a start, to change it.
    pub(super) fn value_mut(&mut self, start: u64) -> &mut T
        requires { IsSome (map.get self.old start) }
        ensures* writes_back { sem 𝓛 (lends_at T.row self.entry start result) }
        ensures value { Some result.now ≡ map.get self.old start }
    {
        let Some(entry) = self.indices.get(start) else {
            unreachable!()
        };
        let index = entry.index;
        &mut self.values[index].value
    }

    /// Inserts a value at a new start. An error changes nothing, and returns the value.
    pub(super) fn insert(
        &mut self,
        alloc: Global,
        start: u64,
        value: T,
    ) -> Result<(), AllocFailed<T>>
        requires { map.get self.old start ≡ None }
        ensures inserted { OnOk result (self.new ≡ map.insert self.old start value) }
        ensures err { OnErr result (self.new ≡ self.old) }
        ensures returned { IfErr result (λ failed. failed.value ≡ value) }
    {
        let index = self.values.len();
        if let Err(AllocFailed { value }) = self.values.push(ValueAt { start, value }) {
            return Err(AllocFailed { value: value.value });
        }
        if self.indices.insert(alloc, IndexAt { start, index }).is_ok() {
            return Ok(());
        }
        let Some(ValueAt { value, .. }) = self.values.pop() else {
            unreachable!()
        };
        Err(AllocFailed { value })
    }

    /// Removes the value at a start, and returns it. It does not allocate.
    pub(super) fn remove(&mut self, start: u64) -> Option<T>
        ensures value { result ≡ map.get self.old start }
        ensures rest { self.new ≡ map.remove self.old start }
    {
        let index = self.indices.remove(start)?.index;
        let ValueAt { value, .. } = self.values.swap_remove(index);
        renumber(&mut self.indices, &self.values, index);
        Some(value)
    }

    /// Inserts the value of each range at its start. An error changes nothing, and returns the values.
    pub(super) fn insert_all(
        &mut self,
        alloc: Global,
        ranges: &[RangeInclusive],
        values: Vec<T>,
    ) -> Result<(), AllocFailed<Vec<T>>>
        requires many { length ranges.now ≡ length values.items }
        requires new { AreNewStarts self.old ranges.now }
        ensures inserted { OnOk result (self.new ≡ with_values self.old ranges.now values.items) }
        ensures err { OnErr result (self.new ≡ self.old) }
        ensures returned { IfErr result (λ failed. failed.value.items ≡ values.items) }
    {
        let mut left = values;
        while let Some(value) = left.pop() {
            let at = left.len();
            if let Err(failed) = self.insert(alloc, ranges[at].start(), value) {
                let Ok(()) = left.push(failed.value) else {
                    // The value was in the list before.
                    unreachable!()
                };
                self.remove_all(&ranges[at + 1..], &mut left);
                return Err(AllocFailed { value: left });
            }
        }
        Ok(())
    }

    /// Removes the values of ranges that were inserted together, and appends them to a list that has the capacity.
    fn remove_all(&mut self, ranges: &[RangeInclusive], values: &mut Vec<T>)
        requires inserted { (before : map.FinMap nat_cmp T) × (removed : List T)
            × AreInserted before ranges.now removed self.old }
        requires room { vec_len values.old + length ranges.now ≤ vec_capacity values.old }
        ensures { (before : map.FinMap nat_cmp T) (removed : List T) → AreInserted before ranges.now removed self.old
            → (self.new ≡ before) × (values.new.items ≡ values.old.items ++ removed) }
    {
        for range in ranges {
            let Some(value) = self.remove(range.start()) else {
                unreachable!()
            };
            let Ok(()) = values.push(value) else {
                unreachable!()
            };
        }
    }

    /// Moves the value at a start to another start, where there is none, or to the same start. An error changes
    /// nothing, and is possible only for another start.
    pub(super) fn move_to(&mut self, alloc: Global, from: u64, to: u64) -> Result<(), AllocError>
        requires known { IsSome (map.get self.old from) }
        requires new { from ≢ to → map.get self.old to ≡ None }
        ensures moved { OnOk result ((value : T) → map.get self.old from ≡ Some value
            → self.new ≡ map.insert (map.remove self.old from) to value) }
        ensures err { OnErr result (self.new ≡ self.old) }
        ensures start { OnErr result (from ≢ to) }
    {
        if from == to {
            return Ok(());
        }
        let Some(entry) = self.indices.get(from) else {
            unreachable!()
        };
        let index = entry.index;
        self.indices.insert(alloc, IndexAt { start: to, index })?;
        self.indices.remove(from);
        self.values[index].start = to;
        Ok(())
    }

    /// Returns the entries by ascending starts, and the values at their indices.
    pub(super) fn iter(&self) -> (Iter<'_, IndexAt>, &[ValueAt<T>])
        ensures { AreListed self.now result.0 result.1.now }
    {
        (self.indices.iter(), &self.values)
    }
}

impl<T: Clone> ValueTable<T> {
    /// Returns a copy, with copies of the values.
    pub(super) fn try_clone(&self, alloc: Global) -> Result<ValueTable<T>, AllocError>
        ensures { IfOk result (λ table. AreCopies T.is_clone self.now table) }
    {
        let indices = self.indices.try_clone(alloc)?;
        let values = self.values.clone()?;
        Ok(ValueTable { indices, values })
    }
}
