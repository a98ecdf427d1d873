//! Iteration over the allocated ranges that have an address in common with a window, from both ends.
ghost use Rattle.std.specs.Prelude.{◌≡◌};
ghost use Rattle.std.specs.Iterator.{YieldsFirstBy, YieldsLastBy, item_count};
ghost use Rattle.vm_range_map.specs.Queries.{valued_ranges_in};
ghost use Rattle.vm_range_map.specs.Trees.{map_state};

use super::RangeMap;
use super::value_table::ValueTable;
use std::alloc::AllocError;
use std::marker::Model;
use vm_addresses::{RangeInclusive, RangesIn};

/// An iterator over the allocated ranges that have an address in common with a window, with their values, from the
/// lowest to the highest, or backwards. It does not allocate.
///
/// Its model is the list of the ranges with their values that it has not returned yet.
#[derive(Drop)]
pub struct ValuedRangesIn<'a, T> {
    ranges: RangesIn<'a>,
    // The values of all ranges.
    values: &'a ValueTable<T>,
}

impl<'a, T> Model for ValuedRangesIn<'a, T> {
    ghost use Rattle.std.specs.Prelude.{List};
    ghost use Rattle.std.specs.List.{filter_map};
    ghost use Rattle.vm_ranges.specs.Range.{Range};
    ghost use Rattle.vm_range_map.specs.Queries.{valued_in, AreValued};

    ghost Value = { List (Range × T) };

    ghost view = { λ v. filter_map (valued_in v.values.now) v.ranges };

    ghost invariant = { λ v. AreValued v.values.now v.ranges };
}

impl<T: Drop> RangeMap<T> {
    /// Returns an iterator over the allocated ranges that have an address in common with `window`, with their values,
    /// from the lowest to the highest.
    ///
    /// Each range is returned whole. It descends one path of the tree for each end of `window`, looks each value up,
    /// and does not allocate.
    pub fn held_ranges_in(&self, window: &RangeInclusive) -> ValuedRangesIn<'_, T>
        ensures { result ≡ valued_ranges_in window.now (map_state self.now) }
    {
        ValuedRangesIn {
            ranges: self.addresses.held_ranges_in(window),
            values: &self.values,
        }
    }
}

impl<'a, T> Clone for ValuedRangesIn<'a, T> {
    fn clone(&self) -> Result<Self, AllocError> {
        Ok(ValuedRangesIn {
            ranges: self.ranges.clone()?,
            values: self.values,
        })
    }
}

impl<'a, T: Drop> Iterator for ValuedRangesIn<'a, T> {
    type Item = (RangeInclusive, &'a T);

    ghost next_gives = { YieldsFirstBy (λ found. (found.0, found.1.now)) (λ v. v) };

    ghost remaining = { item_count (λ v. v) };

    /// Returns the lowest range that is left, with its value.
    fn next(&mut self) -> Option<(RangeInclusive, &'a T)> {
        let range = self.ranges.next()?;
        let Some(value) = self.values.get(range.start()) else {
            // Each allocated range has a value.
            unreachable!()
        };
        Some((range, value))
    }
}

impl<'a, T: Drop> DoubleEndedIterator for ValuedRangesIn<'a, T> {
    ghost next_back_gives = { YieldsLastBy (λ found. (found.0, found.1.now)) (λ v. v) };

    /// Returns the highest range that is left, with its value.
    fn next_back(&mut self) -> Option<(RangeInclusive, &'a T)> {
        let range = self.ranges.next_back()?;
        let Some(value) = self.values.get(range.start()) else {
            // Each allocated range has a value.
            unreachable!()
        };
        Some((range, value))
    }
}
