//! Iteration over the allocated ranges with their values, from both ends.
ghost use Rattle.std.specs.Prelude.{◌≡◌, ◌<◌, Some, IfSome, length, option_map};
ghost use Rattle.std.specs.Iterator.{YieldsFirstBy, YieldsLastBy, UpTo, at_most, item_count};
ghost use Rattle.std.specs.Iterator.SizeHint.{IsWithinCount};
ghost use Rattle.std.specs.List.{slice_get};
ghost use Rattle.vm_range_map.specs.Checks.{value_of};
ghost use Rattle.vm_range_map.specs.Queries.{valued_ranges};
ghost use Rattle.vm_range_map.specs.Trees.{map_state};

use super::RangeMap;
use super::value_table::{IndexAt, ValueAt};
use std::alloc::AllocError;
use std::marker::Model;
use vm_addresses::{RangeInclusive, Ranges};
use vm_list::Iter;

/// An iterator over the allocated ranges with their values, from the lowest to the highest, or backwards. It has
/// an exact length, and does not allocate.
///
/// Its model is the list of the ranges with their values that it has not returned yet.
#[derive(Drop)]
pub struct ValuedRanges<'a, T> {
    ranges: Ranges<'a>,
    // The entries of these ranges, in the same order, and the values at their indices.
    entries: Iter<'a, IndexAt>,
    values: &'a [ValueAt<T>],
}

impl<'a, T> Model for ValuedRanges<'a, T> {
    ghost use Rattle.std.specs.Prelude.{List};
    ghost use Rattle.vm_ranges.specs.Range.{Range};
    ghost use Rattle.vm_range_map.specs.Checks.{pair_up, AreMatched};

    ghost Value = { List (Range × T) };

    ghost view = { λ v. pair_up v.values.now v.ranges v.entries };

    ghost invariant = { λ v. AreMatched v.values.now v.ranges v.entries };
}

/// Returns the value at an index.
fn value_at<T>(values: &[ValueAt<T>], index: usize) -> &T
    requires { index < length values.now }
    ensures { Some result.now ≡ option_map value_of (slice_get values.now index) }
{
    &values[index].value
}

impl<T: Drop> RangeMap<T> {
    /// Returns an iterator over the allocated ranges with their values, from the lowest to the highest.
    ///
    /// It does not allocate.
    pub fn iter(&self) -> ValuedRanges<'_, T>
        ensures { result ≡ valued_ranges (map_state self.now) }
    {
        let (entries, values) = self.values.iter();
        ValuedRanges {
            ranges: self.addresses.held_ranges(),
            entries,
            values,
        }
    }
}

impl<'a, T> Clone for ValuedRanges<'a, T> {
    fn clone(&self) -> Result<Self, AllocError> {
        Ok(ValuedRanges {
            ranges: self.ranges.clone()?,
            entries: self.entries.clone()?,
            values: self.values,
        })
    }
}

impl<'a, T> Iterator for ValuedRanges<'a, T> {
    type Item = (RangeInclusive, &'a T);

    ghost next_gives = { YieldsFirstBy (λ found. (found.0, found.1.now)) (λ v. v) };

    ghost remaining = { item_count (λ v. v) };

    /// Returns the lowest range that is left, with its value.
    fn next(&mut self) -> Option<(RangeInclusive, &'a T)> {
        let range = self.ranges.next()?;
        let Some(entry) = self.entries.next() else {
            // There are as many entries as ranges.
            unreachable!()
        };
        Some((range, value_at(self.values, entry.index)))
    }

    /// Returns the number of ranges that are left, as both bounds.
    #[tactic(auto, using(crate::proofs::Pairs::pair_lists))]
    fn size_hint(&self) -> (usize, Option<usize>)
        ensures exact { result ≡ (length self.now, Some (length self.now)) }
        ensures lower { IsWithinCount result.0 (at_most (length self.now)) }
        ensures upper { IfSome result.1 (UpTo (at_most (length self.now))) }
    {
        let left = self.ranges.len();
        (left, Some(left))
    }
}

impl<'a, T> DoubleEndedIterator for ValuedRanges<'a, T> {
    ghost next_back_gives = { YieldsLastBy (λ found. (found.0, found.1.now)) (λ v. v) };

    /// Returns the highest range that is left, with its value.
    fn next_back(&mut self) -> Option<(RangeInclusive, &'a T)> {
        let range = self.ranges.next_back()?;
        let Some(entry) = self.entries.next_back() else {
            // There are as many entries as ranges.
            unreachable!()
        };
        Some((range, value_at(self.values, entry.index)))
    }
}

impl<'a, T> ExactSizeIterator for ValuedRanges<'a, T> {
    /// Returns the number of ranges that are left. It takes constant time.
    #[tactic(auto, using(crate::proofs::Pairs::pair_lists))]
    fn len(&self) -> usize {
        self.ranges.len()
    }
}
