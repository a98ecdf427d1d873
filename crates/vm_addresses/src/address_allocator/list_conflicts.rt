//! The reason why a range of a list cannot be allocated after the ranges before it.
ghost use Rattle.std.specs.Prelude.{◌≡◌, option_map};
ghost use Rattle.vm_addresses.specs.Held.{range_fault};
ghost use Rattle.vm_addresses.specs.ListConflicts.{conflict_at, range_conflict, lowest_start, list_error, fault_at};

use super::AddressAllocator;
use vm_ranges::RangeInclusive;

/// The reason why a range of a list cannot be allocated after the ranges before it.
#[derive(Clone, Copy, Debug, PartialEq, Eq)]
pub enum ListConflict {
    /// The range does not start after the end of the range before it. This is the range before it.
    NotAfter(RangeInclusive),
    /// The range is not in the space. This is the space.
    OutsideSpace(RangeInclusive),
    /// The range ends at `u64::MAX`.
    EndsAtMax,
}

impl AddressAllocator {
    /// Returns the reason why [`with_held`](Self::with_held) of this space fails for the range with this index of a
    /// list. Returns `None` if the range can be allocated after the one before it, or if the list has no such range.
    ///
    /// It returns the first of these reasons:
    /// - `NotAfter` if the range does not start after the end of the range before it.
    /// - `OutsideSpace` if it starts below the space.
    /// - `EndsAtMax` if it starts at `u64::MAX`.
    /// - `OutsideSpace` if it ends past the space.
    /// - `EndsAtMax` if it ends at `u64::MAX`.
    ///
    /// It takes constant time and does not allocate.
    pub fn list_conflict(
        space: &RangeInclusive,
        ranges: &[RangeInclusive],
        index: usize,
    ) -> Option<ListConflict>
        ensures value { result ≡ conflict_at space.now ranges.now index }

        // The reason is that of the error of `with_held` for this range.
        ensures error { option_map list_error result ≡ fault_at space.now ranges.now index }
    {
        let range = ranges.get(index)?;
        let before = if index == 0 {
            None
        } else {
            Some(ranges[index - 1])
        };
        conflict_after(space, before, range)
    }
}

/// Returns the reason why a range of a list cannot be allocated after the range before it, if there is one.
fn conflict_after(
    space: &RangeInclusive,
    before: Option<RangeInclusive>,
    range: &RangeInclusive,
) -> Option<ListConflict>
    ensures value { result ≡ range_conflict space.now before range.now }
    ensures error { option_map list_error result ≡ range_fault (lowest_start space.now before) space.now.end range.now }
{
    let start = range.start();
    match before {
        Some(before) if start <= before.end() => return Some(ListConflict::NotAfter(before)),
        None if start < space.start() => return Some(ListConflict::OutsideSpace(*space)),
        _ => {}
    }
    if start == u64::MAX {
        return Some(ListConflict::EndsAtMax);
    }
    if space.end() < range.end() {
        return Some(ListConflict::OutsideSpace(*space));
    }
    if range.end() == u64::MAX {
        return Some(ListConflict::EndsAtMax);
    }
    None
}
