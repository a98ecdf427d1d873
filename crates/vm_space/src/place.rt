//! A place in a leaf, and its allocation there.
ghost use Rattle.std.specs.Prelude.{◌≡◌, ◌+◌, ◌<◌, ◌≤◌, length, MatchBool, Ok, IsErr, IfSome, ◌⊎◌, true};
ghost use Rattle.vm_leaf.specs.Blocks.{IsTakenFrom};
ghost use Rattle.vm_leaf.specs.Entries.{blocks_entry};
ghost use Rattle.vm_leaf.specs.Rest.{IsRest, added_by};
ghost use Rattle.vm_space.specs.Allocation.{SettlesAt, IsOutOfMemory};
ghost use Rattle.vm_space.specs.Placing.{in_list, with_place, IsLeafPlace, IsPlaceFor, RefusesPlace};

use crate::search::{Refusal, Search, Taken};
use vm_leaf::{CAPACITY, Leaf, Rest, Summary};
use vm_ranges::RangeInclusive;
use vm_tree::Entry;

/// A range that is to be allocated in a gap of a leaf.
#[derive(Clone, Copy)]
pub(crate) struct Place {
    /// The index of the gap.
    pub(crate) index: usize,
    pub(crate) gap: RangeInclusive,
    pub(crate) range: RangeInclusive,
    /// The parts of the gap that stay free.
    pub(crate) rest: Rest,
}

impl Place {
    /// Returns the place of a range in the gap with this index.
    #[inline(always)]
    pub(crate) fn new(index: usize, gap: RangeInclusive, range: RangeInclusive) -> Place
        requires { IsTakenFrom gap range }
        ensures same { (result.index ≡ index) × (result.gap ≡ gap) × (result.range ≡ range) }
        ensures rest { IsRest result.rest gap range }
    {
        let rest = Rest::of(&gap, &range);
        Place {
            index,
            gap,
            range,
            rest,
        }
    }
}

/// Returns the reason why the range of a place cannot be allocated, or `None` if it can.
#[inline(always)]
pub(crate) fn refusal_of(place: &Place, search: &Search) -> Option<Refusal>
    ensures refuses { RefusesPlace search.now place.now result }
    ensures memory { IfSome result (λ refusal. ¬ IsOutOfMemory refusal) }
{
    if place.range.end() == u64::MAX {
        return Some(Refusal::PastMax);
    }
    if place.rest.added() > 0 && !search.can_split {
        return Some(Refusal::CannotSplit);
    }
    None
}

/// Returns `true` if the leaf has room for the parts that stay free.
#[inline(always)]
pub(crate) fn has_room(leaf: &Leaf, rest: Rest) -> bool
    ensures { MatchBool result (length leaf.now + added_by rest ≤ CAPACITY)
        (CAPACITY < length leaf.now + added_by rest) }
{
    leaf.len() <= CAPACITY - rest.added() as usize
}

/// Returns how much of `most` has to be left if a gap with `gone` is taken: all of it, unless the gap has less.
#[inline(always)]
fn to_be_left(gone: u64, most: u64) -> u64
    ensures { gone < most ⊎ result ≡ most }
{
    if gone < most { 0 } else { most }
}

/// Allocates a place in a leaf, which has room for it. Returns true if the entry of the leaf was `was` and still is.
#[inline(always)]
pub(crate) fn take_place(leaf: &mut Leaf, place: &Place, was: &Entry) -> bool
    requires place { IsLeafPlace leaf.old place.now }
    requires room { length leaf.old + added_by place.now.rest ≤ CAPACITY }
    ensures taken { leaf.new ≡ with_place leaf.old place.now }
    ensures kept { result ≡ true → was.now ≡ blocks_entry leaf.old → blocks_entry leaf.new ≡ blocks_entry leaf.old }
{
    // Proof: `len` gives the facts of a leaf.
    let _len = leaf.len();
    leaf.split(place.index, place.range, place.rest);
    let gap = Summary::of_gap(&place.gap);
    leaf.reaches(
        to_be_left(gap.longest, was.longest),
        to_be_left(gap.alignments.into(), was.alignments.into()),
    )
}
