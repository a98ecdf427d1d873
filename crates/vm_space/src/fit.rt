//! The allocation of the lowest or of the highest place of a search, in one leaf.
ghost use Rattle.std.specs.Prelude.{◌≡◌, ◌+◌, ◌<◌, ◌≤◌, ◌++◌, None, Ok, true, Err, length, IfOk, OnErr, MatchOption};
ghost use Rattle.vm_leaf.specs.Entries.{blocks_entry};
ghost use Rattle.vm_leaf.specs.Rest.{added_by};
ghost use Rattle.vm_space.specs.Allocation.{IsSearch, HasNoPlace};
ghost use Rattle.vm_space.specs.Placing.{IsClosestFitIn, IsClosestLeafPlace};
ghost use Rattle.vm_space.specs.Fitting.{SettlesFit, FitsLeaf, CanSplit};

use crate::place::{Place, has_room, refusal_of, take_place};
use crate::search::{Refusal, Search, Taken};
use std::alloc::{AllocError, Global};
use vm_leaf::{Block, CAPACITY, Fit, Leaf, MIN_BLOCKS};
use vm_ranges::{NodeState, RangeInclusive};
use vm_tree::{End, Entry};

/// Returns the fit of a search that is closest to an end of a leaf, or `None` if there is none.
#[inline(always)]
#[tactic(auto, using(crate::proofs::Searched::no_place))]
pub(crate) fn fit_in(leaf: &Leaf, end: End, search: &Search) -> Option<Fit>
    requires search { IsSearch search.now }
    ensures { MatchOption result (HasNoPlace search.now leaf.now) (IsClosestFitIn end search.now leaf.now) }
{
    match end {
        End::First => leaf.first_fit_in(search.low, search.high, search.size, search.alignment),
        End::Last => leaf.last_fit_in(search.low, search.high, search.size, search.alignment),
    }
}

/// Returns the place of a search that is closest to an end of a leaf, or `None` if there is none.
#[inline(always)]
#[tactic(auto, using(crate::proofs::Searched::places))]
pub(crate) fn place_in(leaf: &Leaf, end: End, search: &Search) -> Option<Place>
    requires search { IsSearch search.now }
    ensures { MatchOption result (HasNoPlace search.now leaf.now) (IsClosestLeafPlace end search.now leaf.now) }
{
    let fit = fit_in(leaf, end, search)?;
    let gap = leaf.key_at(fit.index);
    // Proof: `end` gives the facts of a range.
    let _end = gap.end();
    let range = RangeInclusive::between(fit.start, fit.start + (search.size - 1));
    Some(Place::new(fit.index, gap, range))
}

/// The result of a search in a leaf.
#[derive(Clone, Copy)]
pub(crate) enum Fitting {
    /// The leaf has no place.
    Absent,
    /// The place cannot be allocated.
    Refused(Refusal),
    /// The leaf has no room to allocate this place.
    Full(Place),
    /// The place was allocated.
    Taken(Taken),
}

/// Allocates the place of a search that is closest to an end of a leaf, if the leaf has room. Also returns true if the
/// entry of the leaf was `was` and still is.
#[inline(always)]
pub(crate) fn fit_in_leaf(
    leaf: &mut Leaf,
    end: End,
    search: &Search,
    was: &Entry,
) -> (Fitting, bool)
    requires search { IsSearch search.now }
    ensures fits { FitsLeaf end search.now leaf.old leaf.new result.0 }
    ensures kept { result.1 ≡ true → was.now ≡ blocks_entry leaf.old → blocks_entry leaf.new ≡ blocks_entry leaf.old }
    ensures more { length leaf.old ≤ length leaf.new }
    ensures some { (0 < length leaf.new) × (length leaf.new ≤ CAPACITY) }
{
    // Proof: `len` gives the facts of a leaf.
    let _len = leaf.len();
    let Some(place) = place_in(leaf, end, search) else {
        return (Fitting::Absent, true);
    };
    if let Some(refusal) = refusal_of(&place, search) {
        return (Fitting::Refused(refusal), true);
    }
    if !has_room(leaf, place.rest) {
        return (Fitting::Full(place), true);
    }
    let kept = take_place(leaf, &place, was);
    let taken = Taken {
        range: place.range,
        added: place.rest.added(),
    };
    (Fitting::Taken(taken), kept)
}

/// Allocates a place in a leaf that has no room for it: its upper part is moved to another leaf.
pub(crate) fn split_fit(
    leaf: &mut Leaf,
    end: End,
    search: &Search,
    place: &Place,
    alloc: Global,
) -> Result<(Box<Leaf>, Taken), AllocError>
    requires { CanSplit end search.now leaf.old place.now }
    ensures allocated { IfOk result (λ r. SettlesFit end search.now leaf.old (leaf.new ++ r.0.value) (Ok r.1)) }
    ensures low { IfOk result (λ r. (MIN_BLOCKS ≤ length leaf.new) × (length leaf.new ≤ CAPACITY)) }
    ensures high { IfOk result (λ r. (MIN_BLOCKS ≤ length r.0.value) × (length r.0.value ≤ CAPACITY)) }
    ensures unchanged { OnErr result (leaf.new ≡ leaf.old) }
{
    let _end = end;
    let _size = search.size;
    let block = Block {
        key: place.range,
        state: NodeState::Allocated,
    };
    let mut upper = Box::new(alloc, Leaf::single(block))?;
    let high: &mut Leaf = &mut upper;
    leaf.split_full(place.index, place.range, place.rest, high);
    let taken = Taken {
        range: place.range,
        added: place.rest.added(),
    };
    Ok((upper, taken))
}
