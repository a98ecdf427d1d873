//! Laws of queries of addresses and gaps.
//!
//! Each law is a promise.
ghost use Rattle.vm_laws.specs.QueryLaws.{
  EachAddressIsInOne,
  HeldAtAgrees,
  GapAtAgrees,
  GapsAreLongest,
  HeldAndGapsAreBlocks,
  LongestIsZero,
  LongestFits,
  LongGapFits,
  ClearAreFew,
  CountsAddUp,
  MeetingIsOverlap,
  ClearIfNoneMeets,
};

/// States that each address of the space is either in exactly one allocated range or in exactly one
/// gap. `held_at` and `gap_at` agree with both lists.
#[tactic(auto, using(vm_addresses::proofs::Results::HeldAndGaps::one_range))]
fn addresses_are_in_one_range()
    ensures one { EachAddressIsInOne }
    ensures agrees { HeldAtAgrees }
    ensures gap_agrees { GapAtAgrees }
{}

/// States that the gaps are exactly the longest ranges of free addresses. The allocated ranges and
/// the gaps in turn cover the space.
fn gaps_are_longest()
    ensures longest { GapsAreLongest }
    ensures blocks { HeldAndGapsAreBlocks }
{}

/// States that a request at alignment 1 has a place if and only if it is at most as long as the longest
/// gap. The length of the longest gap is 0 if and only if no address is free.
fn longest_gap_fits()
    ensures zero { LongestIsZero }
    ensures fits { LongestFits }
{}

/// States that a request for n addresses at alignment a has a place if a gap has n + a - 1 addresses.
/// In a window, the part of the gap in the window counts.
#[tactic(auto, using(crate::proofs::AddressProofs::Capacity::long_gap_fits))]
fn long_gap_fits()
    ensures { LongGapFits }
{}

/// States that k allocated ranges leave at most k + 1 times as many free addresses as the longest gap
/// has.
#[tactic(auto, using(crate::proofs::AddressProofs::Capacity::clear_are_few))]
fn clear_addresses_are_few()
    ensures { ClearAreFew }
{}

/// States that the number of free addresses and the lengths of the allocated ranges add up to the
/// size of the space.
#[tactic(auto, using(vm_addresses::proofs::Results::HeldAndGaps::counts))]
fn counts_add_up()
    ensures { CountsAddUp }
{}

/// States that `held_ranges_in` and `gaps_in` return exactly the ranges that overlap the given range.
/// If that range is in the space, it is free if and only if `held_ranges_in` returns nothing.
#[tactic(auto, using(vm_addresses::proofs::Results::Meeting::meeting_is_overlap))]
fn ranges_meet_windows()
    ensures overlaps { MeetingIsOverlap }
    ensures clear { ClearIfNoneMeets }
{}
