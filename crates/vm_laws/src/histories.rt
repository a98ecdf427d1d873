//! Laws of histories of an address allocator.
//!
//! A history is a list of calls of an allocator that was created or read. It can go on with a
//! clone.
//!
//! Each law is a promise.
ghost use Rattle.vm_ranges.specs.Histories.{ErrorsChangeNothing, EveryListHasHistory, SameCallsSameResults};
ghost use Rattle.vm_addresses.specs.Values.AllocatorValues.{EncodesAddresses, EncodesRepaired};
ghost use Rattle.vm_saved_trees.specs.SavedTrees.{HasHeldKeys, HasTreeOf};
ghost use Rattle.vm_addresses.specs.Histories.AddressHistories.{IsCallFrom};
ghost use Rattle.vm_laws.specs.HistoryLaws.{FirstIsLowest, LastIsHighest, ExactIsAtItsStart, PlacesAnswer, HeldAreValid, StateDecides, FreeUndoes, FreesInAnyOrder, CloneIsReached, ReadIsReached, NodesAreReached, EqualStatesAreEqual, FreeMakesEqual, FreesInAnyOrderMakeEqual};
ghost use Rattle.vm_addresses.specs.Facts.{EveryAddressCallIsAnswered};

/// States that in every history `FirstMatch` allocates the lowest place, `LastMatch` the highest
/// place, and `ExactMatch` the place at its start. If the request has a window, these are the places
/// in the window.
#[tactic(auto, using(crate::proofs::AddressProofs::HistoryResults::first_is_lowest, crate::proofs::AddressProofs::HistoryResults::last_is_highest))]
fn chosen_places_are_allocated()
    ensures first { FirstIsLowest }
    ensures last { LastIsHighest }
    ensures exact { ExactIsAtItsStart }
{}

/// States that the places decide the result of each request, and that an error changes nothing.
#[tactic(auto, using(crate::proofs::AddressProofs::HistoryResults::places_answer, crate::proofs::AddressProofs::HistoryResults::errors_change_nothing))]
fn places_answer()
    ensures answers { PlacesAnswer }
    ensures refusals { ErrorsChangeNothing IsCallFrom }
{}

/// States that allocated ranges never overlap, lie in the space and do not contain `u64::MAX`.
///
/// Each of them has the requested length and alignment, or was allocated in the value that was
/// read.
#[tactic(auto, using(crate::proofs::AddressProofs::AlongHistories::held_good))]
fn held_are_valid()
    ensures { HeldAreValid }
{}

/// States that the result of a call depends only on the space and the allocated ranges, unless
/// memory runs out.
#[tactic(auto, using(crate::proofs::AddressProofs::AlongHistories::decided))]
fn state_decides()
    ensures { StateDecides }
{}

/// States that the same list of calls in the same state has the same results and leads to the same
/// state, if no call runs out of memory.
///
/// An allocator that `from_nodes` restores has the state of the saved one. So later calls have the
/// same results for both.
#[tactic(auto, using(crate::proofs::AddressProofs::SameCalls::same_address_results))]
fn same_calls_have_same_results()
    ensures { SameCallsSameResults IsCallFrom }
{}

/// States that freed ranges leave no trace, in whatever order they are freed.
#[tactic(auto, using(crate::proofs::AddressProofs::AlongHistories::release_undoes, crate::proofs::AddressProofs::Releases::order_is_free))]
fn frees_leave_no_trace()
    ensures undone { FreeUndoes }
    ensures order { FreesInAnyOrder }
{}

/// States that every call has a result in every state, so every list of calls has a history.
#[tactic(auto, using(vm_addresses::proofs::Results::EveryAddressCall::answers))]
fn every_call_is_answered()
    ensures call { EveryAddressCallIsAnswered }
    ensures list { EveryListHasHistory IsCallFrom }
{}

/// States that a clone is reached by a history. So what is true for every history is true for
/// clones.
#[tactic(auto, using(crate::proofs::AddressProofs::AddressEnds::clone_is_reached))]
fn clones_are_reached()
    ensures { CloneIsReached }
{}

/// States that an allocator that was read, with or without repairs, from a value or node by node, is
/// reached by a history without calls. So what is true for every history is true for it.
#[tactic(auto, using(crate::proofs::AddressProofs::AddressEnds::read_is_reached, crate::proofs::AddressProofs::AddressEnds::repaired_is_reached, crate::proofs::AddressProofs::AddressEnds::nodes_are_reached, crate::proofs::AddressProofs::AddressEnds::repaired_nodes_are_reached))]
fn reads_are_reached()
    ensures read { ReadIsReached EncodesAddresses }
    ensures repaired { ReadIsReached EncodesRepaired }
    ensures nodes { NodesAreReached HasTreeOf }
    ensures repaired_nodes { NodesAreReached HasHeldKeys }
{}

/// States that allocators with the same space and the same allocated ranges are equal. The order
/// and the kind of the calls before do not matter.
#[tactic(auto, using(crate::proofs::AddressProofs::AddressEnds::release_makes_equal, crate::proofs::AddressProofs::AddressEnds::order_makes_equal))]
fn equal_states_are_equal()
    ensures any { EqualStatesAreEqual }
    ensures undone { FreeMakesEqual }
    ensures order { FreesInAnyOrderMakeEqual }
{}
