//! Laws of histories of an id allocator.
//!
//! A history is a list of calls of an allocator that was created or read. It can go on with a
//! clone.
//!
//! Each law is a promise.
ghost use Rattle.vm_ranges.specs.Histories.{ErrorsChangeNothing, EveryListHasHistory, SameCallsSameResults};
ghost use Rattle.vm_ids.specs.Histories.IdHistories.{IsIdCallFrom};
ghost use Rattle.vm_laws.specs.IdHistoryLaws.{EachIsLowestNotHeld, NoIdIsHeldTwice, HeldIsAllocated, StatesAreOfIds, IdCloneIsReached, IdReadIsReached};
ghost use Rattle.vm_ids.specs.Facts.{EveryIdCallIsAnswered};

/// States that in every history each id that `allocate_id` allocates is the lowest free one, and that
/// no id is allocated twice at the same time, by whichever calls.
#[tactic(auto, using(crate::proofs::IdProofs::AlongIdHistories::lowest_ids))]
fn lowest_ids_are_allocated()
    ensures lowest { EachIsLowestNotHeld }
    ensures twice { NoIdIsHeldTwice }
{}

/// Proves which ids are allocated: the ids that a call allocated or that were allocated in the
/// value that was read, without the ids that were freed since. An error changes nothing.
#[tactic(auto, using(crate::proofs::IdProofs::AlongIdHistories::held_ids))]
fn held_ids_are_allocated()
    ensures held { HeldIsAllocated }
    ensures states { StatesAreOfIds }
    ensures errors { ErrorsChangeNothing IsIdCallFrom }
{}

/// States that every call has a result in every state, so every list of calls has a history.
#[tactic(auto, using(vm_ids::proofs::Ids::EveryIdCall::answers))]
fn every_id_call_is_answered()
    ensures call { EveryIdCallIsAnswered }
    ensures list { EveryListHasHistory IsIdCallFrom }
{}

/// States that the same list of calls in the same state has the same results and leads to the same
/// state, if memory suffices.
#[tactic(auto, using(vm_ids::proofs::Ids::SameIdCalls::same_id_results))]
fn same_id_calls_have_same_results()
    ensures { SameCallsSameResults IsIdCallFrom }
{}

/// States that a clone is reached by a history. So what is true for every history is true for
/// clones.
fn id_clones_are_reached()
    ensures { IdCloneIsReached }
{}

/// States that an allocator that was read is reached by a history without calls. So what is true
/// for every history is true for it.
fn id_reads_are_reached()
    ensures { IdReadIsReached }
{}
