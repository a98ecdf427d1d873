//! Laws of ids that follow from the definitions of the calls.
//!
//! `one_id_changes` is a step. The other laws are promises.
ghost use Rattle.vm_ranges.specs.Histories.{CallsAreDetermined};
ghost use Rattle.vm_ids.specs.Histories.IdHistories.{IsIdCallFrom};
ghost use Rattle.vm_laws.specs.IdPartLaws.{PartsDecideIds};
ghost use Rattle.vm_ids.specs.Facts.{WrittenIdsAreRead, PeekingPredicts, HeldIdsAreListed};
ghost use Rattle.vm_laws.specs.IdLaws.{MakingIsDetermined, AllocatingIsDetermined, IdStateIsPreserved, AllocatingAdds, FreeingRemoves, IdCountFindsAll};

/// States that a call has one result and one next state in each state, unless memory runs out.
#[tactic(auto, using(vm_ids::proofs::Ids::SameIdCalls::determined))]
fn calls_are_determined()
    ensures makes { MakingIsDetermined }
    ensures allocates { AllocatingIsDetermined }
    ensures peeks { PeekingPredicts }
    ensures calls { CallsAreDetermined IsIdCallFrom }
{}

/// States that the calls preserve the valid states: the ids ever allocated are the first ids of the
/// range, and only such ids are allocated.
#[tactic(auto, using(crate::proofs::IdProofs::AlongIdHistories::kept))]
fn id_states_are_preserved()
    ensures { IdStateIsPreserved }
{}

/// States that allocating or freeing an id changes only this id.
#[tactic(auto, using(vm_ids::proofs::Ids::IdResults::changes))]
fn one_id_changes()
    ensures takes { AllocatingAdds }
    ensures frees_one { FreeingRemoves }
{}

/// States that a list of different allocated ids contains all allocated ids if and only if its
/// length is their number.
#[tactic(auto, using(vm_ids::proofs::Ids::IdCounts::listings))]
fn id_counts_find_all()
    ensures { IdCountFindsAll }
{}

/// States that `held_ids` returns exactly the allocated ids, from the lowest to the highest, and
/// that their number is `held_count`.
#[tactic(auto, using(vm_ids::proofs::Ids::HeldIds::listings))]
fn held_ids_are_listed()
    ensures { HeldIdsAreListed }
{}

/// States that the parts of an id allocator are read as this allocator, unless memory runs out: its
/// range, its next id and its freed ids, which are added one by one. Allocators are equal if and
/// only if their parts are.
#[tactic(auto, using(vm_ids::proofs::Ids::WrittenIds::written))]
fn written_ids_are_read()
    ensures read { WrittenIdsAreRead }
    ensures equal { PartsDecideIds }
{}
