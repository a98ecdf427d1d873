//! Laws of the calls that allocate a given id, an id of a window, or several ids.
//!
//! `peeked_ids_are_allocated` is a step. The other laws are promises.
ghost use Rattle.vm_laws.specs.IdRequestLaws.{
  SeveralAreAsSingle,
  ExactIsAsSingle,
  WindowsOfIds,
  HeldIdsAreAsExact,
  PeekedIsAllocated,
};

/// States that these calls allocate the ids that calls of `allocate_id` or `allocate_exact` would
/// allocate, and leave the same state.
#[tactic(auto, using(crate::proofs::IdProofs::IdsInTurn::in_turn))]
fn requests_are_as_single_calls()
    ensures several { SeveralAreAsSingle }
    ensures exact { ExactIsAsSingle }
    ensures windows { WindowsOfIds }
    ensures held { HeldIdsAreAsExact }
{}

/// States that `peek` returns the result of the call for the request, unless memory runs out.
#[tactic(auto, using(vm_ids::proofs::Ids::PeekedIds::predicts))]
fn peeked_ids_are_allocated()
    ensures { PeekedIsAllocated }
{}
