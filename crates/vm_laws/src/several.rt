//! Laws of several requests in one call, and of ranges that are allocated from the start.
//!
//! Each law is a promise.
ghost use Rattle.vm_addresses.specs.Several.{HeldAsAllocated};
ghost use Rattle.vm_laws.specs.SeveralLaws.{
  HeldIsEqual,
  FaultIsThatOfExactMatch,
  FreeIsHeld,
  OneIsAllocated,
  PartsAreAllocatedInTurn,
  FailureChangesNothing,
};

/// States that ranges which are allocated from the start are allocated as if one after the other.
///
/// The allocator is equal to the one that allocated them. If the ranges are ascending, the first one
/// that cannot be allocated has the error that it would have there.
#[tactic(auto, using(crate::proofs::AddressProofs::HeldOnes::held_as_allocated, crate::proofs::AddressProofs::HeldOnes::held_is_equal, crate::proofs::AddressProofs::HeldFaults::fault_is_that_of_exact_match))]
fn held_is_allocated()
    ensures state { HeldAsAllocated }
    ensures equal { HeldIsEqual }
    ensures fault { FaultIsThatOfExactMatch }
{}

/// States that several requests in one call are allocated one after the other, as by `allocate`.
///
/// After an error the state is the one before, the allocator is equal to the one before, and all later
/// calls have the same results. Only the shape of the tree can differ.
#[tactic(auto, using(crate::proofs::AddressProofs::SeveralParts::one_is_allocated, crate::proofs::AddressProofs::SeveralParts::parts_are_allocated_in_turn, crate::proofs::AddressProofs::SeveralParts::failure_changes_nothing))]
fn several_are_allocated_in_turn()
    ensures one { OneIsAllocated }
    ensures parts { PartsAreAllocatedInTurn }
    ensures unchanged { FailureChangesNothing }
{}

/// States that an allocator which is made of its free ranges is as one that is made with its holes
/// allocated.
#[tactic(auto, using(vm_addresses::proofs::Results::Holes::free_is_held))]
fn free_is_held()
    ensures { FreeIsHeld }
{}
