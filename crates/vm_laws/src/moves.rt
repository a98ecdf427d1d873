//! Laws of moves of allocated ranges.
//!
//! Each law is a promise.
ghost use Rattle.vm_laws.specs.MoveLaws.{MovedIsHeld, OldPlaceIsClear, MoveIsTwoCalls};

/// States that a moved range is allocated as requested, and that each address that it had only before is
/// free.
#[tactic(auto, using(crate::proofs::AddressProofs::MovedRanges::moved_held))]
fn moved_ranges_leave_their_place()
    ensures held { MovedIsHeld }
    ensures clear { OldPlaceIsClear }
{}

/// States that a move is the freeing of the range and then an allocation.
#[tactic(auto, using(crate::proofs::AddressProofs::MovedRanges::move_is_two_calls))]
fn moves_are_two_calls()
    ensures { MoveIsTwoCalls }
{}
