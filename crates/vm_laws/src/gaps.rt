//! Laws of requests and the longest gap.
//!
//! Each law is a promise.
ghost use Rattle.vm_laws.specs.GapLaws.{LongestDecides, LongGapSuffices};

/// States when a valid request of `FirstMatch` or `LastMatch` at alignment 1 is `ResourceNotAvailable`:
/// if and only if it is longer than the longest gap.
///
/// In a window, the longest part of a gap counts.
#[tactic(auto, using(crate::proofs::AddressProofs::LongestGap::longest_decides))]
fn longest_gap_decides()
    ensures { LongestDecides }
{}

/// States that a gap of n + a - 1 addresses suffices for a valid request of `FirstMatch` or `LastMatch`
/// for n addresses at alignment a: it is not `ResourceNotAvailable`.
///
/// In a window, the part of the gap in the window counts.
#[tactic(auto, using(crate::proofs::AddressProofs::LongestGap::long_gap_suffices))]
fn long_gap_suffices()
    ensures { LongGapSuffices }
{}
