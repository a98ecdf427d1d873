//! Laws of ranges.
//!
//! Each law is a promise.
ghost use Rattle.vm_ranges.specs.RangeLaws.{RangesAreSets, HashAgreesWithEquality};

/// Proves that overlapping is symmetric, that containing is reflexive and transitive, and that the
/// order of ranges agrees with their equality, and that an address has one offset or none.
#[tactic(auto, using(crate::proofs::RangeOrders::ranges_are_sets))]
fn ranges_are_sets()
    ensures { RangesAreSets }
{}

/// Proves that two ranges write the same bytes to a hasher if and only if they are equal. So equal
/// ranges have the same hash.
#[tactic(auto, using(crate::proofs::RangeHashes::hashes))]
fn equal_ranges_hash_equally()
    ensures { HashAgreesWithEquality
        ⟦<crate::range::RangeInclusive as PartialEq>⟧.eq
        ⟦<crate::range::RangeInclusive as std::hash::Hash>⟧.hash_input }
{}
