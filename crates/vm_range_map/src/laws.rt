//! Laws of maps from ranges to values.
//!
//! Each law is the contract of a function that does nothing. Each is a promise.
ghost use Rattle.vm_range_map.specs.Laws.{
  ValueIsAtItsAddresses,
  RangesKeepValues,
  MapsDecide,
  EqualMapsAreTheSame,
  CopiesAreTheSame,
};

/// Proves that `get` returns a range and its value at each address of the range.
#[tactic(auto, using(crate::proofs::KeptValues::kept))]
fn values_are_at_their_addresses<T>()
    ensures { ValueIsAtItsAddresses T }
{}

/// Proves that a range has the value of its allocation or of the last `set`, also after it moves and while other
/// ranges change.
#[tactic(auto, using(crate::proofs::KeptValues::kept))]
fn ranges_keep_values<T>()
    ensures { RangesKeepValues T }
{}

/// Proves that the result of a call depends only on the space, the allocated ranges and their values, if memory
/// suffices.
#[tactic(auto, using(crate::proofs::MapsOnce::decides))]
fn maps_decide<T>()
    ensures { MapsDecide T }
{}

/// Proves that equal maps have the same space, the same allocated ranges and the same values, where equal values are
/// the same.
#[tactic(auto, using(crate::proofs::EqualMaps::equal))]
fn equal_maps_are_the_same<T>()
    ensures { EqualMapsAreTheSame T }
{}

/// Proves that a copy has the same values, where a clone of a value is the same value.
#[tactic(auto, using(crate::proofs::Copies::copied))]
fn copies_are_the_same<T: Clone>()
    ensures { CopiesAreTheSame T.is_clone }
{}
