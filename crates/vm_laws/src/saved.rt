//! Laws of saved values.
//!
//! Each law is a promise.
ghost use Rattle.vm_ranges.specs.RangeValues.{EncodesRange, EncodesState};
ghost use Rattle.vm_addresses.specs.Values.AllocatorValues.{EncodesAddresses, EncodesRepaired};
ghost use Rattle.vm_ids.specs.Values.IdValues.{EncodesIds};
ghost use Rattle.vm_addresses.specs.Histories.AddressHistories.{IsHistoryFrom};
ghost use Rattle.vm_ids.specs.Histories.IdHistories.{IsIdHistoryFrom};
ghost use Rattle.vm_laws.specs.RestoredLaws.{
  RestoredIsSaved,
  RestoredNodesHaveState,
};
ghost use Rattle.vm_laws.specs.ValueLaws.{
  EncodesAtMostOne,
  ReadsWritten,
  ReadsText,
  ReadersAgree,
};

/// States that a value encodes at most one object of each type.
#[tactic(auto, using(crate::proofs::ValueProofs::ReadAgain::one_object, crate::proofs::ValueProofs::ReadAgain::one_repaired_encoded))]
fn values_encode_at_most_one()
    ensures ranges { EncodesAtMostOne EncodesRange }
    ensures node_states { EncodesAtMostOne EncodesState }
    ensures address_allocators { EncodesAtMostOne EncodesAddresses }
    ensures id_allocators { EncodesAtMostOne EncodesIds }
    ensures repaired { EncodesAtMostOne EncodesRepaired }
{}

/// States that `from_value` reads the value that `to_value` writes, and returns an object with the same
/// state, unless memory runs out.
#[tactic(auto, using(crate::proofs::ValueProofs::ReadAgain::read_again))]
fn written_is_read()
    ensures ranges { ReadsWritten EncodesRange }
    ensures node_states { ReadsWritten EncodesState }
    ensures address_allocators { ReadsWritten EncodesAddresses }
    ensures id_allocators { ReadsWritten EncodesIds }
{}

/// States that a restored allocator has the state of the saved one: `from_value` of the value that
/// `to_value` wrote returns this state, and so does `from_nodes` of the nodes that are written. So the
/// same lists of calls with their results are possible for both.
///
/// The tree of a restored allocator has the minimum height, so the counts of both can differ.
fn restored_are_saved()
    ensures address_allocators { RestoredIsSaved EncodesAddresses IsHistoryFrom }
    ensures id_allocators { RestoredIsSaved EncodesIds IsIdHistoryFrom }
    ensures nodes { RestoredNodesHaveState }
{}

/// States that a saved object survives its JSON text: `to_value`, `to_string`, `from_str` and
/// `from_value` in turn return an object with the same state, unless memory runs out.
#[tactic(auto, using(crate::proofs::ValueProofs::NestedValues::texts))]
fn texts_are_read()
    ensures ranges { ReadsText EncodesRange }
    ensures node_states { ReadsText EncodesState }
    ensures address_allocators { ReadsText EncodesAddresses }
    ensures id_allocators { ReadsText EncodesIds }
{}

/// States that both readers return equal allocators, unless memory runs out.
///
/// This is true for each value that `from_value` reads with at most 6,293,134,512 allocated ranges.
#[tactic(auto, using(crate::proofs::ValueProofs::ReadAgain::reads_alike))]
fn both_readers_agree()
    ensures { ReadersAgree }
{}
