//! Laws of saved trees.
//!
//! Each law is a promise.
ghost use Rattle.vm_laws.specs.SavedLaws.{
  SpansAreExact,
  NodesAreWritten,
  WrittenIsRead,
  EqualAreWrittenEqually,
  ValuesAreSavedTrees,
  ValuesHaveHeldKeys,
};

/// States what is read and what is written:
/// - A saved tree of ranges has a span if and only if these are true: its keys are in ascending order and
///   share no address, no allocated key ends at `u64::MAX`, and nodes are nested at most 50 deep.
/// - `root` returns, node for node, one saved tree.
/// - What is written of a tree is a saved tree of its space, node for node, with its state. So the
///   strict reader accepts it as the same state.
/// - Trees of one state are written in the same way.
#[tactic(auto, using(crate::proofs::ValueProofs::SavedTrees::saved_trees))]
fn saved_trees()
    ensures spans { SpansAreExact }
    ensures nodes { NodesAreWritten }
    ensures read { WrittenIsRead }
    ensures equal { EqualAreWrittenEqually }
{}

/// States that a value is accepted if and only if a reader of another format accepts its nodes, with and
/// without repairs.
#[tactic(auto, using(crate::proofs::ValueProofs::SavedTrees::values))]
fn values_are_saved_trees()
    ensures strict { ValuesAreSavedTrees }
    ensures repaired { ValuesHaveHeldKeys }
{}
