//! Encodes a tree as a value, and decodes it.
ghost use Rattle.std.specs.Prelude.{◌≡◌, ◌≤◌, ◌++◌, Option, IfOk, OnOk};
ghost use Rattle.serde_json.specs.View.{view};
ghost use Rattle.vm_ranges.specs.Saving.{Saves, Reads};
ghost use Rattle.vm_saved_trees.specs.ValueNodes.{IsSavedIn, ReadsValue, WritesTree};
ghost use Rattle.vm_saved_trees.specs.NodesRead.{keys_state};
ghost use Rattle.vm_saved_trees.specs.SavedTrees.{Saved, HasHeldAs, held_keys};
ghost use Rattle.vm_leaf.specs.SpaceBlocks.{range_if_held};
ghost use Rattle.vm_saved_trees.specs.declared.span.Span.{Span};
ghost use Rattle.vm_saved_trees.specs.KeyValues.{MAX_NESTING_REPAIRED, EncodesAs};

use crate::node::{decode_node, encode_node};
use crate::span::{Form, MAX_NESTING, Span, held_in, is_accepted, span_over};
use crate::written::WrittenTree;
use serde_json::Value;
use std::alloc::{AllocError, Global};
use vm_leaf::Block;
use vm_ranges::{NodeState, RangeInclusive, Result, ValueError};

/// Returns the allocated keys of a value in ascending order, if it encodes a tree that is accepted for the space.
///
/// All of the value is checked before anything is allocated, and the check descends at most 51 levels.
///
/// # Errors
///
/// In this order:
/// - `NotAState` if the value encodes no tree that is accepted.
/// - `OutOfMemory` if an allocation fails.
pub fn read_held_keys(
    alloc: Global,
    space: &RangeInclusive,
    value: &Value,
    form: Form,
) -> std::result::Result<Vec<RangeInclusive>, ValueError>
    ensures answer { Reads (EncodesAs form (view value.now) space.now)
        (keys_state (λ keys. keys.items) space.now result) }
    ensures held { IfOk result (λ keys. (t : Saved)
        × HasHeldAs form space.now t (record { space = space.now; held = keys.items })) }
{
    // Proof: this shows that the space is a range.
    let _end = space.end();
    let Some(root) = read_span(value, 0) else {
        return Err(ValueError::NotAState);
    };
    if !is_accepted(form, space, &root) {
        return Err(ValueError::NotAState);
    }
    Ok(held_keys(alloc, held_in(&root), value)?)
}

/// Reads a node that is nested in `depth` nodes, with all nodes below it, and returns the span of their tree.
/// Returns `None` if the value does not have the fields of nodes, or if they are not those of a readable tree.
fn read_span(value: &Value, depth: u64) -> Option<Option<Span>>
    requires { depth ≤ MAX_NESTING_REPAIRED }
    ensures { ReadsValue depth (view value.now) result }
{
    if value.is_null() {
        return Some(None);
    }
    if depth >= MAX_NESTING {
        return None;
    }
    let Some(node) = decode_node(value) else {
        return None;
    };
    let left = read_span(node.left, depth + 1)?;
    let right = read_span(node.right, depth + 1)?;
    let span = span_over(&left, &node.key, node.state, &right, node.height)?;
    Some(Some(span))
}

/// Returns the allocated keys of a value with the nodes of a readable tree, in ascending order. `count` is
/// their number.
fn held_keys(
    alloc: Global,
    count: u64,
    value: &Value,
) -> std::result::Result<Vec<RangeInclusive>, AllocError>
    ensures { IfOk result (λ list. (span : Option Span) (t : Saved) → IsSavedIn 0 (view value.now) span t
        → list.items ≡ held_keys t) }
{
    let mut held = Vec::with_capacity(alloc, count as usize)?;
    append_held(value, 0, &mut held)?;
    Ok(held)
}

/// Appends the allocated keys of a value that is nested in `depth` nodes.
fn append_held(
    value: &Value,
    depth: u64,
    held: &mut Vec<RangeInclusive>,
) -> std::result::Result<(), AllocError>
    ensures { OnOk result ((span : Option Span) (t : Saved) → IsSavedIn depth (view value.now) span t
        → held.new.items ≡ held.old.items ++ held_keys t) }
{
    let Some(node) = decode_node(value) else {
        return Ok(());
    };
    if depth >= MAX_NESTING {
        return Ok(());
    }
    append_held(node.left, depth + 1, held)?;
    push_held(held, node.key, node.state)?;
    append_held(node.right, depth + 1, held)
}

/// Appends the key of a node, if it is allocated.
fn push_held(
    held: &mut Vec<RangeInclusive>,
    key: RangeInclusive,
    state: NodeState,
) -> std::result::Result<(), AllocError>
    ensures { OnOk result (held.new.items ≡ held.old.items ++ range_if_held state key) }
{
    if state == NodeState::Allocated {
        held.push(key)?;
    }
    Ok(())
}

/// Returns the value that encodes a saved tree.
///
/// # Errors
///
/// - `OutOfMemory` if an allocation fails.
pub fn encode(tree: &WrittenTree<'_>, alloc: Global) -> Result<Value>
    ensures { Saves (WritesTree tree.now) result }
{
    let Some(node) = tree.root() else {
        return Ok(Value::Null);
    };
    let block = Block {
        key: node.key,
        state: node.state,
    };
    let left = encode(&node.left, alloc)?;
    let right = encode(&node.right, alloc)?;
    encode_node(left, &block, right, node.height, alloc)
}
