//! Reads and writes the fields of a node's value. The names of the fields are only in this file.
//! Reading does not allocate.
ghost use Rattle.std.specs.Prelude.{◌≡◌, IfOk, option_map};
ghost use Rattle.serde_json.specs.View.{view};
ghost use Rattle.vm_ranges.specs.Saving.{Saves};
ghost use Rattle.vm_saved_trees.specs.TreeValues.{EncodesNode};
ghost use Rattle.vm_saved_trees.specs.NodeChecks.{NodeParts, decoded_node};

use serde_json::{Value, json};
use std::alloc::{AllocError, Global};
use vm_leaf::Block;
use vm_ranges::{NodeState, RangeInclusive, Result, has_fields, number_in, range_in, state_in};

const KEY: &str = "key";

const STATE: &str = "node_state";

const LEFT: &str = "left";

const RIGHT: &str = "right";

const HEIGHT: &str = "height";

/// The fields of a node's value.
#[derive(Clone, Copy)]
pub(crate) struct SavedNode<'a> {
    /// The range of the block.
    pub(crate) key: RangeInclusive,
    /// The state of the block.
    pub(crate) state: NodeState,
    /// The height that the value has for the subtree.
    pub(crate) height: u64,
    /// The value of the left child.
    pub(crate) left: &'a Value,
    /// The value of the right child.
    pub(crate) right: &'a Value,
}

/// Returns the fields of a node's value. Returns `None` if the value does not have exactly these
/// fields, or if the key, the state or the height is not valid.
///
/// It does not allocate, and does not check the values of the children.
pub(crate) fn decode_node(value: &Value) -> Option<SavedNode<'_>>
    ensures { option_map (λ n. record {
      block = record { key = n.key; state = n.state };
      height = n.height;
      left = view n.left.now;
      right = view n.right.now;
    }) result ≡ decoded_node (view value.now) }
{
    if !has_fields(value, 5) {
        return None;
    }
    Some(SavedNode {
        key: range_in(value, KEY)?,
        state: state_in(value, STATE)?,
        height: number_in(value, HEIGHT)?,
        left: value.get(LEFT)?,
        right: value.get(RIGHT)?,
    })
}

/// Returns the value of a node with the values of its children.
///
/// It returns `OutOfMemory` if an allocation fails.
#[inline(always)]
#[tactic(auto, using(crate::proofs::Reading::Writing::parts))]
pub(crate) fn encode_node(
    mut left: Value,
    block: &Block,
    mut right: Value,
    height: u64,
    alloc: Global,
) -> Result<Value>
    ensures { Saves
        (λ d. EncodesNode d block.now (λ v. v ≡ view left) (λ v. v ≡ view right) height)
        result }
{
    let mut key = block.key.to_value(alloc)?;
    let mut state = block.state.to_value(alloc)?;
    Ok(node_object(alloc, &mut key, &mut state, &mut left, &mut right, height)?)
}

/// Returns the object of a node's fields.
///
/// It takes the values out of the references. So if it fails, the caller still has them and frees
/// them, and less needs a proof.
fn node_object(
    alloc: Global,
    key: &mut Value,
    state: &mut Value,
    left: &mut Value,
    right: &mut Value,
    height: u64,
) -> std::result::Result<Value, AllocError>
    ensures { IfOk result (λ node.
        NodeParts (view node) (view key.old) (view state.old) (view left.old) (view right.old) height) }
{
    json!(in alloc; {
        KEY: key.take(),
        STATE: state.take(),
        LEFT: left.take(),
        RIGHT: right.take(),
        HEIGHT: height
    })
}
