//! The nodes of a saved tree that were read so far.
//!
//! A reader calls `begin` before it reads the fields of a node, and `end` after that. It has no list
//! of nodes: a subtree is known by its span, and only the allocated keys of all subtrees are kept.
ghost use Rattle.std.specs.Prelude.{◌≡◌, ◌≢◌, ◌<◌, ◌≤◌, ◌⊎◌, [], ◌∷◌, ◌++◌, List, None, length, is_some, IfOk, OnOk, MatchResult, MatchOption};
ghost use Rattle.vm_ranges.specs.Range.{Range};
ghost use Rattle.vm_leaf.specs.SpaceBlocks.{range_if_held};
ghost use Rattle.vm_saved_trees.specs.KeyValues.{MAX_NESTING_REPAIRED};
ghost use Rattle.vm_saved_trees.specs.NodesRead.{BeginsNode, EndsNode, EndsStored, HasRead, MakesOfNodes, around, child_span, condition_of, innermost, keys_state, nothing_read, stored_in, with_span};
ghost use Rattle.vm_saved_trees.specs.SavedTrees.{Saved, HasHeldAs};
ghost use Rattle.vm_ranges.specs.declared.saved.Condition.TheVariants.{Nesting};
ghost use Rattle.vm_ranges.specs.declared.saved.SavedError.TheVariants.{OutOfMemory, Violated};

use crate::span::{Form, MAX_NESTING, Span, held_in, is_accepted, span_over};
use std::alloc::{AllocError, Global};
use std::marker::Model;
use vm_ranges::{Condition, NodeState, RangeInclusive, SavedError};

/// A side of a node, on which it can have a child.
#[derive(Clone, Copy, PartialEq, Eq)]
pub enum Side {
    /// The side of the lower keys.
    Left,
    /// The side of the higher keys.
    Right,
}

/// The spans of the children of a node that have ended.
#[derive(Clone, Copy)]
struct Children {
    left: Option<Span>,
    right: Option<Span>,
}

const CHILDLESS: Children = Children {
    left: None,
    right: None,
};

/// The nodes of a saved tree that were read so far, or the error of reading them.
#[derive(Drop)]
pub struct ReadNodes {
    // The first error.
    failed: Option<SavedError>,
    // The allocated keys of all nodes that ended. Those of a node are in ascending order.
    held: Vec<RangeInclusive>,
    // The nodes that ended in no other one. The left one is the root.
    root: Children,
    // The children of the nodes that began and did not end, the outermost first.
    nested: Vec<Children>,
}

impl Model for ReadNodes {
    ghost use Rattle.std.specs.Prelude.{Result};
    ghost use Rattle.vm_saved_trees.specs.NodesRead.{Stored, stored_in, stored_unless, IsReader};
    ghost use Rattle.vm_ranges.specs.declared.saved.SavedError.{SavedError};

    ghost Value = { Result Stored SavedError };

    ghost view = { λ n. stored_unless n.failed (stored_in n.held.items n.root n.nested.items) };

    ghost invariant = { λ n. IsReader (stored_unless n.failed (stored_in n.held.items n.root n.nested.items)) };
}

impl ReadNodes {
    /// Returns an empty list of nodes. It does not allocate.
    pub fn new(alloc: Global) -> Self
        ensures { HasRead result nothing_read }
    {
        ReadNodes {
            failed: None,
            held: Vec::new(alloc),
            root: CHILDLESS,
            nested: Vec::new(alloc),
        }
    }

    /// Begins a node. It is nested in the nodes that began and did not end.
    ///
    /// So a reader that begins each node descends at most 51 levels.
    ///
    /// # Errors
    ///
    /// After an error, each call returns this error.
    /// - `Violated(Nesting)` if it is nested in 50 nodes.
    /// - `OutOfMemory` if an allocation fails.
    #[tactic(auto, using(crate::proofs::SavedNodes::Stored::begin_fails, crate::proofs::SavedNodes::Stored::begin_ends, crate::proofs::SavedNodes::Stored::reader_begins))]
    pub fn begin(&mut self) -> std::result::Result<(), SavedError>
        ensures { BeginsNode self.old result self.new }
    {
        if let Some(error) = self.failed {
            return Err(error);
        }
        if let Err(error) = nest(&mut self.nested) {
            self.failed = Some(error);
            return Err(error);
        }
        Ok(())
    }

    /// Ends the node that began last, as the child on this side of the node that it is nested in. The root
    /// ends as a left child.
    ///
    /// The children of the node are those that ended since it began, in any order.
    ///
    /// # Errors
    ///
    /// After an error, each call returns this error. In this order:
    /// - `Violated(Tree)` if no node began, or if a child on this side has ended before.
    /// - `Violated(Keys)` if one of these is true:
    ///   - The keys are not in ascending order, or share an address.
    ///   - The key is allocated and ends at `u64::MAX`.
    ///   - Nodes are nested more than 50 deep.
    /// - `OutOfMemory` if an allocation fails.
    #[tactic(auto, using(crate::proofs::SavedNodes::Stored::end_ends))]
    pub fn end(
        &mut self,
        side: Side,
        key: RangeInclusive,
        state: NodeState,
        height: u64,
    ) -> std::result::Result<(), SavedError>
        ensures { EndsNode side (record { key = key; state = state }) height self.old result self.new }
    {
        if let Some(error) = self.failed {
            return Err(error);
        }
        let (held, root, nested) = (&mut self.held, &mut self.root, &mut self.nested);
        if let Err(error) = end_in(held, root, nested, side, key, state, height) {
            self.failed = Some(error);
            return Err(error);
        }
        Ok(())
    }

    /// Returns the allocated keys in ascending order, if the nodes are one whole tree that is accepted for the
    /// space.
    ///
    /// # Errors
    ///
    /// In this order:
    /// - The error of reading the nodes.
    /// - `Violated(Tree)` if the tree is not accepted as a strict one, or `Violated(Inside)` if it is not
    ///   accepted as a repaired one.
    pub fn held_keys(
        &self,
        space: &RangeInclusive,
        form: Form,
    ) -> std::result::Result<&[RangeInclusive], SavedError>
        ensures answer { MakesOfNodes (HasHeldAs form space.now) (condition_of form) self.now
            (keys_state (λ keys. keys.now) space.now result) }
        ensures held { IfOk result (λ keys. (t : Saved)
            × HasHeldAs form space.now t (record { space = space.now; held = keys.now })) }
    {
        if let Some(error) = self.failed {
            return Err(error);
        }
        let violated = SavedError::Violated(condition_of(form));
        let Some(root) = root_of(&self.nested, &self.root) else {
            return Err(violated);
        };
        if !is_accepted(form, space, &root) {
            return Err(violated);
        }
        Ok(&self.held)
    }
}

/// Adds a node that began, without children.
fn nest(nested: &mut Vec<Children>) -> std::result::Result<(), SavedError>
    ensures { MatchResult result
        (λ _. (length nested.old.items < MAX_NESTING_REPAIRED) × (nested.new.items ≡ nested.old.items ++ record { left = None; right = None } ∷ []))
        (λ e. ((e ≡ Violated Nesting) × (MAX_NESTING_REPAIRED ≤ length nested.old.items))
        ⊎ ((e ≡ OutOfMemory) × (length nested.old.items < MAX_NESTING_REPAIRED))) }
{
    if nested.len() as u64 >= MAX_NESTING {
        return Err(SavedError::Violated(Condition::Nesting));
    }
    nested.push(CHILDLESS)?;
    Ok(())
}

/// Ends the innermost node, as a child of the node that it is nested in.
fn end_in(
    held: &mut Vec<RangeInclusive>,
    root: &mut Children,
    nested: &mut Vec<Children>,
    side: Side,
    key: RangeInclusive,
    state: NodeState,
    height: u64,
) -> std::result::Result<(), SavedError>
    ensures { EndsStored side (record { key = key; state = state }) height
        (stored_in held.old.items root.old nested.old.items) result (stored_in held.new.items root.new nested.new.items) }
{
    // The children are not moved out of the list, which would take longer.
    let Some((children, outer)) = nested.split_last() else {
        return Err(SavedError::Violated(Condition::Tree));
    };
    let parent = innermost(root, outer);
    if has_child(parent, side) {
        return Err(SavedError::Violated(Condition::Tree));
    }
    let Some(span) = span_over(&children.left, &key, state, &children.right, height) else {
        return Err(SavedError::Violated(Condition::Keys));
    };
    insert_key(held, held_in(&children.right), key, state)?;
    order_keys(held, held_in(&parent.right), held_in(&Some(span)));
    nested.pop();
    set_innermost(root, nested, side, span);
    Ok(())
}

/// Returns the last of `root` and these.
#[tactic(auto, using(crate::proofs::SavedNodes::Stored::last_is))]
fn innermost<'a>(root: &'a Children, nested: &'a [Children]) -> &'a Children
    ensures { result.now ≡ innermost root.now nested.now }
{
    match nested.last() {
        None => root,
        Some(children) => children,
    }
}

/// Sets the child on a side of the last of `root` and these.
fn set_innermost(root: &mut Children, nested: &mut [Children], side: Side, span: Span)
    ensures last { innermost root.new nested.new ≡ with_span side span (innermost root.old nested.old) }
    ensures others { around root.new nested.new ≡ around root.old nested.old }
{
    let count = nested.len();
    if count == 0 {
        return set_child(root, side, span);
    }
    set_child(&mut nested[count - 1], side, span)
}

/// Returns `true` if there is a child on this side.
fn has_child(children: &Children, side: Side) -> bool
    ensures { result ≡ is_some (child_span side children.now) }
{
    match side {
        Side::Left => children.left.is_some(),
        Side::Right => children.right.is_some(),
    }
}

/// Sets the child on a side.
fn set_child(children: &mut Children, side: Side, span: Span)
    ensures { children.new ≡ with_span side span children.old }
{
    match side {
        Side::Left => children.left = Some(span),
        Side::Right => children.right = Some(span),
    }
}

/// Inserts the key of a node, if it is allocated, before the last `after` keys.
fn insert_key(
    held: &mut Vec<RangeInclusive>,
    after: u64,
    key: RangeInclusive,
    state: NodeState,
) -> std::result::Result<(), AllocError>
    ensures { OnOk result ((lefts rights : List Range) → held.old.items ≡ lefts ++ rights → length rights ≡ after
        → held.new.items ≡ lefts ++ (range_if_held state key ++ rights)) }
{
    if state == NodeState::Free {
        return Ok(());
    }
    let place = held.len().saturating_sub(after as usize);
    held.insert(place, key)?;
    Ok(())
}

/// Moves the last `count` keys before the `right` keys before them.
fn order_keys(held: &mut Vec<RangeInclusive>, right: u64, count: u64)
    ensures { (before rights lasts : List Range) → held.old.items ≡ before ++ (rights ++ lasts) → length rights ≡ right
        → length lasts ≡ count → held.new.items ≡ before ++ (lasts ++ rights) }
{
    let moved = right.saturating_add(count) as usize;
    if right > 0 && moved <= held.len() {
        let first = held.len() - moved;
        held[first..].rotate_left(right as usize);
    }
}

/// Returns the span of the root, if there is no node that did not end.
fn root_of(outer: &[Children], children: &Children) -> Option<Option<Span>>
    ensures { MatchOption result
        (¬ ((outer.now ≡ []) × (children.now.right ≡ None)))
        (λ root. (outer.now ≡ []) × (children.now.right ≡ None) × (root ≡ children.now.left)) }
{
    if outer.is_empty() && children.right.is_none() {
        return Some(children.left);
    }
    None
}

/// Returns the condition that a tree violates if it is not accepted.
fn condition_of(form: Form) -> Condition
    ensures { result ≡ condition_of form }
{
    match form {
        Form::Strict => Condition::Tree,
        Form::Repaired => Condition::Inside,
    }
}
