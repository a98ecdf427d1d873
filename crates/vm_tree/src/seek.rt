//! A search for the leaf with the place closest to an end, its change, and what it changes above it.
ghost use Rattle.std.specs.Prelude.{◌≡◌, ◌+◌, ◌<◌, ◌≤◌, ◌∷◌, [], length, map, IfOk, OnOk, OnErr, IfSome, IfNone};
ghost use Rattle.vm_tree.specs.Subtree.{leaf_of, leaves_of, kids, over, nth_tree};
ghost use Rattle.vm_tree.specs.Slots.{held, IsDense};
ghost use Rattle.vm_tree.specs.Nodes.{leaf_tree, node_tree, kids_of, AreUnder};
ghost use Rattle.vm_tree.specs.Over.{IsOver};
ghost use Rattle.vm_tree.specs.Found.{HasKid};
ghost use Rattle.vm_tree.specs.Grew.{HasSpares};
ghost use Rattle.vm_tree.specs.Seeking.{IsSeeking};
ghost use Rattle.vm_tree.specs.Sought.{MayEnter, Sought, SoughtRoot, SoughtAt, SoughtIn, FailedSought, FailedSoughtAt, FailedSoughtIn};

use crate::edit::{full_with, reserve_nodes};
use crate::end::End;
use crate::entries::{Entries, Entry, FANOUT, MOST};
use crate::leaf::{Change, Leaf};
use crate::node::{Kids, Node};
use crate::outcome::{Halves, Outcome};
use crate::search::Seek;
use crate::settle::{settle_leaves, settle_nodes};
use crate::window::{kid_count, low_kid, next_kid};
use std::alloc::{AllocError, Global};

/// Splits a leaf that has no room for the place of a search. Before the change there are `full` nodes in `spares`.
#[inline(never)]
fn split_sought<L: Leaf, S: Seek<L>>(
    leaf: &mut L,
    seek: &mut S,
    full: usize,
    spares: &mut Vec<Box<Node<L>>>,
    alloc: Global,
) -> Result<Halves<L>, AllocError>
    requires { S.can_split seek.old leaf.old }
    ensures edited { IfOk result (λ h. S.edits seek.old leaf.old seek.new (leaf.new ∷ h.upper.value ∷ [])) }
    ensures enough { IfOk result (λ h. L.enough leaf.new × L.enough h.upper.value) }
    ensures entries { IfOk result (λ h. (h.low ≡ L.entry leaf.new) × (h.high ≡ L.entry h.upper.value)) }
    ensures spares { OnOk result (full ≤ length spares.new.items) }
    ensures unchanged { OnErr result (leaf.new ≡ leaf.old) }
{
    reserve_nodes(spares, full, alloc)?;
    let upper = seek.split(leaf, alloc)?;
    let low = leaf.entry();
    let high = upper.entry();
    Ok(Halves { low, high, upper })
}

/// Changes a leaf if it has a place. It is split if it has no room: then `full` nodes are allocated before the
/// change.
#[inline(always)]
pub(crate) fn seek_leaf<L: Leaf, S: Seek<L>>(
    leaf: &mut L,
    was: Entry,
    seek: &mut S,
    full: usize,
    spares: &mut Vec<Box<Node<L>>>,
    alloc: Global,
    count: &mut u64,
) -> Result<Option<Outcome<L>>, AllocError>
    requires may { MayEnter L.entry (S.seeking seek.old) (leaf.old ∷ []) }
    requires was { was ≡ L.entry leaf.old }
    ensures sought { IfOk result (λ r. Sought L.entry L.enough (S.seeking seek.old) count.old count.new (λ l. S.refuses seek.old l seek.new) (λ l ls. S.edits seek.old l seek.new ls) leaf_tree (leaf_of leaf.old) (leaf_of leaf.new) r) }
    ensures same { IfOk result (λ r. IfNone r (seek.new ≡ seek.old)) }
    ensures spares { IfOk result (λ r. IfSome r (λ o. HasSpares full (length spares.new.items) o)) }
    ensures failed { OnErr result (FailedSought L.entry L.enough (S.seeking seek.old) count.old count.new (λ l. S.needs_memory seek.old l) (leaf_of leaf.old) (leaf_of leaf.new)) }
{
    *count = count.saturating_add(1);
    let Some(change) = seek.seek(leaf, was) else {
        return Ok(None);
    };
    match change {
        Change::Refused => Ok(Some(Outcome::Refused)),
        Change::Same => Ok(Some(Outcome::Same)),
        Change::Changed => Ok(Some(Outcome::Changed(leaf.entry()))),
        Change::OutOfMemory => Err(AllocError),
        Change::Full => Ok(Some(Outcome::Split(split_sought(leaf, seek, full, spares, alloc)?))),
    }
}

/// Changes a leaf that is a root if it has a place. It is entered if its summary does not exclude a place.
#[inline(always)]
pub(crate) fn seek_root<L: Leaf, S: Seek<L>>(
    leaf: &mut L,
    seek: &mut S,
    spares: &mut Vec<Box<Node<L>>>,
    alloc: Global,
    count: &mut u64,
) -> Result<Option<Outcome<L>>, AllocError>
    requires lawful { IsSeeking L.entry (S.seeking seek.old) }
    requires runs { (S.seeking seek.old).runs (leaf.old ∷ []) }
    ensures sought { IfOk result (λ r. SoughtRoot L.entry L.enough (S.seeking seek.old) count.old count.new (λ l. S.refuses seek.old l seek.new) (λ l ls. S.edits seek.old l seek.new ls) leaf_tree (leaf_of leaf.old) (leaf_of leaf.new) r) }
    ensures same { IfOk result (λ r. IfNone r (seek.new ≡ seek.old)) }
    ensures spares { IfOk result (λ r. IfSome r (λ o. HasSpares 1 (length spares.new.items) o)) }
    ensures failed { OnErr result (FailedSought L.entry L.enough (S.seeking seek.old) count.old count.new (λ l. S.needs_memory seek.old l) (leaf_of leaf.old) (leaf_of leaf.new)) }
{
    let Some(change) = seek.seek(leaf, MOST) else {
        if seek.fits(&leaf.entry()) {
            *count = count.saturating_add(1);
        }
        return Ok(None);
    };
    *count = count.saturating_add(1);
    match change {
        Change::Refused => Ok(Some(Outcome::Refused)),
        Change::Same => Ok(Some(Outcome::Same)),
        Change::Changed => Ok(Some(Outcome::Same)),
        Change::OutOfMemory => Err(AllocError),
        Change::Full => Ok(Some(Outcome::Split(split_sought(leaf, seek, 1, spares, alloc)?))),
    }
}

/// Searches the child `i`, a leaf.
#[tactic(auto, using(crate::proofs::Dense::not_empty, crate::proofs::Dense::rewritten_dense))]
#[inline(always)]
fn seek_leaf_at<L: Leaf, S: Seek<L>>(
    slots: &mut [Option<Box<L>>; FANOUT],
    i: usize,
    was: Entry,
    seek: &mut S,
    full: usize,
    spares: &mut Vec<Box<Node<L>>>,
    alloc: Global,
    count: &mut u64,
) -> Result<Option<Outcome<L>>, AllocError>
    requires dense { IsDense slots.old }
    requires within { i < length (held slots.old) }
    requires may { MayEnter L.entry (S.seeking seek.old) (nth_tree (map leaf_tree (held slots.old)) i).leaves }
    requires was { (l : L) → HasKid slots.old i l → was ≡ L.entry l }
    ensures dense { IsDense slots.new }
    ensures sought { IfOk result (λ r. SoughtAt L.entry L.enough (S.seeking seek.old) count.old count.new (λ l. S.refuses seek.old l seek.new) (λ l ls. S.edits seek.old l seek.new ls) leaf_tree i (map leaf_tree (held slots.old)) (map leaf_tree (held slots.new)) r) }
    ensures same { IfOk result (λ r. IfNone r (seek.new ≡ seek.old)) }
    ensures spares { IfOk result (λ r. IfSome r (λ o. HasSpares full (length spares.new.items) o)) }
    ensures failed { OnErr result (FailedSoughtAt L.entry L.enough (S.seeking seek.old) count.old count.new (λ l. S.needs_memory seek.old l) leaf_tree i (map leaf_tree (held slots.old)) (map leaf_tree (held slots.new))) }
{
    match &mut slots[i] {
        Some(kid) => {
            let leaf: &mut L = kid;
            seek_leaf(leaf, was, seek, full, spares, alloc, count)
        }
        None => unreachable!(),
    }
}

/// Searches the child `i` of a node, a leaf.
#[inline(always)]
fn seek_leaves<L: Leaf, S: Seek<L>>(
    entries: &mut Entries,
    slots: &mut [Option<Box<L>>; FANOUT],
    i: usize,
    seek: &mut S,
    full: usize,
    spares: &mut Vec<Box<Node<L>>>,
    alloc: Global,
    count: &mut u64,
) -> Result<Option<Outcome<Node<L>>>, AllocError>
    requires over { IsOver L.entry L.enough 0 leaf_tree entries.old slots.old }
    requires within { i < length entries.old }
    requires may { MayEnter L.entry (S.seeking seek.old) (nth_tree (map leaf_tree (held slots.old)) i).leaves }
    ensures over { IsOver L.entry L.enough 0 leaf_tree entries.new slots.new }
    ensures sought { IfOk result (λ r. SoughtIn L.entry L.enough (S.seeking seek.old) count.old count.new (λ l. S.refuses seek.old l seek.new) (λ l ls. S.edits seek.old l seek.new ls) node_tree i (map leaf_tree (held slots.old)) (map leaf_tree (held slots.new)) r) }
    ensures same { IfOk result (λ r. IfNone r (seek.new ≡ seek.old)) }
    ensures spares { IfOk result (λ r. IfSome r (λ o. HasSpares full (length spares.new.items) o)) }
    ensures failed { OnErr result (FailedSoughtIn L.entry L.enough (S.seeking seek.old) count.old count.new (λ l. S.needs_memory seek.old l) i (map leaf_tree (held slots.old)) (map leaf_tree (held slots.new))) }
{
    let full = full_with(entries.len(), full);
    let was = entries.entry(i);
    let Some(outcome) = seek_leaf_at(slots, i, was, seek, full, spares, alloc, count)? else {
        return Ok(None);
    };
    Ok(Some(settle_leaves(entries, slots, i, outcome, spares)))
}

/// Searches the child `i`, a node.
#[cycle(seek)]
#[tactic(auto, using(crate::proofs::Dense::not_empty, crate::proofs::Dense::rewritten_dense))]
#[inline(always)]
fn seek_node_at<L: Leaf, S: Seek<L>>(
    slots: &mut [Option<Box<Node<L>>>; FANOUT],
    i: usize,
    seek: &mut S,
    full: usize,
    spares: &mut Vec<Box<Node<L>>>,
    alloc: Global,
    count: &mut u64,
) -> Result<Option<Outcome<Node<L>>>, AllocError>
    requires dense { IsDense slots.old }
    requires within { i < length (held slots.old) }
    requires some { 0 < kids (nth_tree (map node_tree (held slots.old)) i) }
    requires may { MayEnter L.entry (S.seeking seek.old) (nth_tree (map node_tree (held slots.old)) i).leaves }
    ensures dense { IsDense slots.new }
    ensures sought { IfOk result (λ r. SoughtAt L.entry L.enough (S.seeking seek.old) count.old count.new (λ l. S.refuses seek.old l seek.new) (λ l ls. S.edits seek.old l seek.new ls) node_tree i (map node_tree (held slots.old)) (map node_tree (held slots.new)) r) }
    ensures same { IfOk result (λ r. IfNone r (seek.new ≡ seek.old)) }
    ensures spares { IfOk result (λ r. IfSome r (λ o. HasSpares full (length spares.new.items) o)) }
    ensures failed { OnErr result (FailedSoughtAt L.entry L.enough (S.seeking seek.old) count.old count.new (λ l. S.needs_memory seek.old l) node_tree i (map node_tree (held slots.old)) (map node_tree (held slots.new))) }
{
    match &mut slots[i] {
        Some(kid) => {
            let kid: &mut Node<L> = kid;
            seek_at(kid, seek, full, spares, alloc, count)
        }
        None => unreachable!(),
    }
}

/// Searches the child `i` of a node, a node.
#[cycle(seek)]
#[inline(always)]
fn seek_nodes<L: Leaf, S: Seek<L>>(
    entries: &mut Entries,
    slots: &mut [Option<Box<Node<L>>>; FANOUT],
    i: usize,
    seek: &mut S,
    full: usize,
    spares: &mut Vec<Box<Node<L>>>,
    alloc: Global,
    count: &mut u64,
) -> Result<Option<Outcome<Node<L>>>, AllocError>
    requires over { IsOver L.entry L.enough 2 node_tree entries.old slots.old }
    requires within { i < length entries.old }
    requires may { MayEnter L.entry (S.seeking seek.old) (nth_tree (map node_tree (held slots.old)) i).leaves }
    ensures over { IsOver L.entry L.enough 2 node_tree entries.new slots.new }
    ensures sought { IfOk result (λ r. SoughtIn L.entry L.enough (S.seeking seek.old) count.old count.new (λ l. S.refuses seek.old l seek.new) (λ l ls. S.edits seek.old l seek.new ls) node_tree i (map node_tree (held slots.old)) (map node_tree (held slots.new)) r) }
    ensures same { IfOk result (λ r. IfNone r (seek.new ≡ seek.old)) }
    ensures spares { IfOk result (λ r. IfSome r (λ o. HasSpares full (length spares.new.items) o)) }
    ensures failed { OnErr result (FailedSoughtIn L.entry L.enough (S.seeking seek.old) count.old count.new (λ l. S.needs_memory seek.old l) i (map node_tree (held slots.old)) (map node_tree (held slots.new))) }
{
    let full = full_with(entries.len(), full);
    let Some(outcome) = seek_node_at(slots, i, seek, full, spares, alloc, count)? else {
        return Ok(None);
    };
    Ok(Some(settle_nodes(entries, slots, i, outcome, spares)))
}

/// Searches the child `i` of a node.
#[cycle(seek)]
#[inline(always)]
fn seek_kid<L: Leaf, S: Seek<L>>(
    entries: &mut Entries,
    kids: &mut Kids<L>,
    i: usize,
    seek: &mut S,
    full: usize,
    spares: &mut Vec<Box<Node<L>>>,
    alloc: Global,
    count: &mut u64,
) -> Result<Option<Outcome<Node<L>>>, AllocError>
    requires under { AreUnder L.entry L.enough entries.old kids.old }
    requires within { i < length (kids_of kids.old) }
    requires may { MayEnter L.entry (S.seeking seek.old) (nth_tree (kids_of kids.old) i).leaves }
    ensures under { AreUnder L.entry L.enough entries.new kids.new }
    ensures sought { IfOk result (λ r. SoughtIn L.entry L.enough (S.seeking seek.old) count.old count.new (λ l. S.refuses seek.old l seek.new) (λ l ls. S.edits seek.old l seek.new ls) node_tree i (kids_of kids.old) (kids_of kids.new) r) }
    ensures same { IfOk result (λ r. IfNone r (seek.new ≡ seek.old)) }
    ensures spares { IfOk result (λ r. IfSome r (λ o. HasSpares full (length spares.new.items) o)) }
    ensures failed { OnErr result (FailedSoughtIn L.entry L.enough (S.seeking seek.old) count.old count.new (λ l. S.needs_memory seek.old l) i (kids_of kids.old) (kids_of kids.new)) }
{
    match kids {
        Kids::Leaves(slots) => seek_leaves(entries, slots, i, seek, full, spares, alloc, count),
        Kids::Nodes(slots) => seek_nodes(entries, slots, i, seek, full, spares, alloc, count),
    }
}

/// Searches the children of a node: those in the window whose summary does not exclude a place, from an end.
#[cycle(seek)]
#[inline(always)]
fn seek_kids<L: Leaf, S: Seek<L>>(
    entries: &mut Entries,
    kids: &mut Kids<L>,
    seek: &mut S,
    full: usize,
    spares: &mut Vec<Box<Node<L>>>,
    alloc: Global,
    count: &mut u64,
) -> Result<Option<Outcome<Node<L>>>, AllocError>
    requires under { AreUnder L.entry L.enough entries.old kids.old }
    requires some { 0 < length (kids_of kids.old) }
    requires may { MayEnter L.entry (S.seeking seek.old) (leaves_of (kids_of kids.old)) }
    ensures under { AreUnder L.entry L.enough entries.new kids.new }
    ensures sought { IfOk result (λ r. Sought L.entry L.enough (S.seeking seek.old) count.old count.new (λ l. S.refuses seek.old l seek.new) (λ l ls. S.edits seek.old l seek.new ls) node_tree (over (kids_of kids.old)) (over (kids_of kids.new)) r) }
    ensures same { IfOk result (λ r. IfNone r (seek.new ≡ seek.old)) }
    ensures spares { IfOk result (λ r. IfSome r (λ o. HasSpares full (length spares.new.items) o)) }
    ensures failed { OnErr result (FailedSought L.entry L.enough (S.seeking seek.old) count.old count.new (λ l. S.needs_memory seek.old l) (over (kids_of kids.old)) (over (kids_of kids.new))) }
{
    *count = count.saturating_add(1);
    let end = seek.end();
    // Proof: `len` bounds the number of children.
    let _len = entries.len();
    let mut from = low_kid(entries, seek.low());
    let mut to = kid_count(entries, seek.high());
    while let Some(i) = next_kid::<L, S>(entries, from, to, end, seek) {
        if let Some(outcome) = seek_kid(entries, kids, i, seek, full, spares, alloc, count)? {
            return Ok(Some(outcome));
        }
        match end {
            End::First => from = i + 1,
            End::Last => to = i,
        }
    }
    Ok(None)
}

/// Searches the leaves below a node, and changes the one with the place closest to an end. If the node is split,
/// then its upper half is returned, and there are `full` nodes in `spares`. An error changes nothing.
#[cycle(seek)]
pub(crate) fn seek_at<L: Leaf, S: Seek<L>>(
    node: &mut Node<L>,
    seek: &mut S,
    full: usize,
    spares: &mut Vec<Box<Node<L>>>,
    alloc: Global,
    count: &mut u64,
) -> Result<Option<Outcome<Node<L>>>, AllocError>
    requires some { 0 < kids node.old }
    requires may { MayEnter L.entry (S.seeking seek.old) node.old.leaves }
    ensures sought { IfOk result (λ r. Sought L.entry L.enough (S.seeking seek.old) count.old count.new (λ l. S.refuses seek.old l seek.new) (λ l ls. S.edits seek.old l seek.new ls) node_tree node.old node.new r) }
    ensures same { IfOk result (λ r. IfNone r (seek.new ≡ seek.old)) }
    ensures spares { IfOk result (λ r. IfSome r (λ o. HasSpares full (length spares.new.items) o)) }
    ensures failed { OnErr result (FailedSought L.entry L.enough (S.seeking seek.old) count.old count.new (λ l. S.needs_memory seek.old l) node.old node.new) }
{
    seek_kids(
        &mut node.entries,
        &mut node.kids,
        seek,
        full,
        spares,
        alloc,
        count,
    )
}
