//! A change of one leaf of a tree, and what it changes above it.
ghost use Rattle.std.specs.Prelude.{◌≡◌, ◌+◌, ◌*◌, ◌<◌, ◌≤◌, length, map, ℕ, IfOk, OnOk, OnErr};
ghost use Rattle.vm_tree.specs.Rows.{nth};
ghost use Rattle.vm_tree.specs.Subtree.{leaf_of, nth_tree, kids, over, leaves_of, front, Ascend};
ghost use Rattle.vm_tree.specs.Edits.{AtKey};
ghost use Rattle.vm_tree.specs.Over.{IsOver};
ghost use Rattle.vm_tree.specs.Found.{IsLeafOf, HasKid};
ghost use Rattle.vm_tree.specs.Slots.{held, IsDense};
ghost use Rattle.vm_tree.specs.Nodes.{leaf_tree, node_tree};
ghost use Rattle.vm_tree.specs.Sought.{IsCounted};
ghost use Rattle.vm_tree.specs.Grew.{IsKept, IsSplit, FailedAt, Grew, GrewAt, HasSpares, Went};

use crate::entries::{Entries, Entry, FANOUT, MOST};
use crate::leaf::{Change, Edit, Leaf};
use crate::node::{Kids, Node};
use crate::outcome::{Halves, Outcome};
use crate::settle::{settle_leaves, settle_nodes};
use crate::slots::no_slots;
use std::alloc::{AllocError, Global};

impl<L: Leaf> Node<L> {
    /// Creates a node without children.
    fn empty() -> Node<L> {
        Node {
            entries: Entries::empty(),
            kids: Kids::Leaves(no_slots()),
        }
    }

    /// Proof: a node with children is higher than a leaf.
    #[tactic(auto, using(crate::proofs::Unders::under_high, crate::proofs::Unders::under_some))]
    pub(crate) fn facts(&self)
        ensures high { 0 < kids self.now → 2 ≤ self.now.height }
        ensures some { 0 < kids self.now → 0 < length self.now.leaves }
    {
        let _len = self.entries.len();
    }
}

/// Allocates spare nodes until there are `n`.
#[inline(never)]
pub fn reserve_nodes<L: Leaf>(
    spares: &mut Vec<Box<Node<L>>>,
    n: usize,
    alloc: Global,
) -> Result<(), AllocError>
    ensures enough { OnOk result (n ≤ length spares.new.items) }
    ensures few { OnErr result (length spares.old.items < n) }
{
    while spares.len() < n {
        spares.push(Box::new(alloc, Node::empty())?)?;
    }
    Ok(())
}

/// Splits a leaf that has no room for its change. Before the change there are `full` nodes in `spares`.
#[inline(never)]
fn split_leaf<L: Leaf, E: Edit<L>>(
    leaf: &mut L,
    edit: &mut E,
    full: usize,
    spares: &mut Vec<Box<Node<L>>>,
    alloc: Global,
) -> Result<Halves<L>, AllocError>
    requires { E.can_split edit.old leaf.old }
    ensures split { (key : ℕ) → IfOk result (λ h. IsSplit L.entry L.enough (AtKey L.entry key) (λ l. E.refuses edit.old l edit.new) (λ l ls. E.edits edit.old l edit.new ls) h.low h.high (leaf_of leaf.old) (leaf_of leaf.new) (leaf_tree h.upper)) }
    ensures spares { OnOk result (full ≤ length spares.new.items) }
    ensures unchanged { OnErr result ((leaf.new ≡ leaf.old) × (edit.new ≡ edit.old)) }
    ensures lacks { full ≤ length spares.old.items → OnErr result (E.lacks edit.old leaf.old) }
{
    reserve_nodes(spares, full, alloc)?;
    let upper = edit.split(leaf, alloc)?;
    let low = leaf.entry();
    let high = upper.entry();
    Ok(Halves { low, high, upper })
}

/// Changes a leaf. It is split if it has no room: then `full` nodes are allocated before the change.
#[inline(always)]
pub(crate) fn edit_leaf<L: Leaf, E: Edit<L>>(
    leaf: &mut L,
    was: Entry,
    edit: &mut E,
    full: usize,
    spares: &mut Vec<Box<Node<L>>>,
    alloc: Global,
) -> Result<Outcome<L>, AllocError>
    requires can { E.can_change edit.old leaf.old }
    requires was { was ≡ L.entry leaf.old }
    ensures grew { (key : ℕ) → IfOk result (λ o. Grew L.entry L.enough (AtKey L.entry key) (λ l. E.refuses edit.old l edit.new) (λ l ls. E.edits edit.old l edit.new ls) leaf_tree (leaf_of leaf.old) (leaf_of leaf.new) o) }
    ensures spares { IfOk result (λ o. HasSpares full (length spares.new.items) o) }
    ensures unchanged { OnErr result ((leaf.new ≡ leaf.old) × (edit.new ≡ edit.old)) }
    ensures failed { (key : ℕ) → OnErr result (IsKept L.entry L.enough (AtKey L.entry key) (λ l. E.needs_memory edit.old l) (λ l ls. E.edits edit.old l edit.new ls) (leaf_of leaf.old) (leaf_of leaf.new)) }
    ensures spare { (key : ℕ) → full ≤ length spares.old.items → OnErr result (IsKept L.entry L.enough (AtKey L.entry key) (λ l. E.lacks edit.old l) (λ l ls. E.edits edit.old l edit.new ls) (leaf_of leaf.old) (leaf_of leaf.new)) }
{
    match edit.change(leaf, was) {
        Change::Refused => Ok(Outcome::Refused),
        Change::Same => Ok(Outcome::Same),
        Change::Changed => Ok(Outcome::Changed(leaf.entry())),
        Change::OutOfMemory => Err(AllocError),
        Change::Full => Ok(Outcome::Split(split_leaf(leaf, edit, full, spares, alloc)?)),
    }
}

/// Changes a leaf that is a root, beside which no entry is stored.
#[inline(always)]
pub(crate) fn edit_root<L: Leaf, E: Edit<L>>(
    leaf: &mut L,
    edit: &mut E,
    spares: &mut Vec<Box<Node<L>>>,
    alloc: Global,
) -> Result<Outcome<L>, AllocError>
    requires { E.can_change edit.old leaf.old }
    ensures went { (key : ℕ) → IfOk result (λ o. Went L.entry L.enough (AtKey L.entry key) (λ l. E.refuses edit.old l edit.new) (λ l ls. E.edits edit.old l edit.new ls) leaf_tree (leaf_of leaf.old) (leaf_of leaf.new) o) }
    ensures spares { IfOk result (λ o. HasSpares 1 (length spares.new.items) o) }
    ensures unchanged { OnErr result ((leaf.new ≡ leaf.old) × (edit.new ≡ edit.old)) }
    ensures failed { (key : ℕ) → OnErr result (IsKept L.entry L.enough (AtKey L.entry key) (λ l. E.needs_memory edit.old l) (λ l ls. E.edits edit.old l edit.new ls) (leaf_of leaf.old) (leaf_of leaf.new)) }
    ensures spare { (key : ℕ) → 1 ≤ length spares.old.items → OnErr result (IsKept L.entry L.enough (AtKey L.entry key) (λ l. E.lacks edit.old l) (λ l ls. E.edits edit.old l edit.new ls) (leaf_of leaf.old) (leaf_of leaf.new)) }
{
    match edit.change(leaf, MOST) {
        Change::Refused => Ok(Outcome::Refused),
        Change::Same => Ok(Outcome::Same),
        Change::Changed => Ok(Outcome::Same),
        Change::OutOfMemory => Err(AllocError),
        Change::Full => Ok(Outcome::Split(split_leaf(leaf, edit, 1, spares, alloc)?)),
    }
}

/// Changes the child `i`, a leaf.
#[tactic(auto, using(crate::proofs::Dense::not_empty, crate::proofs::Dense::rewritten_dense))]
#[inline(always)]
fn edit_leaf_at<L: Leaf, E: Edit<L>>(
    slots: &mut [Option<Box<L>>; FANOUT],
    i: usize,
    was: Entry,
    edit: &mut E,
    full: usize,
    spares: &mut Vec<Box<Node<L>>>,
    alloc: Global,
    count: &mut u64,
) -> Result<Outcome<L>, AllocError>
    requires dense { IsDense slots.old }
    requires within { i < length (held slots.old) }
    requires can { (l : L) → HasKid slots.old i l → E.can_change edit.old l }
    requires was { (l : L) → HasKid slots.old i l → was ≡ L.entry l }
    ensures dense { IsDense slots.new }
    ensures grew { (key : ℕ) → IfOk result (λ o. GrewAt L.entry L.enough (AtKey L.entry key) (λ l. E.refuses edit.old l edit.new) (λ l ls. E.edits edit.old l edit.new ls) leaf_tree i (map leaf_tree (held slots.old)) (map leaf_tree (held slots.new)) o) }
    ensures spares { IfOk result (λ o. HasSpares full (length spares.new.items) o) }
    ensures unchanged { OnErr result ((map leaf_tree (held slots.new) ≡ map leaf_tree (held slots.old)) × (edit.new ≡ edit.old)) }
    ensures failed { (key : ℕ) → OnErr result (FailedAt L.entry L.enough (AtKey L.entry key) (λ l. E.needs_memory edit.old l) (λ l ls. E.edits edit.old l edit.new ls) leaf_tree i (map leaf_tree (held slots.old)) (map leaf_tree (held slots.new))) }
    ensures spare { (key : ℕ) → full ≤ length spares.old.items → OnErr result (FailedAt L.entry L.enough (AtKey L.entry key) (λ l. E.lacks edit.old l) (λ l ls. E.edits edit.old l edit.new ls) leaf_tree i (map leaf_tree (held slots.old)) (map leaf_tree (held slots.new))) }
    ensures count { IsCounted count.old count.new 1 }
{
    match &mut slots[i] {
        Some(kid) => {
            let leaf: &mut L = kid;
            *count = count.saturating_add(1);
            edit_leaf(leaf, was, edit, full, spares, alloc)
        }
        None => unreachable!(),
    }
}

/// Returns the number of nodes to be allocated if a child of a node is split: one more if the node is full.
#[inline(always)]
pub(crate) fn full_with(len: usize, full: usize) -> usize
    ensures some { 16 ≤ len → 1 ≤ result }
    ensures more { 16 ≤ len → result < 18446744073709551615 → result ≡ full + 1 }
    ensures most { result ≤ full + 1 }
{
    if len < FANOUT {
        0
    } else {
        full.saturating_add(1)
    }
}

/// Changes the child `i` of a node, a leaf.
#[inline(always)]
fn edit_leaves<L: Leaf, E: Edit<L>>(
    entries: &mut Entries,
    slots: &mut [Option<Box<L>>; FANOUT],
    i: usize,
    key: u64,
    edit: &mut E,
    full: usize,
    spares: &mut Vec<Box<Node<L>>>,
    alloc: Global,
    count: &mut u64,
) -> Result<Outcome<Node<L>>, AllocError>
    requires over { IsOver L.entry L.enough 0 leaf_tree entries.old slots.old }
    requires within { i < length entries.old }
    requires from { 0 < i → (nth entries.old i).at ≤ key }
    requires upto { i + 1 < length entries.old → key < (nth entries.old (i + 1)).at }
    requires can { (l : L) → IsLeafOf L.entry key (leaves_of (map leaf_tree (held slots.old))) l → E.can_change edit.old l }
    ensures over { IsOver L.entry L.enough 0 leaf_tree entries.new slots.new }
    ensures grew { IfOk result (λ o. Grew L.entry L.enough (AtKey L.entry key) (λ l. E.refuses edit.old l edit.new) (λ l ls. E.edits edit.old l edit.new ls) node_tree (over (map leaf_tree (held slots.old))) (over (map leaf_tree (held slots.new))) o) }
    ensures spares { IfOk result (λ o. HasSpares full (length spares.new.items) o) }
    ensures unchanged { OnErr result ((map leaf_tree (held slots.new) ≡ map leaf_tree (held slots.old)) × (edit.new ≡ edit.old)) }
    ensures failed { OnErr result (IsKept L.entry L.enough (AtKey L.entry key) (λ l. E.needs_memory edit.old l) (λ l ls. E.edits edit.old l edit.new ls) (over (map leaf_tree (held slots.old))) (over (map leaf_tree (held slots.new)))) }
    ensures spare { full + 1 ≤ length spares.old.items → OnErr result (IsKept L.entry L.enough (AtKey L.entry key) (λ l. E.lacks edit.old l) (λ l ls. E.edits edit.old l edit.new ls) (over (map leaf_tree (held slots.old))) (over (map leaf_tree (held slots.new)))) }
    ensures count { IsCounted count.old count.new 1 }
{
    let full = full_with(entries.len(), full);
    let was = entries.entry(i);
    let outcome = edit_leaf_at(slots, i, was, edit, full, spares, alloc, count)?;
    Ok(settle_leaves(entries, slots, i, outcome, spares))
}

/// Changes the child `i`, a node.
#[cycle(edit)]
#[tactic(auto, using(crate::proofs::Dense::not_empty, crate::proofs::Dense::rewritten_dense))]
#[inline(always)]
fn edit_node_at<L: Leaf, E: Edit<L>>(
    slots: &mut [Option<Box<Node<L>>>; FANOUT],
    i: usize,
    key: u64,
    edit: &mut E,
    full: usize,
    spares: &mut Vec<Box<Node<L>>>,
    alloc: Global,
    count: &mut u64,
) -> Result<Outcome<Node<L>>, AllocError>
    requires dense { IsDense slots.old }
    requires within { i < length (held slots.old) }
    requires some { 0 < kids (nth_tree (map node_tree (held slots.old)) i) }
    requires ascend { Ascend L.entry (nth_tree (map node_tree (held slots.old)) i).leaves }
    requires can { (l : L) → IsLeafOf L.entry key (nth_tree (map node_tree (held slots.old)) i).leaves l → E.can_change edit.old l }
    ensures dense { IsDense slots.new }
    ensures grew { IfOk result (λ o. GrewAt L.entry L.enough (AtKey L.entry key) (λ l. E.refuses edit.old l edit.new) (λ l ls. E.edits edit.old l edit.new ls) node_tree i (map node_tree (held slots.old)) (map node_tree (held slots.new)) o) }
    ensures spares { IfOk result (λ o. HasSpares full (length spares.new.items) o) }
    ensures unchanged { OnErr result ((map node_tree (held slots.new) ≡ map node_tree (held slots.old)) × (edit.new ≡ edit.old)) }
    ensures failed { OnErr result (FailedAt L.entry L.enough (AtKey L.entry key) (λ l. E.needs_memory edit.old l) (λ l ls. E.edits edit.old l edit.new ls) node_tree i (map node_tree (held slots.old)) (map node_tree (held slots.new))) }
    ensures spare { full + (nth_tree (map node_tree (held slots.old)) i).height ≤ length spares.old.items + 1 → OnErr result (FailedAt L.entry L.enough (AtKey L.entry key) (λ l. E.lacks edit.old l) (λ l ls. E.edits edit.old l edit.new ls) node_tree i (map node_tree (held slots.old)) (map node_tree (held slots.new))) }
    ensures count { IsCounted count.old count.new ((nth_tree (map node_tree (held slots.old)) i).height) }
{
    match &mut slots[i] {
        Some(kid) => {
            let kid: &mut Node<L> = kid;
            edit_at(kid, key, edit, full, spares, alloc, count)
        }
        None => unreachable!(),
    }
}

/// Changes the child `i` of a node, a node.
#[cycle(edit)]
#[inline(always)]
fn edit_nodes<L: Leaf, E: Edit<L>>(
    entries: &mut Entries,
    slots: &mut [Option<Box<Node<L>>>; FANOUT],
    i: usize,
    key: u64,
    edit: &mut E,
    full: usize,
    spares: &mut Vec<Box<Node<L>>>,
    alloc: Global,
    count: &mut u64,
) -> Result<Outcome<Node<L>>, AllocError>
    requires over { IsOver L.entry L.enough 2 node_tree entries.old slots.old }
    requires within { i < length entries.old }
    requires from { 0 < i → (nth entries.old i).at ≤ key }
    requires upto { i + 1 < length entries.old → key < (nth entries.old (i + 1)).at }
    requires ascend { Ascend L.entry (leaves_of (map node_tree (held slots.old))) }
    requires can { (l : L) → IsLeafOf L.entry key (leaves_of (map node_tree (held slots.old))) l → E.can_change edit.old l }
    ensures over { IsOver L.entry L.enough 2 node_tree entries.new slots.new }
    ensures grew { IfOk result (λ o. Grew L.entry L.enough (AtKey L.entry key) (λ l. E.refuses edit.old l edit.new) (λ l ls. E.edits edit.old l edit.new ls) node_tree (over (map node_tree (held slots.old))) (over (map node_tree (held slots.new))) o) }
    ensures spares { IfOk result (λ o. HasSpares full (length spares.new.items) o) }
    ensures unchanged { OnErr result ((map node_tree (held slots.new) ≡ map node_tree (held slots.old)) × (edit.new ≡ edit.old)) }
    ensures failed { OnErr result (IsKept L.entry L.enough (AtKey L.entry key) (λ l. E.needs_memory edit.old l) (λ l ls. E.edits edit.old l edit.new ls) (over (map node_tree (held slots.old))) (over (map node_tree (held slots.new)))) }
    ensures spare { full + front (map node_tree (held slots.old)) ≤ length spares.old.items → OnErr result (IsKept L.entry L.enough (AtKey L.entry key) (λ l. E.lacks edit.old l) (λ l ls. E.edits edit.old l edit.new ls) (over (map node_tree (held slots.old))) (over (map node_tree (held slots.new)))) }
    ensures count { IsCounted count.old count.new (front (map node_tree (held slots.old))) }
{
    let full = full_with(entries.len(), full);
    let outcome = edit_node_at(slots, i, key, edit, full, spares, alloc, count)?;
    Ok(settle_nodes(entries, slots, i, outcome, spares))
}

/// Changes the leaf to which a key belongs, below a node. If the node is split, then its upper half is
/// returned, and there are `full` nodes in `spares`. An error changes nothing.
#[cycle(edit)]
pub(crate) fn edit_at<L: Leaf, E: Edit<L>>(
    node: &mut Node<L>,
    key: u64,
    edit: &mut E,
    full: usize,
    spares: &mut Vec<Box<Node<L>>>,
    alloc: Global,
    count: &mut u64,
) -> Result<Outcome<Node<L>>, AllocError>
    requires some { 0 < kids node.old }
    requires ascend { Ascend L.entry node.old.leaves }
    requires can { (l : L) → IsLeafOf L.entry key node.old.leaves l → E.can_change edit.old l }
    ensures grew { IfOk result (λ o. Grew L.entry L.enough (AtKey L.entry key) (λ l. E.refuses edit.old l edit.new) (λ l ls. E.edits edit.old l edit.new ls) node_tree node.old node.new o) }
    ensures spares { IfOk result (λ o. HasSpares full (length spares.new.items) o) }
    ensures unchanged { OnErr result ((node.new ≡ node.old) × (edit.new ≡ edit.old)) }
    ensures failed { OnErr result (IsKept L.entry L.enough (AtKey L.entry key) (λ l. E.needs_memory edit.old l) (λ l ls. E.edits edit.old l edit.new ls) node.old node.new) }
    ensures spare { full + node.old.height ≤ length spares.old.items + 1 → OnErr result (IsKept L.entry L.enough (AtKey L.entry key) (λ l. E.lacks edit.old l) (λ l ls. E.edits edit.old l edit.new ls) node.old node.new) }
    ensures count { IsCounted count.old count.new node.old.height }
{
    *count = count.saturating_add(1);
    let i = node.entries.index_of(key);
    match &mut node.kids {
        Kids::Leaves(slots) => edit_leaves(
            &mut node.entries,
            slots,
            i,
            key,
            edit,
            full,
            spares,
            alloc,
            count,
        ),
        Kids::Nodes(slots) => edit_nodes(
            &mut node.entries,
            slots,
            i,
            key,
            edit,
            full,
            spares,
            alloc,
            count,
        ),
    }
}
