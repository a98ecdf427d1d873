//! A change of one leaf that leaves it fewer items, and what it changes above it.
ghost use Rattle.std.specs.Prelude.{◌≡◌, ◌+◌, ◌*◌, ◌<◌, ◌≤◌, ◌∷◌, [], List, length, map, set, ℕ, ◌⊎◌};
ghost use Rattle.vm_tree.specs.Rows.{nth, beginning_at};
ghost use Rattle.vm_tree.specs.Subtree.{leaf_of, entry_of, nth_tree, kids, over, leaves_of, front, Ascend};
ghost use Rattle.vm_tree.specs.Sought.{IsCounted};
ghost use Rattle.vm_tree.specs.Over.{IsOver};
ghost use Rattle.vm_tree.specs.Slots.{held, IsDense};
ghost use Rattle.vm_tree.specs.Nodes.{leaf_tree, node_tree};
ghost use Rattle.vm_tree.specs.Mends.{NoJoin};
ghost use Rattle.vm_tree.specs.Shrinks.{Shrank, ShrankAt, ShrankNode, MeetsAfter, IsSmallOrFull, IsQuiet, IsShrunkOf, JoinsIf, HasBegun};
ghost use Rattle.vm_tree.specs.Lowers.{IsRootCut};
ghost use Rattle.vm_tree.specs.Found.{HasKid};
ghost use Rattle.vm_tree.specs.Entry.{Entry};

use crate::entries::{Entries, Entry, FANOUT, MIN_CHILDREN, MOST};
use crate::leaf::Leaf;
use crate::mend::{mend_leaves, mend_nodes};
use crate::node::{Kids, Node};

/// The result of a change of a leaf.
pub enum Cutting {
    /// It refused, and the leaf is as before.
    Refused,
    /// It changed the leaf, but not what is stored beside it.
    Same,
    /// It changed the leaf, which has this entry now.
    Changed(Entry),
    /// It changed the leaf, which has this entry now, and may have too few items.
    Small(Entry),
}

/// A change of one leaf that leaves it fewer items.
pub trait Cut<L: Leaf> {
    ghost refuses: { Self → L → Self → Type 0 };

    ghost edits: { Self → L → Self → List L → Type 0 };

    ghost shrinks: { Self → Type 0 };

    /// Changes a leaf, beside which `was` is stored. If the leaf is a root, then `was` is not its entry, and the result
    /// does not tell the entry.
    fn cut(&mut self, leaf: &mut L, was: Entry) -> Cutting
        ensures refused { result ≡ Cutting.Refused → (leaf.new ≡ leaf.old) × refuses self.old leaf.old self.new }
        ensures same { result ≡ Cutting.Same → (was ≡ L.entry leaf.old → L.entry leaf.new ≡ L.entry leaf.old) × edits self.old leaf.old self.new (leaf.new ∷ []) × (L.enough leaf.old → L.enough leaf.new) }
        ensures changed { (e : Entry) → result ≡ Cutting.Changed e → (was ≡ L.entry leaf.old → e ≡ L.entry leaf.new) × edits self.old leaf.old self.new (leaf.new ∷ []) × (L.enough leaf.old → L.enough leaf.new) }
        ensures small { (e : Entry) → result ≡ Cutting.Small e → (was ≡ L.entry leaf.old → e ≡ L.entry leaf.new) × edits self.old leaf.old self.new (leaf.new ∷ []) × shrinks self.old };
}

/// The result of a change of a child.
#[derive(Clone, Copy, Drop)]
pub(crate) enum Shrunk {
    /// The leaf refused. Nothing was changed.
    Refused,
    /// The entry of the child is as before.
    Same,
    /// The child begins at this address now. The rest of its entry is as before.
    Begins(u64),
    /// The child has this entry now.
    Changed(Entry),
    /// The child has this entry now, and may be too small.
    Small(Entry),
}

/// The result of a change of a node. Its entry is computed only for a node above it.
#[derive(Clone, Copy, Drop)]
pub(crate) enum ShrunkNode {
    /// The leaf refused. Nothing was changed.
    Refused,
    /// The entry of the node is as before.
    Same,
    /// The node begins at this address now. The rest of its entry is as before.
    Begins(u64),
    /// The node has another entry now.
    Changed,
    /// The node has this entry now, and may be too small.
    Small(Entry),
}

/// Changes a leaf.
#[inline(always)]
pub(crate) fn cut_leaf<L: Leaf, E: Cut<L>>(leaf: &mut L, was: Entry, edit: &mut E) -> Shrunk
    requires { was ≡ L.entry leaf.old }
    ensures shrank { (key : ℕ) → Shrank L.entry L.enough NoJoin key (λ l. E.refuses edit.old l edit.new) (λ l ls. E.edits edit.old l edit.new ls) (leaf_of leaf.old) (leaf_of leaf.new) result }
    ensures may { (e : Entry) → result ≡ Shrunk.Small e → E.shrinks edit.old }
{
    match edit.cut(leaf, was) {
        Cutting::Refused => Shrunk::Refused,
        Cutting::Same => Shrunk::Same,
        Cutting::Changed(entry) => Shrunk::Changed(entry),
        Cutting::Small(entry) => Shrunk::Small(entry),
    }
}

/// Changes a leaf that is a root. Returns false if it refused, and nothing was changed.
#[inline(always)]
pub(crate) fn cut_root<L: Leaf, E: Cut<L>>(leaf: &mut L, edit: &mut E) -> bool
    ensures { (key : ℕ) → IsRootCut L.entry L.enough NoJoin key (λ l. E.refuses edit.old l edit.new) (λ l ls. E.edits edit.old l edit.new ls) (leaf_of leaf.old) (leaf_of leaf.new) result }
{
    match edit.cut(leaf, MOST) {
        Cutting::Refused => false,
        Cutting::Same => true,
        Cutting::Changed(_) => true,
        Cutting::Small(_) => true,
    }
}

/// Returns `Same` if the entry of a child is as before, and `Begins` if only its first address is not.
#[inline(always)]
fn quiet(outcome: Shrunk, was: Entry) -> Shrunk
    ensures { IsQuiet was outcome result }
{
    match outcome {
        Shrunk::Refused => Shrunk::Refused,
        Shrunk::Same => Shrunk::Same,
        Shrunk::Begins(at) => Shrunk::Begins(at),
        Shrunk::Changed(entry) => {
            if entry.longest != was.longest || entry.alignments != was.alignments {
                return Shrunk::Changed(entry);
            }
            if entry.at != was.at {
                return Shrunk::Begins(entry.at);
            }
            Shrunk::Same
        }
        Shrunk::Small(entry) => Shrunk::Small(entry),
    }
}

/// Changes the child `i`, a leaf.
#[tactic(auto, using(crate::proofs::Dense::not_empty, crate::proofs::Dense::rewritten_dense))]
#[inline(always)]
fn cut_leaf_at<L: Leaf, E: Cut<L>>(
    slots: &mut [Option<Box<L>>; FANOUT],
    i: usize,
    was: Entry,
    edit: &mut E,
    count: &mut u64,
) -> Shrunk
    requires dense { IsDense slots.old }
    requires within { i < length (held slots.old) }
    requires was { (l : L) → HasKid slots.old i l → was ≡ L.entry l }
    ensures dense { IsDense slots.new }
    ensures shrank { (key : ℕ) → ShrankAt L.entry L.enough NoJoin key (λ l. E.refuses edit.old l edit.new) (λ l ls. E.edits edit.old l edit.new ls) i (map leaf_tree (held slots.old)) (map leaf_tree (held slots.new)) result }
    ensures may { (e : Entry) → result ≡ Shrunk.Small e → E.shrinks edit.old }
    ensures count { IsCounted count.old count.new 1 }
{
    match &mut slots[i] {
        Some(kid) => {
            let leaf: &mut L = kid;
            *count = count.saturating_add(1);
            let outcome = cut_leaf(leaf, was, edit);
            quiet(outcome, was)
        }
        None => unreachable!(),
    }
}

/// Returns the first of the two neighbours that child `i` is joined with: that below it, if there is one.
fn neighbour(i: usize) -> usize
    ensures beside { (result ≡ i) ⊎ (result + 1 ≡ i) }
    ensures within { (n : ℕ) → 2 ≤ n → i < n → result + 1 < n }
{
    if i > 0 { i - 1 } else { 0 }
}

/// Writes the first address of the child `i`. The node begins there if the child is its first one.
#[inline(always)]
fn begin_at(entries: &mut Entries, i: usize, at: u64) -> ShrunkNode
    requires { i < length entries.old }
    ensures entries { entries.new ≡ set entries.old i (beginning_at at (nth entries.old i)) }
    ensures begun { HasBegun i at result }
{
    entries.set_at(i, at);
    if i > 0 {
        return ShrunkNode::Same;
    }
    ShrunkNode::Begins(at)
}

/// Returns the result for a node that has these entries.
fn small_of(entries: &Entries) -> ShrunkNode
    requires { 0 < length entries.now }
    ensures { IsSmallOrFull entries.now result }
{
    if entries.len() < MIN_CHILDREN {
        return ShrunkNode::Small(entries.sum());
    }
    ShrunkNode::Changed
}

/// Changes the child `i` of a node, a leaf.
#[inline(always)]
fn cut_leaves<L: Leaf, E: Cut<L>>(
    entries: &mut Entries,
    slots: &mut [Option<Box<L>>; FANOUT],
    i: usize,
    key: u64,
    edit: &mut E,
    count: &mut u64,
) -> ShrunkNode
    requires over { IsOver L.entry L.enough 0 leaf_tree entries.old slots.old }
    requires within { i < length entries.old }
    requires some { 2 ≤ length entries.old }
    requires from { 0 < i → (nth entries.old i).at ≤ key }
    requires upto { i + 1 < length entries.old → key < (nth entries.old (i + 1)).at }
    requires meet { E.shrinks edit.old → MeetsAfter L.entry L.meets key (λ l ls. (e : E) × E.edits edit.old l e ls) (leaves_of (map leaf_tree (held slots.old))) }
    ensures over { IsOver L.entry L.enough 0 leaf_tree entries.new slots.new }
    ensures shrank { ShrankNode L.entry L.enough (JoinsIf (E.shrinks edit.old) L.joins) key (λ l. E.refuses edit.old l edit.new) (λ l ls. E.edits edit.old l edit.new ls) (over (map leaf_tree (held slots.old))) (over (map leaf_tree (held slots.new))) result }
    ensures count { IsCounted count.old count.new 1 }
{
    let was = entries.entry(i);
    match cut_leaf_at(slots, i, was, edit, count) {
        Shrunk::Refused => ShrunkNode::Refused,
        Shrunk::Same => ShrunkNode::Same,
        Shrunk::Begins(at) => begin_at(entries, i, at),
        Shrunk::Changed(entry) => {
            entries.set_entry(i, entry);
            ShrunkNode::Changed
        }
        Shrunk::Small(entry) => {
            entries.set_entry(i, entry);
            mend_leaves(entries, slots, neighbour(i));
            small_of(entries)
        }
    }
}

/// Returns the result of a change of a child that is a node, beside which `was` is stored.
#[inline(always)]
fn shrunk_of<L: Leaf>(kid: &Node<L>, outcome: ShrunkNode, was: Entry) -> Shrunk
    requires { outcome ≡ ShrunkNode.Changed → 0 < kids kid.now }
    ensures { IsShrunkOf (entry_of L.entry kid.now) was outcome result }
{
    match outcome {
        ShrunkNode::Refused => Shrunk::Refused,
        ShrunkNode::Same => Shrunk::Same,
        ShrunkNode::Begins(at) => Shrunk::Begins(at),
        ShrunkNode::Changed => quiet(Shrunk::Changed(kid.entry()), was),
        ShrunkNode::Small(entry) => Shrunk::Small(entry),
    }
}

/// Changes the child `i`, a node.
#[cycle(cut)]
#[tactic(auto, using(crate::proofs::Dense::not_empty, crate::proofs::Dense::rewritten_dense))]
#[inline(always)]
fn cut_node_at<L: Leaf, E: Cut<L>>(
    slots: &mut [Option<Box<Node<L>>>; FANOUT],
    i: usize,
    was: Entry,
    key: u64,
    edit: &mut E,
    count: &mut u64,
) -> Shrunk
    requires dense { IsDense slots.old }
    requires within { i < length (held slots.old) }
    requires some { 2 ≤ kids (nth_tree (map node_tree (held slots.old)) i) }
    requires ascend { Ascend L.entry (nth_tree (map node_tree (held slots.old)) i).leaves }
    requires meet { E.shrinks edit.old → MeetsAfter L.entry L.meets key (λ l ls. (e : E) × E.edits edit.old l e ls) (nth_tree (map node_tree (held slots.old)) i).leaves }
    requires was { was ≡ entry_of L.entry (nth_tree (map node_tree (held slots.old)) i) }
    ensures dense { IsDense slots.new }
    ensures shrank { ShrankAt L.entry L.enough (JoinsIf (E.shrinks edit.old) L.joins) key (λ l. E.refuses edit.old l edit.new) (λ l ls. E.edits edit.old l edit.new ls) i (map node_tree (held slots.old)) (map node_tree (held slots.new)) result }
    ensures count { IsCounted count.old count.new ((nth_tree (map node_tree (held slots.old)) i).height) }
{
    match &mut slots[i] {
        Some(kid) => {
            let kid: &mut Node<L> = kid;
            let outcome = cut_at(kid, key, edit, count);
            shrunk_of(kid, outcome, was)
        }
        None => unreachable!(),
    }
}

/// Changes the child `i` of a node, a node.
#[cycle(cut)]
#[inline(always)]
fn cut_nodes<L: Leaf, E: Cut<L>>(
    entries: &mut Entries,
    slots: &mut [Option<Box<Node<L>>>; FANOUT],
    i: usize,
    key: u64,
    edit: &mut E,
    count: &mut u64,
) -> ShrunkNode
    requires over { IsOver L.entry L.enough 2 node_tree entries.old slots.old }
    requires within { i < length entries.old }
    requires some { 2 ≤ length entries.old }
    requires from { 0 < i → (nth entries.old i).at ≤ key }
    requires upto { i + 1 < length entries.old → key < (nth entries.old (i + 1)).at }
    requires ascend { Ascend L.entry (leaves_of (map node_tree (held slots.old))) }
    requires meet { E.shrinks edit.old → MeetsAfter L.entry L.meets key (λ l ls. (e : E) × E.edits edit.old l e ls) (leaves_of (map node_tree (held slots.old))) }
    ensures over { IsOver L.entry L.enough 2 node_tree entries.new slots.new }
    ensures shrank { ShrankNode L.entry L.enough (JoinsIf (E.shrinks edit.old) L.joins) key (λ l. E.refuses edit.old l edit.new) (λ l ls. E.edits edit.old l edit.new ls) (over (map node_tree (held slots.old))) (over (map node_tree (held slots.new))) result }
    ensures count { IsCounted count.old count.new (front (map node_tree (held slots.old))) }
{
    let was = entries.entry(i);
    match cut_node_at(slots, i, was, key, edit, count) {
        Shrunk::Refused => ShrunkNode::Refused,
        Shrunk::Same => ShrunkNode::Same,
        Shrunk::Begins(at) => begin_at(entries, i, at),
        Shrunk::Changed(entry) => {
            entries.set_entry(i, entry);
            ShrunkNode::Changed
        }
        Shrunk::Small(entry) => {
            entries.set_entry(i, entry);
            mend_nodes(entries, slots, neighbour(i));
            small_of(entries)
        }
    }
}

/// Changes the leaf to which a key belongs, below a node with at least two children. Children that become too
/// small are joined with a neighbour.
#[cycle(cut)]
pub(crate) fn cut_at<L: Leaf, E: Cut<L>>(
    node: &mut Node<L>,
    key: u64,
    edit: &mut E,
    count: &mut u64,
) -> ShrunkNode
    requires some { 2 ≤ kids node.old }
    requires ascend { Ascend L.entry node.old.leaves }
    requires meet { E.shrinks edit.old → MeetsAfter L.entry L.meets key (λ l ls. (e : E) × E.edits edit.old l e ls) node.old.leaves }
    ensures shrank { ShrankNode L.entry L.enough (JoinsIf (E.shrinks edit.old) L.joins) key (λ l. E.refuses edit.old l edit.new) (λ l ls. E.edits edit.old l edit.new ls) node.old node.new result }
    ensures count { IsCounted count.old count.new node.old.height }
{
    *count = count.saturating_add(1);
    let i = node.entries.index_of(key);
    match &mut node.kids {
        Kids::Leaves(slots) => cut_leaves(&mut node.entries, slots, i, key, edit, count),
        Kids::Nodes(slots) => cut_nodes(&mut node.entries, slots, i, key, edit, count),
    }
}
