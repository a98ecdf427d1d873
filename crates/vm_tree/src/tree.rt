//! A tree.
ghost use Rattle.std.specs.Prelude.{◌≡◌, ◌+◌, ◌<◌, ◌≤◌, ◌∷◌, [], length, true, false, IfOk, IfSome, IfNone, OnErr};
ghost use Rattle.vm_tree.specs.Subtree.{leaf_of, over, kids, Ascend, no_tree};
ghost use Rattle.vm_tree.specs.Over.{IsOver};
ghost use Rattle.vm_tree.specs.Slots.{held, IsDense};
ghost use Rattle.vm_tree.specs.Nodes.{leaf_tree, node_tree};
ghost use Rattle.vm_tree.specs.Sought.{IsCounted};
ghost use Rattle.vm_tree.specs.Roots.{root_tree, IsRoot};
ghost use Rattle.vm_tree.specs.Found.{IsLeafOf};
ghost use Rattle.vm_tree.specs.Edits.{IsRefused};
ghost use Rattle.vm_tree.specs.Raised.{raised, HasChanged, CanRaise, IsTreeAfter};

use crate::edit::{edit_at, edit_root};
use crate::entries::{Entries, Entry, FANOUT};
use crate::find::find_at;
use crate::leaf::{Edit, Leaf};
use crate::node::{Kids, Node};
use crate::outcome::{Halves, Outcome};
use crate::slots::{insert_slot, no_slots};
use std::alloc::{AllocError, Global};
use std::marker::Model;
use std::mem;

/// The root of a tree.
#[derive(Drop)]
pub(crate) enum Root<L: Leaf> {
    Empty,
    Leaf(Box<L>),
    Inner(Box<Node<L>>),
}

/// A tree.
#[derive(Drop)]
pub struct Tree<L: Leaf> {
    pub(crate) root: Root<L>,
}

impl<L: Leaf> Model for Tree<L> {
    ghost use Rattle.vm_tree.specs.Subtree.{Subtree};

    ghost Value = { Subtree L };

    ghost use Rattle.vm_tree.specs.Roots.{tree_of, IsTree};

    ghost view = { tree_of };

    ghost invariant = { IsTree };
}

/// Creates the entries of two children.
fn two_entries(low: Entry, high: Entry) -> Entries
    ensures { result ≡ low ∷ high ∷ [] }
{
    let mut entries = Entries::empty();
    entries.insert(0, low);
    entries.insert(1, high);
    entries
}

/// Creates slots with two children.
fn two_slots<C: Drop>(low: Box<C>, high: Box<C>) -> [Option<Box<C>>; FANOUT]
    ensures held { held result ≡ low ∷ high ∷ [] }
    ensures dense { IsDense result }
{
    let mut slots = no_slots();
    insert_slot(&mut slots, 0, 0, low);
    insert_slot(&mut slots, 1, 1, high);
    slots
}

/// Returns true if a change was made.
pub(crate) fn has_changed<C>(outcome: &Outcome<C>) -> bool
    ensures { result ≡ HasChanged outcome.now }
{
    match outcome {
        Outcome::Refused => false,
        Outcome::Same => true,
        Outcome::Changed(_) => true,
        Outcome::Split(_) => true,
    }
}

/// Makes a root of a leaf, or of its halves.
pub(crate) fn leaf_root<L: Leaf>(
    leaf: Box<L>,
    outcome: Outcome<L>,
    spares: &mut Vec<Box<Node<L>>>,
) -> Root<L>
    requires { CanRaise L.entry L.enough 0 leaf_tree (leaf_of leaf.value) (length spares.old.items) outcome }
    ensures tree { root_tree result ≡ raised leaf_tree (leaf_of leaf.value) outcome }
    ensures root { IsRoot result }
{
    match outcome {
        Outcome::Refused => Root::Leaf(leaf),
        Outcome::Same => Root::Leaf(leaf),
        Outcome::Changed(_) => Root::Leaf(leaf),
        Outcome::Split(halves) => {
            let Halves { low, high, upper } = halves;
            let Some(mut top) = spares.pop() else {
                unreachable!()
            };
            *top = Node {
                entries: two_entries(low, high),
                kids: Kids::Leaves(two_slots(leaf, upper)),
            };
            Root::Inner(top)
        }
    }
}

/// Makes a root of a node, or of its halves.
pub(crate) fn node_root<L: Leaf>(
    node: Box<Node<L>>,
    outcome: Outcome<Node<L>>,
    spares: &mut Vec<Box<Node<L>>>,
) -> Root<L>
    requires some { 2 ≤ kids node.value }
    requires can { CanRaise L.entry L.enough 2 node_tree node.value (length spares.old.items) outcome }
    ensures tree { root_tree result ≡ raised node_tree node.value outcome }
    ensures root { IsRoot result }
{
    match outcome {
        Outcome::Refused => Root::Inner(node),
        Outcome::Same => Root::Inner(node),
        Outcome::Changed(_) => Root::Inner(node),
        Outcome::Split(halves) => {
            let Halves { low, high, upper } = halves;
            let Some(mut top) = spares.pop() else {
                unreachable!()
            };
            *top = Node {
                entries: two_entries(low, high),
                kids: Kids::Nodes(two_slots(node, upper)),
            };
            Root::Inner(top)
        }
    }
}

impl<L: Leaf> Tree<L> {
    /// Creates a tree without leaves.
    pub fn empty() -> Tree<L>
        ensures { result ≡ no_tree }
    {
        Tree { root: Root::Empty }
    }

    /// Creates a tree of one leaf.
    pub fn single(leaf: Box<L>) -> Tree<L>
        ensures { result ≡ leaf_of leaf.value }
    {
        Tree {
            root: Root::Leaf(leaf),
        }
    }

    /// Returns true if there is no leaf.
    pub fn is_empty(&self) -> bool
        ensures empty { result ≡ true → self.now.leaves ≡ [] }
        ensures some { result ≡ false → 0 < length self.now.leaves }
    {
        match &self.root {
            Root::Empty => true,
            Root::Leaf(_) => false,
            Root::Inner(node) => {
                node.facts();
                false
            }
        }
    }

    /// Returns the only leaf, or `None` if there is none or the root is a node.
    #[inline(always)]
    pub fn only_leaf(&self) -> Option<&L>
        ensures one { IfSome result (λ leaf. self.now.leaves ≡ leaf.now ∷ []) }
        ensures none { IfNone result (0 < length self.now.leaves → 2 ≤ self.now.height) }
    {
        match &self.root {
            Root::Empty => None,
            Root::Leaf(leaf) => {
                let leaf: &L = leaf;
                Some(leaf)
            }
            Root::Inner(node) => {
                node.facts();
                None
            }
        }
    }

    /// Returns the leaf to which a key belongs, if there is one.
    #[tactic(auto, using(crate::proofs::Finds::leaf_found))]
    pub fn leaf_at(&self, key: u64) -> Option<&L>
        requires ascend { Ascend L.entry self.now.leaves }
        ensures leaf { IfSome result (λ leaf. IsLeafOf L.entry key self.now.leaves leaf.now) }
        ensures none { IfNone result (self.now.leaves ≡ []) }
    {
        match &self.root {
            Root::Empty => None,
            Root::Leaf(leaf) => {
                let leaf: &L = leaf;
                Some(leaf)
            }
            Root::Inner(node) => Some(find_at(node, key)),
        }
    }

    /// Changes the leaf to which a key belongs. Returns false if it refused. An error changes nothing.
    pub fn edit<E: Edit<L>>(
        &mut self,
        key: u64,
        edit: &mut E,
        alloc: Global,
        count: &mut u64,
    ) -> Result<bool, AllocError>
        requires some { 0 < length self.old.leaves }
        requires ascend { Ascend L.entry self.old.leaves }
        requires can { (l : L) → IsLeafOf L.entry key self.old.leaves l → E.can_change edit.old l }
        ensures after { IfOk result (λ done. IsTreeAfter L.entry L.enough key (λ l. E.refuses edit.old l edit.new) (λ l ls. E.edits edit.old l edit.new ls) self.old self.new done) }
        ensures unchanged { OnErr result ((self.new ≡ self.old) × (edit.new ≡ edit.old)) }
        ensures failed { OnErr result (IsRefused L.entry key (λ l. E.needs_memory edit.old l) self.old.leaves) }
        ensures count { IsCounted count.old count.new self.old.height }
    {
        let mut spares = Vec::new(alloc);
        self.edit_with(key, edit, &mut spares, alloc, count)
    }

    /// Changes the leaf to which a key belongs. Returns false if it refused. An error changes nothing. Nodes are
    /// taken from `spares`. If there are as many as the height, an error means that the leaf lacks memory.
    pub fn edit_with<E: Edit<L>>(
        &mut self,
        key: u64,
        edit: &mut E,
        spares: &mut Vec<Box<Node<L>>>,
        alloc: Global,
        count: &mut u64,
    ) -> Result<bool, AllocError>
        requires some { 0 < length self.old.leaves }
        requires ascend { Ascend L.entry self.old.leaves }
        requires can { (l : L) → IsLeafOf L.entry key self.old.leaves l → E.can_change edit.old l }
        ensures after { IfOk result (λ done. IsTreeAfter L.entry L.enough key (λ l. E.refuses edit.old l edit.new) (λ l ls. E.edits edit.old l edit.new ls) self.old self.new done) }
        ensures unchanged { OnErr result ((self.new ≡ self.old) × (edit.new ≡ edit.old)) }
        ensures failed { OnErr result (IsRefused L.entry key (λ l. E.needs_memory edit.old l) self.old.leaves) }
        ensures spare { self.old.height ≤ length spares.old.items → OnErr result (IsRefused L.entry key (λ l. E.lacks edit.old l) self.old.leaves) }
        ensures count { IsCounted count.old count.new self.old.height }
    {
        match mem::replace(&mut self.root, Root::Empty) {
            Root::Empty => unreachable!(),
            Root::Leaf(mut leaf) => {
                *count = count.saturating_add(1);
                match edit_root(&mut *leaf, edit, spares, alloc) {
                    Ok(outcome) => {
                        let done = has_changed(&outcome);
                        self.root = leaf_root(leaf, outcome, spares);
                        Ok(done)
                    }
                    Err(error) => {
                        self.root = Root::Leaf(leaf);
                        Err(error)
                    }
                }
            }
            Root::Inner(mut node) => {
                node.facts();
                match edit_at(&mut *node, key, edit, 1, spares, alloc, count) {
                    Ok(outcome) => {
                        let done = has_changed(&outcome);
                        self.root = node_root(node, outcome, spares);
                        Ok(done)
                    }
                    Err(error) => {
                        self.root = Root::Inner(node);
                        Err(error)
                    }
                }
            }
        }
    }
}
