//! Builds a tree of leaves, with the minimum height.
ghost use Rattle.std.specs.Prelude.{◌≡◌, ◌+◌, ◌*◌, ◌^◌, ◌<◌, ◌≤◌, ◌∷◌, List, length, IfOk};
ghost use Rattle.vm_tree.specs.Building.{IsBuilt, IsBuiltRoot};
ghost use Rattle.vm_tree.specs.Subtree.{AllOf, entry_of, kids};

use crate::entries::{Entries, Entry};
use crate::leaf::Leaf;
use crate::node::{Kids, Node};
use crate::slots::{insert_slot, no_slots};
use std::alloc::{AllocError, Global};

/// Leaves, one after the other.
pub trait Source<L: Leaf> {
    ghost left: { Self → List L };

    /// Returns the next leaf.
    fn next_leaf(&mut self, alloc: Global) -> Result<Box<L>, AllocError>
        requires { 0 < length (left self.old) }
        ensures { IfOk result (λ leaf. left self.old ≡ leaf.value ∷ left self.new) };
}

/// The root of a tree.
#[derive(Drop)]
pub(crate) enum Built<L: Leaf> {
    Leaf(Box<L>),
    Node(Box<Node<L>>),
}

/// Returns what is stored beside a node.
#[tactic(auto, using(crate::proofs::Building::node_entry))]
fn entry_over<L: Leaf>(node: &Node<L>) -> Entry
    requires { 0 < kids node.now }
    ensures { result ≡ entry_of L.entry node.now }
{
    node.entries.sum()
}

/// Builds a node over the next `n` leaves.
fn build_leaves<L: Leaf, S: Source<L>>(
    n: usize,
    source: &mut S,
    alloc: Global,
) -> Result<Box<Node<L>>, AllocError>
    requires some { 0 < n }
    requires fits { n ≤ 16 }
    requires there { n ≤ length (S.left source.old) }
    requires all { AllOf L.enough (S.left source.old) }
    ensures { IfOk result (λ node. IsBuilt L.enough 0 1 n (S.left source.old) (S.left source.new) node.value) }
{
    let mut entries = Entries::empty();
    let mut slots = no_slots();
    for i in 0..n {
        let leaf = source.next_leaf(alloc)?;
        entries.insert(i, leaf.entry());
        insert_slot(&mut slots, i, i, leaf);
    }
    let kids = Kids::Leaves(slots);
    Ok(Box::new(alloc, Node { entries, kids })?)
}

/// Builds a node over nodes of the next `n` leaves. Each of these can have up to `below` leaves.
#[cycle(build)]
fn build_nodes<L: Leaf, S: Source<L>>(
    levels: usize,
    below: usize,
    n: usize,
    source: &mut S,
    alloc: Global,
) -> Result<Box<Node<L>>, AllocError>
    requires levels { 0 < levels }
    requires power { below ≡ 16 ^ levels }
    requires many { below < n }
    requires few { n ≤ 16 * below }
    requires there { n ≤ length (S.left source.old) }
    requires all { AllOf L.enough (S.left source.old) }
    ensures { IfOk result (λ node. IsBuilt L.enough levels below n (S.left source.old) (S.left source.new) node.value) }
{
    let mut entries = Entries::empty();
    let mut slots = no_slots();
    let mut left = n;
    let count = (n - 1) / below + 1;
    for i in 0..count {
        let part = left / (count - i);
        let kid = build_node(levels - 1, below / 16, part, source, alloc)?;
        left -= part;
        entries.insert(i, entry_over(&kid));
        insert_slot(&mut slots, i, i, kid);
    }
    let kids = Kids::Nodes(slots);
    Ok(Box::new(alloc, Node { entries, kids })?)
}

/// Builds a node over the next `n` leaves. Each of its children can have up to `below` leaves.
#[cycle(build)]
fn build_node<L: Leaf, S: Source<L>>(
    levels: usize,
    below: usize,
    n: usize,
    source: &mut S,
    alloc: Global,
) -> Result<Box<Node<L>>, AllocError>
    requires power { below ≡ 16 ^ levels }
    requires many { below < n }
    requires few { n ≤ 16 * below }
    requires there { n ≤ length (S.left source.old) }
    requires all { AllOf L.enough (S.left source.old) }
    ensures { IfOk result (λ node. IsBuilt L.enough levels below n (S.left source.old) (S.left source.new) node.value) }
{
    if levels == 0 {
        return build_leaves(n, source, alloc);
    }
    build_nodes(levels, below, n, source, alloc)
}

/// Builds a tree of the next `n` leaves. No tree of as many leaves is lower.
#[tactic(auto, using(crate::proofs::Building::one_leaf, crate::proofs::Building::one_node))]
pub(crate) fn build_tree<L: Leaf, S: Source<L>>(
    n: usize,
    source: &mut S,
    alloc: Global,
) -> Result<Built<L>, AllocError>
    requires some { 0 < n }
    requires few { n < 2 ^ 60 }
    requires there { n ≤ length (S.left source.old) }
    requires all { AllOf L.enough (S.left source.old) }
    ensures { IfOk result (λ root. IsBuiltRoot L.enough n (S.left source.old) (S.left source.new) root) }
{
    if n == 1 {
        return Ok(Built::Leaf(source.next_leaf(alloc)?));
    }
    let (mut levels, mut below) = (0, 1);
    while below * 16 < n {
        below *= 16;
        levels += 1;
    }
    Ok(Built::Node(build_node(levels, below, n, source, alloc)?))
}
