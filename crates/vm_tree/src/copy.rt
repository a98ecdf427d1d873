//! Copies of trees.
ghost use Rattle.std.specs.Prelude.{◌≡◌, ◌<◌, ◌≤◌, length, map, IfOk};
ghost use Rattle.vm_tree.specs.Slots.{held, IsDense};
ghost use Rattle.vm_tree.specs.Nodes.{leaf_tree, node_tree};
ghost use Rattle.vm_tree.specs.Copies.{AreCopies};
ghost use Rattle.vm_tree.specs.Subtree.{front, AreFull};

use crate::entries::FANOUT;
use crate::leaf::Leaf;
use crate::node::{Kids, Node};
use crate::slots::{insert_slot, no_slots};
use std::alloc::{AllocError, Global};

/// A leaf that can be copied.
pub trait CopyLeaf: Leaf {
    /// Returns a leaf with the same items.
    fn try_copy(&self, alloc: Global) -> Result<Box<Self>, AllocError>
        ensures { IfOk result (λ leaf. leaf.value ≡ self.now) };
}

/// Returns copies of leaves.
#[tactic(auto, using(crate::proofs::Dense::not_empty, crate::proofs::Copies::copied_first))]
fn copy_leaves<L: CopyLeaf>(
    slots: &[Option<Box<L>>; FANOUT],
    len: usize,
    alloc: Global,
) -> Result<[Option<Box<L>>; FANOUT], AllocError>
    requires dense { IsDense slots.now }
    requires len { len ≡ length (held slots.now) }
    requires fits { len ≤ FANOUT }
    ensures { IfOk result (λ to. AreCopies leaf_tree len slots.now to) }
{
    let mut to = no_slots();
    for i in 0..len {
        match &slots[i] {
            Some(kid) => {
                let kid: &L = kid;
                insert_slot(&mut to, i, i, kid.try_copy(alloc)?);
            }
            None => unreachable!(),
        }
    }
    Ok(to)
}

/// Returns copies of nodes.
#[cycle(copy)]
#[tactic(auto, using(crate::proofs::Dense::not_empty, crate::proofs::Copies::copied_first))]
fn copy_nodes<L: CopyLeaf>(
    slots: &[Option<Box<Node<L>>>; FANOUT],
    len: usize,
    alloc: Global,
) -> Result<[Option<Box<Node<L>>>; FANOUT], AllocError>
    requires dense { IsDense slots.now }
    requires len { len ≡ length (held slots.now) }
    requires fits { len ≤ FANOUT }
    requires even { AreFull L.enough (front (map node_tree (held slots.now))) (map node_tree (held slots.now)) }
    ensures { IfOk result (λ to. AreCopies node_tree len slots.now to) }
{
    let mut to = no_slots();
    for i in 0..len {
        match &slots[i] {
            Some(kid) => {
                let kid: &Node<L> = kid;
                insert_slot(&mut to, i, i, copy_node(kid, alloc)?);
            }
            None => unreachable!(),
        }
    }
    Ok(to)
}

/// Returns a copy of a node, with the same children in each node.
#[cycle(copy)]
pub(crate) fn copy_node<L: CopyLeaf>(
    node: &Node<L>,
    alloc: Global,
) -> Result<Box<Node<L>>, AllocError>
    ensures { IfOk result (λ copy. copy.value ≡ node.now) }
{
    let entries = node.entries.copy();
    match &node.kids {
        Kids::Leaves(slots) => {
            let kids = Kids::Leaves(copy_leaves(slots, entries.len(), alloc)?);
            Ok(Box::new(alloc, Node { entries, kids })?)
        }
        Kids::Nodes(slots) => {
            let kids = Kids::Nodes(copy_nodes(slots, entries.len(), alloc)?);
            Ok(Box::new(alloc, Node { entries, kids })?)
        }
    }
}
