//! The children of a node.
ghost use Rattle.std.specs.Prelude.{◌≡◌, ◌<◌, length, map};
ghost use Rattle.vm_tree.specs.Slots.{held, IsDense};
ghost use Rattle.vm_tree.specs.Subtree.{leaf_of, nth_tree};
ghost use Rattle.vm_tree.specs.Nodes.{leaf_tree, node_tree};

use crate::entries::FANOUT;
use crate::leaf::Leaf;
use crate::node::Node;

/// Returns the child `i`, a leaf.
#[inline(always)]
#[tactic(auto, using(crate::proofs::Dense::not_empty))]
pub fn leaf_in<L: Leaf>(slots: &[Option<Box<L>>; FANOUT], i: usize) -> &L
    requires dense { IsDense slots.now }
    requires within { i < length (held slots.now) }
    ensures { leaf_of result.now ≡ nth_tree (map leaf_tree (held slots.now)) i }
{
    match &slots[i] {
        Some(leaf) => leaf,
        None => unreachable!(),
    }
}

/// Returns the child `i`, a node.
#[inline(always)]
#[tactic(auto, using(crate::proofs::Dense::not_empty))]
pub fn node_in<L: Leaf>(slots: &[Option<Box<Node<L>>>; FANOUT], i: usize) -> &Node<L>
    requires dense { IsDense slots.now }
    requires within { i < length (held slots.now) }
    ensures { result.now ≡ nth_tree (map node_tree (held slots.now)) i }
{
    match &slots[i] {
        Some(node) => node,
        None => unreachable!(),
    }
}
