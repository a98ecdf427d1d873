//! The leaf to which a key belongs.
ghost use Rattle.std.specs.Prelude.{◌≡◌, ◌<◌, ◌≤◌, length, Some, Box, ℕ};
ghost use Rattle.std.specs.declared.alloc.Global.{Global};
ghost use Rattle.vm_tree.specs.Slots.{held, IsDense};
ghost use Rattle.vm_tree.specs.Subtree.{kids, Ascend};
ghost use Rattle.vm_tree.specs.Found.{IsLeafOf, HasKid};

use crate::entries::FANOUT;
use crate::leaf::Leaf;
use crate::node::{Kids, Node};

/// Returns the child in a slot.
#[inline(always)]
#[tactic(auto, using(crate::proofs::Dense::not_empty))]
pub(crate) fn kid_in<C>(slots: &[Option<Box<C>>; FANOUT], i: usize) -> &C
    requires dense { IsDense slots.now }
    requires within { i < length (held slots.now) }
    ensures { HasKid slots.now i result.now }
{
    match &slots[i] {
        Some(kid) => {
            let kid: &C = kid;
            kid
        }
        None => unreachable!(),
    }
}

/// Returns the leaf to which a key belongs, below a node.
pub(crate) fn find_at<L: Leaf>(node: &Node<L>, key: u64) -> &L
    requires some { 0 < kids node.now }
    requires ascend { Ascend L.entry node.now.leaves }
    ensures { IsLeafOf L.entry key node.now.leaves result.now }
{
    let i = node.entries.index_of(key);
    match &node.kids {
        Kids::Leaves(slots) => kid_in(slots, i),
        Kids::Nodes(slots) => find_at(kid_in(slots, i), key),
    }
}
