//! Changes that leave a tree fewer items.
ghost use Rattle.std.specs.Prelude.{◌≡◌, ◌+◌, ◌<◌, ◌≤◌, true, length};
ghost use Rattle.vm_tree.specs.Subtree.{kids, Ascend};
ghost use Rattle.vm_tree.specs.Sought.{IsCounted};
ghost use Rattle.vm_tree.specs.Shrinks.{Any, MeetsAfter};
ghost use Rattle.vm_tree.specs.Edits.{IsEdited};
ghost use Rattle.vm_tree.specs.Roots.{root_tree, IsRoot};
ghost use Rattle.vm_tree.specs.Lowers.{IsLowered, HasShrunk, IsTreeCut};

use crate::cut::{Cut, ShrunkNode, cut_at, cut_root};
use crate::leaf::Leaf;
use crate::node::{Kids, Node};
use crate::slots::remove_slot;
use crate::tree::{Root, Tree};
use std::mem;

/// Returns true if a change was made.
fn has_shrunk(outcome: &ShrunkNode) -> bool
    ensures { result ≡ HasShrunk outcome.now }
{
    match outcome {
        ShrunkNode::Refused => false,
        ShrunkNode::Same => true,
        ShrunkNode::Begins(_) => true,
        ShrunkNode::Changed => true,
        ShrunkNode::Small(_) => true,
    }
}

/// Makes a root of a node, or of its only child.
fn lower<L: Leaf>(node: Box<Node<L>>) -> Root<L>
    requires { 0 < kids node.value }
    ensures tree { IsLowered node.value (root_tree result) }
    ensures root { IsRoot result }
{
    if node.len() > 1 {
        return Root::Inner(node);
    }
    let Node { entries: _, kids } = Box::into_inner(node);
    match kids {
        Kids::Leaves(mut slots) => Root::Leaf(remove_slot(&mut slots, 1, 0)),
        Kids::Nodes(mut slots) => Root::Inner(remove_slot(&mut slots, 1, 0)),
    }
}

impl<L: Leaf> Tree<L> {
    /// Changes the leaf to which a key belongs. Returns false if it refused, and nothing was changed.
    pub fn cut<E: Cut<L>>(&mut self, key: u64, edit: &mut E, count: &mut u64) -> bool
        requires some { 0 < length self.old.leaves }
        requires ascend { Ascend L.entry self.old.leaves }
        requires meet { E.shrinks edit.old → MeetsAfter L.entry L.meets key (λ l ls. (e : E) × E.edits edit.old l e ls) self.old.leaves }
        ensures after { IsTreeCut L.entry L.joins key (λ l. E.refuses edit.old l edit.new) (λ l ls. E.edits edit.old l edit.new ls) self.old self.new result }
        ensures kept { ¬ E.shrinks edit.old → result ≡ true → IsEdited L.entry Any key (λ l ls. E.edits edit.old l edit.new ls) self.old.leaves self.new.leaves }
        ensures count { IsCounted count.old count.new self.old.height }
    {
        match mem::replace(&mut self.root, Root::Empty) {
            Root::Empty => unreachable!(),
            Root::Leaf(mut leaf) => {
                *count = count.saturating_add(1);
                let done = cut_root(&mut *leaf, edit);
                self.root = Root::Leaf(leaf);
                done
            }
            Root::Inner(mut node) => {
                let outcome = cut_at(&mut *node, key, edit, count);
                self.root = lower(node);
                has_shrunk(&outcome)
            }
        }
    }
}
