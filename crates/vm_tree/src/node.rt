//! The shape of a tree.
use crate::entries::{Entries, FANOUT};
use crate::leaf::Leaf;
use std::marker::Model;

/// The children of a node.
#[cycle(tree)]
#[derive(Drop)]
pub enum Kids<L: Leaf> {
    Leaves([Option<Box<L>>; FANOUT]),
    Nodes([Option<Box<Node<L>>>; FANOUT]),
}

/// A node.
#[cycle(tree)]
#[derive(Drop)]
pub struct Node<L: Leaf> {
    pub entries: Entries,
    pub kids: Kids<L>,
}

impl<L: Leaf> Model for Node<L> {
    ghost use Rattle.vm_tree.specs.Subtree.{Subtree};

    ghost Value = { Subtree L };

    ghost use Rattle.vm_tree.specs.Nodes.{subtree_of, IsNode};

    ghost view = { subtree_of };

    ghost invariant = { IsNode L.entry L.enough };

    ghost use Rattle.vm_tree.specs.Subtree.{height_of};

    ghost size = { height_of };

    ghost use Rattle.vm_tree.specs.Deeper.{deeper};

    ghost size_decreases = { λ a h. deeper ⟦<L as Leaf>⟧ L.enough L.entry a.entries a.kids h };
}
