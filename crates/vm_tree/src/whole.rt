//! A tree as a whole: facts, reading, building and copying.
ghost use Rattle.std.specs.Prelude.{◌≡◌, ◌^◌, ◌<◌, ◌≤◌, [], length, None, IfOk, IfSome, IfNone};
ghost use Rattle.vm_tree.specs.Subtree.{Ascend, AllOf, kids, leaves_entry};
ghost use Rattle.vm_tree.specs.Sized.{IsSizedTree};
ghost use Rattle.vm_tree.specs.Walks.{IsFrom};
ghost use Rattle.vm_tree.specs.Building.{IsBuiltTree};

use crate::build::{Built, Source, build_tree};
use crate::copy::{CopyLeaf, copy_node};
use crate::entries::Entry;
use crate::leaf::Leaf;
use crate::node::{Kids, Node};
use crate::read::node_in;
use crate::tree::{Root, Tree};
use crate::walk::leaf_from;
use std::alloc::{AllocError, Global};

/// Returns the height of a node.
fn height_of<L: Leaf>(node: &Node<L>) -> u64
    requires some { 0 < kids node.now }
    requires few { length node.now.leaves ≤ 18446744073709551615 }
    ensures { result ≡ node.now.height }
{
    // Proof: the number of children gives the facts of a node.
    let _len = node.len();
    match &node.kids {
        Kids::Leaves(_) => 2,
        Kids::Nodes(slots) => height_of(node_in(slots, 0)) + 1,
    }
}

impl<L: Leaf> Tree<L> {
    /// Proof: if there are two leaves or more, then all are full enough. The height is limited by the leaves.
    pub fn facts(&self)
        ensures enough { 2 ≤ length self.now.leaves → AllOf L.enough self.now.leaves }
        ensures sized { 0 < length self.now.leaves → IsSizedTree self.now }
    {
        match &self.root {
            Root::Empty => {}
            Root::Leaf(_) => {}
            Root::Inner(node) => {
                let _len = node.len();
            }
        }
    }

    /// Returns the entry of all leaves together. There must be a leaf.
    #[tactic(auto, using(crate::proofs::Leaves::one_entry))]
    pub fn entry(&self) -> Entry
        requires { 0 < length self.now.leaves }
        ensures { result ≡ leaves_entry L.entry self.now.leaves }
    {
        match &self.root {
            Root::Empty => unreachable!(),
            Root::Leaf(leaf) => leaf.entry(),
            Root::Inner(node) => node.entry(),
        }
    }

    /// Returns the height: the number of nodes on the path to a leaf. A leaf is a node.
    pub fn height(&self) -> u64
        requires some { 0 < length self.now.leaves }
        requires few { length self.now.leaves ≤ 18446744073709551615 }
        ensures { result ≡ self.now.height }
    {
        match &self.root {
            Root::Empty => unreachable!(),
            Root::Leaf(_) => 1,
            Root::Inner(node) => height_of(node),
        }
    }

    /// Returns the leaf to which a key belongs, and the first address of the next leaf, if there is one.
    #[tactic(auto, using(crate::proofs::Walked::alone))]
    pub fn leaf_from(&self, key: u64) -> Option<(&L, Option<u64>)>
        requires ascend { Ascend L.entry self.now.leaves }
        ensures leaf { IfSome result (λ r. IsFrom L.entry key None self.now.leaves r.0.now r.1) }
        ensures none { IfNone result (self.now.leaves ≡ []) }
    {
        match &self.root {
            Root::Empty => None,
            Root::Leaf(leaf) => {
                let leaf: &L = leaf;
                Some((leaf, None))
            }
            Root::Inner(node) => Some(leaf_from(node, key, None)),
        }
    }

    /// Builds a tree of the next `n` leaves. No tree of as many leaves is lower.
    pub fn build<S: Source<L>>(
        n: usize,
        source: &mut S,
        alloc: Global,
    ) -> Result<Tree<L>, AllocError>
        requires some { 0 < n }
        requires few { n < 2 ^ 60 }
        requires there { n ≤ length (S.left source.old) }
        requires all { AllOf L.enough (S.left source.old) }
        ensures { IfOk result (λ tree. IsBuiltTree L.enough n (S.left source.old) (S.left source.new) tree) }
    {
        match build_tree(n, source, alloc)? {
            Built::Leaf(leaf) => Ok(Tree {
                root: Root::Leaf(leaf),
            }),
            Built::Node(node) => Ok(Tree {
                root: Root::Inner(node),
            }),
        }
    }
}

impl<L: CopyLeaf> Tree<L> {
    /// Returns a copy of this tree, with the same children in each node.
    pub fn copy(&self, alloc: Global) -> Result<Tree<L>, AllocError>
        ensures { IfOk result (λ tree. tree ≡ self.now) }
    {
        match &self.root {
            Root::Empty => Ok(Tree { root: Root::Empty }),
            Root::Leaf(leaf) => {
                let leaf: &L = leaf;
                Ok(Tree {
                    root: Root::Leaf(leaf.try_copy(alloc)?),
                })
            }
            Root::Inner(node) => Ok(Tree {
                root: Root::Inner(copy_node(node, alloc)?),
            }),
        }
    }
}
