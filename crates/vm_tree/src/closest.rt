//! The search of a whole tree.
ghost use Rattle.std.specs.Prelude.{◌≡◌, ◌+◌, ◌<◌, ◌≤◌, true, IfOk, OnErr, IfNone, MatchBool};
ghost use Rattle.vm_tree.specs.Subtree.{AllOf, leaf_of, kids, entry_of};
ghost use Rattle.vm_tree.specs.Roots.{root_tree, IsRoot};
ghost use Rattle.vm_tree.specs.Sought.{IsTreeSought, IsTreeFailed};

use crate::leaf::Leaf;
use crate::node::Node;
use crate::search::Seek;
use crate::seek::{seek_at, seek_root};
use crate::tree::{Root, Tree, has_changed, leaf_root, node_root};
use crate::window::{kid_count, low_kid, next_kid};
use std::alloc::{AllocError, Global};
use std::mem;

/// Returns true if a child of a node may have a place. Otherwise the node has none.
#[inline(always)]
pub(crate) fn may_enter<L: Leaf, S: Seek<L>>(node: &Node<L>, seek: &S) -> bool
    requires some { 0 < kids node.now }
    requires runs { (S.seeking seek.now).runs node.now.leaves }
    ensures { MatchBool result ((S.seeking seek.now).fits (entry_of L.entry node.now) ≡ true) (AllOf (S.seeking seek.now).lacks node.now.leaves) }
{
    let end = seek.end();
    let from = low_kid(&node.entries, seek.low());
    let to = kid_count(&node.entries, seek.high());
    let Some(_kid) = next_kid::<L, S>(&node.entries, from, to, end, seek) else {
        return false;
    };
    true
}

/// Searches a root that is a leaf.
fn seek_leaf_root<L: Leaf, S: Seek<L>>(
    mut leaf: Box<L>,
    seek: &mut S,
    alloc: Global,
    count: &mut u64,
) -> (Root<L>, Result<Option<bool>, AllocError>)
    requires runs { (S.seeking seek.old).runs (leaf_of leaf.value).leaves }
    ensures root { IsRoot result.0 }
    ensures sought { IfOk result.1 (λ r. IsTreeSought L.enough (S.seeking seek.old) count.old count.new (λ l. S.refuses seek.old l seek.new) (λ l ls. S.edits seek.old l seek.new ls) (leaf_of leaf.value) (root_tree result.0) r) }
    ensures same { IfOk result.1 (λ r. IfNone r (seek.new ≡ seek.old)) }
    ensures failed { OnErr result.1 (IsTreeFailed L.enough (S.seeking seek.old) count.old count.new (λ l. S.needs_memory seek.old l) (leaf_of leaf.value) (root_tree result.0)) }
{
    // Proof: `end` gives the laws of a search.
    let _end = seek.end();
    let mut spares = Vec::new(alloc);
    match seek_root(&mut *leaf, seek, &mut spares, alloc, count) {
        Ok(Some(outcome)) => {
            let done = has_changed(&outcome);
            (leaf_root(leaf, outcome, &mut spares), Ok(Some(done)))
        }
        Ok(None) => (Root::Leaf(leaf), Ok(None)),
        Err(error) => (Root::Leaf(leaf), Err(error)),
    }
}

/// Searches a root that is a node.
fn seek_node_root<L: Leaf, S: Seek<L>>(
    mut node: Box<Node<L>>,
    seek: &mut S,
    alloc: Global,
    count: &mut u64,
) -> (Root<L>, Result<Option<bool>, AllocError>)
    requires some { 2 ≤ kids node.value }
    requires runs { (S.seeking seek.old).runs node.value.leaves }
    ensures root { IsRoot result.0 }
    ensures sought { IfOk result.1 (λ r. IsTreeSought L.enough (S.seeking seek.old) count.old count.new (λ l. S.refuses seek.old l seek.new) (λ l ls. S.edits seek.old l seek.new ls) node.value (root_tree result.0) r) }
    ensures same { IfOk result.1 (λ r. IfNone r (seek.new ≡ seek.old)) }
    ensures failed { OnErr result.1 (IsTreeFailed L.enough (S.seeking seek.old) count.old count.new (λ l. S.needs_memory seek.old l) node.value (root_tree result.0)) }
{
    // Proof: `end` gives the laws of a search.
    let _end = seek.end();
    node.facts();
    if !may_enter::<L, S>(&node, seek) {
        return (Root::Inner(node), Ok(None));
    }
    let mut spares = Vec::new(alloc);
    match seek_at(&mut *node, seek, 1, &mut spares, alloc, count) {
        Ok(Some(outcome)) => {
            let done = has_changed(&outcome);
            (node_root(node, outcome, &mut spares), Ok(Some(done)))
        }
        Ok(None) => (Root::Inner(node), Ok(None)),
        Err(error) => (Root::Inner(node), Err(error)),
    }
}

impl<L: Leaf> Tree<L> {
    /// Changes the leaf that has the place of a search closest to its end. Returns `None` if no leaf has a place, and
    /// otherwise true if the leaf was changed. An error changes nothing.
    pub fn seek<S: Seek<L>>(
        &mut self,
        seek: &mut S,
        alloc: Global,
        count: &mut u64,
    ) -> Result<Option<bool>, AllocError>
        requires runs { (S.seeking seek.old).runs self.old.leaves }
        ensures sought { IfOk result (λ r. IsTreeSought L.enough (S.seeking seek.old) count.old count.new (λ l. S.refuses seek.old l seek.new) (λ l ls. S.edits seek.old l seek.new ls) self.old self.new r) }
        ensures same { IfOk result (λ r. IfNone r (seek.new ≡ seek.old)) }
        ensures failed { OnErr result (IsTreeFailed L.enough (S.seeking seek.old) count.old count.new (λ l. S.needs_memory seek.old l) self.old self.new) }
    {
        match mem::replace(&mut self.root, Root::Empty) {
            Root::Empty => Ok(None),
            Root::Leaf(leaf) => {
                let (root, found) = seek_leaf_root(leaf, seek, alloc, count);
                self.root = root;
                found
            }
            Root::Inner(node) => {
                let (root, found) = seek_node_root(node, seek, alloc, count);
                self.root = root;
                found
            }
        }
    }
}
