//! A walk over leaves.
ghost use Rattle.std.specs.Prelude.{◌≡◌, ◌+◌, ◌<◌, ◌≤◌, length, Some};
ghost use Rattle.vm_tree.specs.Rows.{nth};
ghost use Rattle.vm_tree.specs.Subtree.{kids, Ascend};
ghost use Rattle.vm_tree.specs.Walks.{IsFrom};

use crate::entries::Entries;
use crate::leaf::Leaf;
use crate::node::{Kids, Node};
use crate::read::{leaf_in, node_in};

/// Returns the first address of the child after `i`, or `end` if there is none.
#[inline(always)]
fn start_after(entries: &Entries, i: usize, end: Option<u64>) -> Option<u64>
    requires { i < length entries.now }
    ensures more { i + 1 < length entries.now → result ≡ Some (nth entries.now (i + 1)).at }
    ensures last { length entries.now ≤ i + 1 → result ≡ end }
{
    let len = entries.len();
    if i + 1 < len {
        Some(entries.entry(i + 1).at)
    } else {
        end
    }
}

/// Returns the leaf to which a key belongs, below a node, and the first address of the next leaf, or `end` if
/// there is none. A walk goes on with the leaf of that address.
pub fn leaf_from<L: Leaf>(node: &Node<L>, key: u64, end: Option<u64>) -> (&L, Option<u64>)
    requires some { 0 < kids node.now }
    requires ascend { Ascend L.entry node.now.leaves }
    ensures { IsFrom L.entry key end node.now.leaves result.0.now result.1 }
{
    let i = node.entries.index_of(key);
    let next = start_after(&node.entries, i, end);
    match &node.kids {
        Kids::Leaves(slots) => (leaf_in(slots, i), next),
        Kids::Nodes(slots) => leaf_from(node_in(slots, i), key, next),
    }
}
