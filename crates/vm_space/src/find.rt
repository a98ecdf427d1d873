//! The leaf and the block at an address.
ghost use Rattle.std.specs.Prelude.{◌≡◌};
ghost use Rattle.vm_ranges.specs.Range.{at_address};
ghost use Rattle.vm_space.specs.Lookups.{find_superset, IsLeafAt};
ghost use Rattle.vm_space.specs.Shape.{blocks};
ghost use Rattle.vm_space.specs.Spaces.{AreSpace};

use vm_leaf::{Block, Leaf};
use vm_tree::Tree;

/// Returns the leaf whose blocks contain an address. Below all blocks this is the first leaf, and
/// above all blocks the last one. It follows one path from the root.
pub(crate) fn leaf_at(tree: &Tree<Leaf>, address: u64) -> &Leaf
    requires space { AreSpace tree.now.leaves }
    ensures { IsLeafAt address (blocks tree.now) result.now }
{
    match tree.leaf_at(address) {
        Some(leaf) => leaf,
        // A space has a leaf.
        None => unreachable!(),
    }
}

/// Returns the block that contains an address, or `None` if there is no such block.
#[tactic(auto, using(crate::proofs::Lookups::at_address_cases))]
pub(crate) fn block_at(tree: &Tree<Leaf>, address: u64) -> Option<Block>
    requires space { AreSpace tree.now.leaves }
    ensures { result ≡ find_superset (at_address address) (blocks tree.now) }
{
    let leaf = leaf_at(tree, address);
    if address < leaf.start() || leaf.end() < address {
        return None;
    }
    Some(leaf.block_at(leaf.index_of(address)))
}
