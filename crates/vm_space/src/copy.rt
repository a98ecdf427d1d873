//! A list of the starts of the blocks of a tree.
ghost use Rattle.std.specs.Prelude.{◌≡◌, ◌++◌, IfOk};
ghost use Rattle.vm_leaf.specs.BlockStarts.{starts_of};
ghost use Rattle.vm_space.specs.Shape.{blocks};
ghost use Rattle.vm_space.specs.Spaces.{AreSpace};

use std::alloc::AllocError;
use vm_leaf::{BlockStart, Leaf};
use vm_tree::Tree;

/// Appends the starts of the blocks of a leaf to a list, or returns an error if an allocation fails.
fn append_leaf(leaf: &Leaf, list: &mut Vec<BlockStart>) -> Result<(), AllocError>
    ensures { IfOk result (λ _. list.new.items ≡ list.old.items ++ starts_of leaf.now) }
{
    leaf.part(0, leaf.len()).append_starts(list)
}

/// Appends the starts of the blocks of a tree to a list, or returns an error if an allocation fails.
pub(crate) fn append_starts(tree: &Tree<Leaf>, list: &mut Vec<BlockStart>) -> Result<(), AllocError>
    requires { AreSpace tree.now.leaves }
    ensures { IfOk result (λ _. list.new.items ≡ list.old.items ++ starts_of (blocks tree.now)) }
{
    let mut leaves = tree.leaves();
    while let Some(leaf) = leaves.next_leaf() {
        append_leaf(leaf, list)?;
    }
    Ok(())
}
