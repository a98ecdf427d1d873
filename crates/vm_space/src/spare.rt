//! Memory for the split of a gap, for a caller that cannot use an error later.
ghost use Rattle.std.specs.Prelude.{◌≢◌, ◌≤◌, ℕ, length, IfOk, Some, None};
ghost use Rattle.vm_ranges.specs.Answer.{SPLIT_LIMIT_MIN_HELD};
ghost use Rattle.vm_space.specs.Spares.{HasSpare};

use std::alloc::{AllocError, Global};
use std::fmt::{Debug, Formatter, Write};
use std::marker::Model;
use vm_leaf::{Block, Leaf, MIN_BLOCKS};
use vm_ranges::{NodeState, RangeInclusive};
use vm_tree::{Node, reserve_nodes};

/// Memory for the split of a gap: a leaf, and a node for each level of the tree.
#[derive(Drop)]
pub struct Spare {
    pub(crate) leaf: Box<Leaf>,
    pub(crate) nodes: Vec<Box<Node<Leaf>>>,
}

impl Model for Spare {
    ghost use Rattle.std.specs.Prelude.{ℕ, length};

    ghost Value = { ℕ };

    ghost view = { λ a. length a.nodes.items };
}

impl Spare {
    /// Allocates the memory for a split in any tree with up to `held` allocated ranges. The leaf has one block, of
    /// `range`.
    pub fn new(alloc: Global, held: u64, range: RangeInclusive) -> Result<Spare, AllocError>
        requires few { held ≤ SPLIT_LIMIT_MIN_HELD }
        ensures { IfOk result (λ n. HasSpare held (Some n)) }
    {
        let block = Block {
            key: range,
            state: NodeState::Allocated,
        };
        let leaf = Box::new(alloc, Leaf::single(block))?;
        let mut nodes = Vec::new(alloc);
        reserve_nodes(&mut nodes, highest_with(held), alloc)?;
        Ok(Spare { leaf, nodes })
    }
}

/// Takes the memory, if there is any.
pub(crate) fn take(
    spare: &mut Option<Spare>,
    alloc: Global,
) -> (Option<Box<Leaf>>, Vec<Box<Node<Leaf>>>)
    ensures { (k : ℕ) → HasSpare k spare.old → (result.0 ≢ None) × HasSpare k (Some (length result.1.items)) }
{
    match spare.take() {
        Some(spare) => (Some(spare.leaf), spare.nodes),
        None => (None, Vec::new(alloc)),
    }
}

/// Returns the maximum height of a tree with up to `held` allocated ranges.
fn highest_with(held: u64) -> usize
    requires few { held ≤ SPLIT_LIMIT_MIN_HELD }
    ensures { HasSpare held (Some result) }
{
    let mut height = 1;
    let mut least = MIN_BLOCKS as u64;
    while least <= held {
        height += 1;
        least *= 5;
    }
    height
}

impl Debug for Spare {
    fn fmt<W: Write>(&self, f: &mut Formatter<W>) -> std::fmt::Result {
        f.write_str("Spare")
    }
}
