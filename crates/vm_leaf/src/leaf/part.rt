//! A leaf of blocks as a leaf of a tree.
ghost use Rattle.vm_leaf.specs.Entries.{blocks_entry, HasEnough, AreNext, JoinsTo};

use super::{CAPACITY, Leaf};
use std::alloc::{AllocError, Global};
use vm_tree::{CopyLeaf, Entry};

impl vm_tree::Leaf for Leaf {
    ghost entry = { blocks_entry };

    ghost enough = { HasEnough };

    ghost meets = { AreNext };

    ghost joins = { JoinsTo };

    /// Returns the first address, and the summary of the gaps.
    fn entry(&self) -> Entry {
        let sum = self.summary();
        Entry {
            at: self.start(),
            longest: sum.longest,
            alignments: sum.alignments,
        }
    }

    /// Appends the next leaf if there is room for all its blocks. Otherwise both get half of the blocks.
    #[tactic(auto, using(crate::proofs::Tiles::short_run))]
    fn join(&mut self, next: &mut Leaf) -> bool {
        if self.len() + next.len() <= CAPACITY {
            self.append(next);
            return true;
        }
        self.even(next);
        false
    }
}

impl CopyLeaf for Leaf {
    fn try_copy(&self, alloc: Global) -> Result<Box<Self>, AllocError> {
        Ok(Box::new(alloc, self.copy())?)
    }
}
