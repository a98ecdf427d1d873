//! Iteration over the blocks of a space: the allocated ranges and the gaps.
ghost use Rattle.std.specs.Prelude.{◌≡◌, Some, IfSome, length, map};
ghost use Rattle.std.specs.Iterator.{YieldsFirst, YieldsLast, UpTo, at_most, item_count};
ghost use Rattle.std.specs.Iterator.SizeHint.{IsWithinCount};
ghost use Rattle.vm_addresses.specs.Allocator.{state_of};
ghost use Rattle.vm_addresses.specs.Queries.{block_parts};
ghost use Rattle.vm_leaf.specs.SpaceBlocks.{blocks_of};

use super::AddressAllocator;
use std::marker::Model;
use vm_ranges::{NodeState, RangeInclusive};
use vm_space::Walk;

/// An iterator over the blocks of a space with their states, from the lowest to the highest, or backwards. It
/// has an exact length, and does not allocate.
///
/// Its model is the list of the blocks that it has not returned yet.
#[derive(Clone, Drop)]
pub struct AllBlocks<'a> {
    walk: Walk<'a>,
    /// The number of blocks that are left.
    left: usize,
}

impl<'a> Model for AllBlocks<'a> {
    ghost use Rattle.std.specs.Prelude.{◌≡◌, List, length, map};
    ghost use Rattle.vm_ranges.specs.Range.{Range};
    ghost use Rattle.vm_ranges.specs.declared.state.NodeState.{NodeState};
    ghost use Rattle.vm_addresses.specs.Queries.{block_parts};

    ghost Value = { List (Range × NodeState) };

    ghost view = { λ b. map block_parts b.walk };

    ghost invariant = { λ b. b.left ≡ length b.walk };
}

impl<'a> Iterator for AllBlocks<'a> {
    type Item = (RangeInclusive, NodeState);

    ghost next_gives = { YieldsFirst (λ b. b) };

    ghost remaining = { item_count (λ b. b) };

    /// Returns the lowest block that is left.
    fn next(&mut self) -> Option<(RangeInclusive, NodeState)> {
        let block = self.walk.next()?;
        self.left -= 1;
        Some((block.key, block.state))
    }

    /// Returns the number of blocks that are left, as both bounds.
    #[tactic(auto, using(crate::proofs::Walking::BlockParts::parts))]
    fn size_hint(&self) -> (usize, Option<usize>)
        ensures exact { result ≡ (length self.now, Some (length self.now)) }
        ensures lower { IsWithinCount result.0 (at_most (length self.now)) }
        ensures upper { IfSome result.1 (UpTo (at_most (length self.now))) }
    {
        (self.left, Some(self.left))
    }
}

impl<'a> DoubleEndedIterator for AllBlocks<'a> {
    ghost next_back_gives = { YieldsLast (λ b. b) };

    /// Returns the highest block that is left.
    #[tactic(auto, using(crate::proofs::Walking::BlockParts::parts))]
    fn next_back(&mut self) -> Option<(RangeInclusive, NodeState)> {
        let block = self.walk.next_back()?;
        self.left -= 1;
        Some((block.key, block.state))
    }
}

impl<'a> ExactSizeIterator for AllBlocks<'a> {
    /// Returns the number of blocks that are left.
    #[tactic(auto, using(crate::proofs::Walking::BlockParts::parts))]
    fn len(&self) -> usize {
        self.left
    }
}

impl AddressAllocator {
    /// Returns an iterator over the allocated ranges and the gaps with their states, from the lowest to the
    /// highest. Its length is exact.
    ///
    /// It does not allocate.
    #[tactic(auto, using(crate::proofs::Walking::BlockParts::parts))]
    pub fn blocks(&self) -> AllBlocks<'_>
        ensures { result ≡ map block_parts (blocks_of (state_of self.now)) }
    {
        AllBlocks {
            walk: self.walk(),
            left: (self.held_count + self.gap_count) as usize,
        }
    }
}
