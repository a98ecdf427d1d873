//! Iteration over the ranges with a state: over the allocated ranges, or over the gaps.
ghost use Rattle.std.specs.Prelude.{◌≡◌, Some, IfSome, length};
ghost use Rattle.std.specs.Iterator.{YieldsFirst, YieldsLast, UpTo, at_most, item_count};
ghost use Rattle.std.specs.Iterator.SizeHint.{IsWithinCount};
ghost use Rattle.vm_addresses.specs.Queries.{ranges_with};

use std::marker::Model;
use vm_ranges::{NodeState, RangeInclusive};
use vm_space::Walk;

/// An iterator over the allocated ranges in a window, or over the gaps there, from the lowest to the
/// highest, or backwards. It does not allocate.
///
/// Its model is the list of the ranges that it has not returned yet.
#[derive(Clone, Drop)]
pub struct RangesIn<'a> {
    pub(super) blocks: Walk<'a>,
    /// The state of the ranges.
    pub(super) state: NodeState,
}

impl<'a> Model for RangesIn<'a> {
    ghost use Rattle.std.specs.Prelude.{List};
    ghost use Rattle.vm_ranges.specs.Range.{Range};
    ghost use Rattle.vm_addresses.specs.Queries.{ranges_with};

    ghost Value = { List Range };

    ghost view = { λ r. ranges_with r.state r.blocks };
}

impl<'a> Iterator for RangesIn<'a> {
    type Item = RangeInclusive;

    ghost next_gives = { YieldsFirst (λ r. r) };

    ghost remaining = { item_count (λ r. r) };

    /// Returns the lowest range that is left.
    #[tactic(auto, using(crate::proofs::Walking::StateRanges::ranges_first))]
    fn next(&mut self) -> Option<RangeInclusive> {
        while let Some(block) = self.blocks.next() {
            if block.state == self.state {
                return Some(block.key);
            }
        }
        None
    }
}

impl<'a> DoubleEndedIterator for RangesIn<'a> {
    ghost next_back_gives = { YieldsLast (λ r. r) };

    /// Returns the highest range that is left.
    #[tactic(auto, using(crate::proofs::Walking::StateRanges::ranges_last))]
    fn next_back(&mut self) -> Option<RangeInclusive> {
        while let Some(block) = self.blocks.next_back() {
            if block.state == self.state {
                return Some(block.key);
            }
        }
        None
    }
}

/// An iterator over all allocated ranges, or over all gaps, from the lowest to the highest, or backwards.
/// It has an exact length, and does not allocate.
///
/// Its model is the list of the ranges that it has not returned yet.
#[derive(Clone, Drop)]
pub struct Ranges<'a> {
    pub(super) ranges: RangesIn<'a>,
    /// The number of ranges that are left.
    pub(super) left: usize,
}

impl<'a> Model for Ranges<'a> {
    ghost use Rattle.std.specs.Prelude.{◌≡◌, List, length};
    ghost use Rattle.vm_ranges.specs.Range.{Range};

    ghost Value = { List Range };

    ghost view = { λ r. r.ranges };

    ghost invariant = { λ r. r.left ≡ length r.ranges };
}

impl<'a> Iterator for Ranges<'a> {
    type Item = RangeInclusive;

    ghost next_gives = { YieldsFirst (λ r. r) };

    ghost remaining = { item_count (λ r. r) };

    /// Returns the lowest range that is left.
    fn next(&mut self) -> Option<RangeInclusive> {
        let range = self.ranges.next()?;
        self.left -= 1;
        Some(range)
    }

    /// Returns the number of ranges that are left, as both bounds.
    fn size_hint(&self) -> (usize, Option<usize>)
        ensures exact { result ≡ (length self.now, Some (length self.now)) }
        ensures lower { IsWithinCount result.0 (at_most (length self.now)) }
        ensures upper { IfSome result.1 (UpTo (at_most (length self.now))) }
    {
        (self.left, Some(self.left))
    }
}

impl<'a> DoubleEndedIterator for Ranges<'a> {
    ghost next_back_gives = { YieldsLast (λ r. r) };

    /// Returns the highest range that is left.
    fn next_back(&mut self) -> Option<RangeInclusive> {
        let range = self.ranges.next_back()?;
        self.left -= 1;
        Some(range)
    }
}

impl<'a> ExactSizeIterator for Ranges<'a> {
    /// Returns the number of ranges that are left.
    fn len(&self) -> usize {
        self.left
    }
}
