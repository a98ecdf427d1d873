//! Queries of the free addresses: the gaps, a search by an address, the length of the longest gap, and
//! counts.
//!
//! A gap is a run of free addresses with no free address next to it.
ghost use Rattle.std.specs.Prelude.{◌≡◌, None, length};
ghost use Rattle.vm_addresses.specs.Queries.{
  gaps_of,
  longest_of,
  longest_part,
  FindsLongestPart,
  longer_part,
  count_if,
  count_of,
  IsGapAt,
  meeting,
};
ghost use Rattle.vm_addresses.specs.Allocator.{state_of};

use super::AddressAllocator;
use super::ranges::{Ranges, RangesIn};
use vm_ranges::{NodeState, RangeInclusive};

impl AddressAllocator {
    /// Returns an iterator over the gaps, from the lowest to the highest. Its length is exact.
    ///
    /// It does not allocate.
    #[tactic(auto, using(crate::proofs::Walking::GapsInTrees::gaps_in_trees))]
    pub fn gaps(&self) -> Ranges<'_>
        ensures { result ≡ gaps_of (state_of self.now) }
    {
        let ranges = RangesIn {
            blocks: self.walk(),
            state: NodeState::Free,
        };
        Ranges {
            ranges,
            left: self.gap_count as usize,
        }
    }

    /// Returns an iterator over the gaps that have an address in common with `range`, from the lowest
    /// to the highest.
    ///
    /// Each gap is returned whole. It descends one path of the tree for each end of `range` and does
    /// not allocate.
    #[tactic(auto, using(crate::proofs::Walking::Windows::ranges_in_windows))]
    pub fn gaps_in(&self, range: &RangeInclusive) -> RangesIn<'_>
        ensures { result ≡ meeting range.now (gaps_of (state_of self.now)) }
    {
        RangesIn {
            blocks: self.walk_in(range),
            state: NodeState::Free,
        }
    }

    /// Returns the gap that contains an address, or `None` if the address is allocated or outside
    /// the space.
    ///
    /// It descends one path of the tree and does not allocate.
    #[tactic(auto, using(crate::proofs::Walking::AddressSearches::gap_at_address))]
    pub fn gap_at(&self, address: u64) -> Option<RangeInclusive>
        ensures { IsGapAt (state_of self.now) address result }
    {
        let block = self.tree.block_at(address)?;
        match block.state {
            NodeState::Free => Some(block.key),
            NodeState::Allocated => None,
        }
    }

    /// Returns the length of the longest gap, or 0 if no address is free.
    ///
    /// At alignment 1, `FirstMatch` and `LastMatch` return `ResourceNotAvailable` if and only if the size
    /// is more than this length. It reads one node and does not allocate.
    #[tactic(auto, using(crate::proofs::Walking::GapsInTrees::gaps_in_trees))]
    pub fn longest_gap(&self) -> u64
        ensures { result ≡ longest_of (gaps_of (state_of self.now)) }
    {
        self.tree.longest_gap()
    }

    /// Returns the longest part of a gap that lies in `window`, the lowest of them if several are as long, or
    /// `None` if no address of the window is free.
    ///
    /// A request at alignment 1 in this window fits if and only if its size is at most the length of this part.
    /// It reads each gap of the window and does not allocate.
    #[tactic(auto, using(crate::proofs::Walking::LongestParts::longest_parts))]
    pub fn longest_gap_in(&self, window: &RangeInclusive) -> Option<RangeInclusive>
        ensures part { FindsLongestPart window.now (gaps_of (state_of self.now)) result }
        ensures length { count_if result ≡ longest_part window.now (gaps_of (state_of self.now)) }
    {
        let mut gaps = self.gaps_in(window);
        let mut longest = None;
        while let Some(gap) = gaps.next() {
            longest = longer_part(window, longest, &gap);
        }
        longest
    }

    /// Returns the number of gaps.
    ///
    /// It takes constant time and does not allocate.
    #[tactic(auto, using(crate::proofs::Walking::GapsInTrees::gaps_in_trees))]
    pub fn gap_count(&self) -> u64
        ensures { result ≡ length (gaps_of (state_of self.now)) }
    {
        self.gap_count
    }

    /// Returns the number of free addresses.
    ///
    /// It takes constant time and does not allocate.
    #[tactic(auto, using(crate::proofs::Walking::GapsInTrees::gaps_in_trees))]
    pub fn free_len(&self) -> u64
        ensures { result ≡ count_of (gaps_of (state_of self.now)) }
    {
        self.free_len
    }
}

/// Returns the part of `gap` in the window if it is longer than `longest`, and otherwise `longest`.
fn longer_part(
    window: &RangeInclusive,
    longest: Option<RangeInclusive>,
    gap: &RangeInclusive,
) -> Option<RangeInclusive>
    ensures { result ≡ longer_part window.now longest gap.now }
{
    let (start, end) = (window.start().max(gap.start()), window.end().min(gap.end()));
    if end < start {
        return longest;
    }
    let part = RangeInclusive::between(start, end);
    match longest {
        Some(longest) if part.len() <= longest.len() => Some(longest),
        _ => Some(part),
    }
}
