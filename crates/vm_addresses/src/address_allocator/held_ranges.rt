//! Queries of the allocated ranges: iterators, a test, a search by an address, and a count.
ghost use Rattle.std.specs.Prelude.{◌≡◌, ◌↔◌, IsTrue, length};
ghost use Rattle.std.specs.List.{Contains};
ghost use Rattle.vm_ranges.specs.Address.{IsAddressState};
ghost use Rattle.vm_addresses.specs.Queries.{IsHeldAt, meeting};
ghost use Rattle.vm_addresses.specs.Allocator.{state_of};

use super::AddressAllocator;
use super::ranges::{Ranges, RangesIn};
use vm_ranges::{NodeState, RangeInclusive};

impl AddressAllocator {
    /// Returns an iterator over the allocated ranges, from the lowest to the highest. Its length is
    /// exact.
    ///
    /// It does not allocate.
    pub fn held_ranges(&self) -> Ranges<'_>
        ensures { result ≡ (state_of self.now).held }
    {
        let ranges = RangesIn {
            blocks: self.walk(),
            state: NodeState::Allocated,
        };
        Ranges {
            ranges,
            left: self.held_count as usize,
        }
    }

    /// Returns an iterator over the allocated ranges that have an address in common with `range`,
    /// from the lowest to the highest.
    ///
    /// Each range is returned whole. If `range` is in the space, it is free if and only if there is no
    /// item. It descends one path of the tree for each end of `range` and does not allocate.
    #[tactic(auto, using(crate::proofs::Walking::Windows::ranges_in_windows))]
    pub fn held_ranges_in(&self, range: &RangeInclusive) -> RangesIn<'_>
        ensures { result ≡ meeting range.now (state_of self.now).held }
    {
        RangesIn {
            blocks: self.walk_in(range),
            state: NodeState::Allocated,
        }
    }

    /// Returns `true` if exactly this range is allocated.
    ///
    /// Returns `false` for a part of an allocated range and for a free range. It descends one path
    /// of the tree and does not allocate.
    #[tactic(auto, using(crate::proofs::Walking::AddressSearches::held_by_key))]
    pub fn holds(&self, key: &RangeInclusive) -> bool
        ensures { IsTrue result ↔ Contains (state_of self.now).held key.now }
    {
        let Some(block) = self.tree.block_at(key.start()) else {
            return false;
        };
        block.state == NodeState::Allocated && block.key == *key
    }

    /// Returns the allocated range that contains an address, or `None` if the address is free or
    /// outside the space.
    ///
    /// It descends one path of the tree and does not allocate.
    #[tactic(auto, using(crate::proofs::Walking::AddressSearches::held_at_address))]
    pub fn held_at(&self, address: u64) -> Option<RangeInclusive>
        ensures { IsHeldAt (state_of self.now) address result }
    {
        let block = self.tree.block_at(address)?;
        match block.state {
            NodeState::Free => None,
            NodeState::Allocated => Some(block.key),
        }
    }

    /// Returns the number of allocated ranges.
    ///
    /// It takes constant time and does not allocate.
    #[tactic(auto, using(crate::proofs::Trees::Spaces::states))]
    pub fn held_count(&self) -> u64
        ensures value { result ≡ length (state_of self.now).held }
        ensures state { IsAddressState (state_of self.now) }
    {
        self.held_count
    }
}
