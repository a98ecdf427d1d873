//! Frees an allocated range.
ghost use Rattle.std.specs.Prelude.{◌≡◌, OnErr};
ghost use Rattle.vm_ranges.specs.Address.{IsAddressState};
ghost use Rattle.vm_ranges.specs.Answer.{Frees};
ghost use Rattle.vm_space.specs.Shape.{height_of};
ghost use Rattle.vm_addresses.specs.Counts.Steps.{IsFreeCount};
ghost use Rattle.vm_addresses.specs.Allocator.{state_of};

use super::AddressAllocator;
use vm_ranges::{Error, RangeInclusive, Result};

impl AddressAllocator {
    /// Frees like [`free`](Self::free), and also returns the number of tree nodes that the call
    /// entered.
    ///
    /// The count is at most 3h if h is the [`height`](Self::height) before the call, and at least 1 for a
    /// success.
    ///
    /// # Errors
    ///
    /// Those of [`free`](Self::free).
    #[tactic(auto, using(crate::proofs::Trees::Freeing::freeing))]
    pub fn free_counted(&mut self, key: &RangeInclusive) -> (Result<()>, u64)
        ensures answer { Frees (state_of self.old) key.now result.0 (state_of self.new) }
        ensures unchanged { OnErr result.0 (self.new ≡ self.old) }
        ensures steps { IsFreeCount (height_of self.old) result.0 result.1 }
        ensures state { IsAddressState (state_of self.new) }
    {
        if key.start() < self.space.start() || self.space.end() < key.start() {
            return (Err(Error::ResourceNotAvailable), 0);
        }
        // Proof: the tree is valid.
        self.tree.facts();
        let mut count = 0;
        let Some(joined) = self.tree.free(key, &mut count) else {
            return (Err(Error::ResourceNotAvailable), count);
        };
        self.held_count -= 1;
        self.gap_count -= joined;
        self.gap_count += 1;
        self.free_len += key.len();
        (Ok(()), count)
    }
}
