//! The allocation of a given id, or of an id between two others.
ghost use Rattle.std.specs.Prelude.{◌≡◌, ℕ, ◌≤◌, ◌<◌, ◌-◌, ◌++◌, Ok, IfOk, IfSome, IfNone, IsTrue, IsOk, OnOk, OnErr};
ghost use Rattle.std.specs.Ordering.{nat_cmp};
ghost use Rattle.std.specs.BTreeSet.{contains};
ghost use Rattle.std.specs.List.{range_with_len};
ghost use Rattle.vm_ids.specs.Ids.{IsNotHeld, holding_id};
ghost use Rattle.vm_ids.specs.IdRequests.{
  AllocatesExactId,
  AllocatesIdIn,
  IsNotHeldIn,
  IsLowestNotHeldIn,
  IsNoneNotHeldIn,
  NeedsMemory,
  HoldsId,
};

use super::{IdAllocator, bound_of};
use std::alloc::AllocError;
use vm_list::IdSet;
use vm_ranges::{Error, Result};

impl IdAllocator {
    /// Allocates this id, and returns it.
    ///
    /// All ids of the range below it count as allocated at some time. Those that never were are freed
    /// ids afterwards, and take one entry, however many they are. The call allocates memory only if
    /// the id is past the next id, or the ids right below and right above it are both freed ids.
    ///
    /// # Errors
    ///
    /// An error changes nothing. In this order:
    /// - `OutOfRange(id)` if the id is outside the range.
    /// - `ResourceNotAvailable` if the id is already allocated.
    /// - `OutOfMemory` if an allocation of memory fails.
    #[tactic(auto, using(crate::proofs::Ids::ExactIds::exact))]
    pub fn allocate_exact(&mut self, id: u32) -> Result<u32>
        // The id is held after the call, and it was not held before.
        ensures held { IfOk result (λ i. (i ≡ id) × (self.new ≡ holding_id id self.old)) }
        ensures free { IfOk result (λ i. IsNotHeld self.old i) }
        ensures succeeds { IsNotHeld self.old id → ¬ NeedsMemory self.old id → result ≡ Ok id }
        ensures unchanged { OnErr result (self.new ≡ self.old) }

        // Each result under its exact condition.
        ensures answer { AllocatesExactId self.old id result self.new }
    {
        if !self.id_in_range(id) {
            return Err(Error::OutOfRange(id));
        }
        if !self.was_allocated(id) {
            return self.allocate_new(id);
        }
        if !self.freed_ids.remove(id)? {
            return Err(Error::ResourceNotAvailable);
        }
        Ok(id)
    }

    /// Allocates an id of the range that was never allocated. The ids below it that were never allocated
    /// are freed ids afterwards.
    #[tactic(auto, using(crate::proofs::Ids::ExactIds::holds_new))]
    pub(super) fn allocate_new(&mut self, id: u32) -> Result<u32>
        requires { (self.old.bound ≤ id) × (id ≤ self.old.hi) }
        ensures answer { HoldsId self.old id result self.new }
        ensures memory { OnErr result (self.old.bound < id) }
    {
        let next = bound_of(self.next_id, self.range_end) as u32;
        add_between(&mut self.freed_ids, next, id)?;
        self.next_id = id.checked_add(1);
        Ok(id)
    }

    /// Allocates the lowest free id from `first` to `last`, both included, and returns it.
    ///
    /// The id is found in logarithmic time. It is allocated as by
    /// [`allocate_exact`](Self::allocate_exact).
    ///
    /// # Errors
    ///
    /// An error changes nothing. In this order:
    /// - `InvalidRange(first, last)` if `last` is below `first`.
    /// - `ResourceNotAvailable` if no id from `first` to `last` is in the range and free.
    /// - `OutOfMemory` if an allocation of memory fails.
    #[tactic(auto, using(crate::proofs::Ids::LowestIds::within))]
    pub fn allocate_in(&mut self, first: u32, last: u32) -> Result<u32>
        // The id is the lowest that is not held there. It is held after the call.
        ensures lowest { IfOk result (λ id. IsLowestNotHeldIn first last self.old id) }
        ensures held { IfOk result (λ id. self.new ≡ holding_id id self.old) }
        ensures succeeds { (id : ℕ) →
            IsLowestNotHeldIn first last self.old id → ¬ NeedsMemory self.old id → IsOk result }
        ensures unchanged { OnErr result (self.new ≡ self.old) }

        // Each result under its exact condition.
        ensures answer { AllocatesIdIn self.old first last result self.new }
    {
        let id = self.peek_in(first, last)?;
        self.allocate_exact(id)
    }

    /// Returns the lowest id from `first` to `last` that is in the range and free.
    #[tactic(auto, using(crate::proofs::Ids::LowestIds::finds))]
    pub(super) fn lowest_in(&self, first: u32, last: u32) -> Option<u32>
        requires { first ≤ last }
        ensures found { IfSome result (λ id. IsLowestNotHeldIn first last self.now id) }
        ensures none { IfNone result (IsNoneNotHeldIn first last self.now) }
    {
        // A freed id is below all ids that were never allocated.
        if let Some(freed) = self.freed_ids.first_from(first) {
            if freed <= last {
                return Some(freed);
            }
        }
        let Some(next) = self.next_id else {
            return None;
        };
        let id = next.max(first);
        if id > last || id > self.range_end {
            return None;
        }
        Some(id)
    }
}

/// Adds the ids from `from` up to below `to` to a set whose ids are below them. An error changes nothing.
fn add_between(ids: &mut IdSet, from: u32, to: u32) -> std::result::Result<(), AllocError>
    requires order { from ≤ to }
    requires above { (i : ℕ) → IsTrue (contains nat_cmp ids.old i) → i < from }
    ensures added { OnOk result (ids.new.keys ≡ ids.old.keys ++ range_with_len from (to - from)) }
    ensures unchanged { OnErr result (ids.new ≡ ids.old) }
    ensures succeeds { from ≡ to → IsOk result }
{
    if from == to {
        return Ok(());
    }
    ids.add_above(from, to - 1)
}
