//! An allocator of ids from a range.
//!
//! The ids below the next id were allocated at some time. A set contains the ids that were freed
//! since, as runs of ids that follow each other. Freeing, cloning and skipping ids allocate memory.
ghost use Rattle.std.specs.Prelude.{◌≡◌, ℕ, ◌≤◌, ◌⊎◌, ◌↔◌, IsTrue, IsOk, IfOk, OnErr, Ok, Err};
ghost use Rattle.vm_ranges.specs.Cloning.{Clones};
ghost use Rattle.vm_ids.specs.Ids.{
  MakesIds,
  AllocatesId,
  PeeksId,
  FreesId,
  NextId,
  IsOfRange,
  WasEverAllocated,
  IsHeld,
  IsNotHeld,
  IsLowestNotHeld,
  IsIdState,
  holding_id,
  releasing_id,
  held_count,
  next_id_of,
  bound_of,
};

use std::alloc::Global;
use std::marker::Model;
use vm_list::IdSet;
use vm_ranges::{Error, Result};

mod comparing;
mod exact;
mod freed_ids;
mod held_ids;
mod held_ids_in;
mod peek;
mod several;
mod with_held;

pub use freed_ids::FreedIds;
pub use held_ids::HeldIds;
pub use held_ids_in::HeldIdsIn;

/// Allocates ids from a range, the lowest free id first.
///
/// An id is never allocated twice at the same time. It keeps the ids that were freed, and those that
/// were skipped below an allocated one. Ids that follow each other take one entry, however many they
/// are. For aligned blocks of ids, use an `AddressAllocator` whose addresses are ids.
#[derive(Debug, Drop)]
pub struct IdAllocator {
    pub(crate) range_base: u32,
    // The lowest id that was never allocated, or `None` if it would be past `u32::MAX`.
    pub(crate) next_id: Option<u32>,
    pub(crate) range_end: u32,
    // The ids that were allocated and are free now.
    pub(crate) freed_ids: IdSet,
}

impl Model for IdAllocator {
    ghost use Rattle.vm_ids.specs.Ids.{IdState, id_state_code, ids_of, AreIds};

    ghost Value = { IdState };

    ghost coded = { id_state_code };

    ghost view = { λ a. ids_of a.range_base a.range_end a.next_id a.freed_ids };

    ghost invariant = { λ a. AreIds a.range_base a.range_end a.next_id a.freed_ids };
}

/// Returns the next id. Returns `Overflow` if there is none, and `ResourceNotAvailable` if it is
/// past `range_end`.
fn next_in_range(next_id: Option<u32>, range_end: u32) -> Result<u32>
    ensures { NextId next_id range_end result }
{
    match next_id {
        None => Err(Error::Overflow),
        Some(id) if id > range_end => Err(Error::ResourceNotAvailable),
        Some(id) => Ok(id),
    }
}

/// Returns the bound of the ids: an id of the range was allocated at some time if and only if it is
/// below the bound.
pub(crate) fn bound_of(next: Option<u32>, end: u32) -> u64
    ensures { result ≡ bound_of next end }
{
    match next {
        None => u64::from(end) + 1,
        Some(next) => u64::from(next),
    }
}

impl IdAllocator {
    /// Creates an allocator for the ids from `range_base` to `range_end`, both included. All of
    /// them are free.
    ///
    /// It does not allocate memory.
    ///
    /// # Errors
    ///
    /// - `InvalidRange(range_base, range_end)` if `range_end` is below `range_base`.
    #[tactic(auto, using(crate::proofs::Ids::IdFields::makes))]
    pub fn new(alloc: Global, range_base: u32, range_end: u32) -> Result<Self>
        ensures answer { MakesIds range_base range_end result }
        ensures succeeds { range_base ≤ range_end → IsOk result }
    {
        if range_end < range_base {
            return Err(Error::InvalidRange(range_base.into(), range_end.into()));
        }
        Ok(IdAllocator {
            range_base,
            next_id: Some(range_base),
            range_end,
            freed_ids: IdSet::new(alloc),
        })
    }

    /// Returns the lowest id of the range.
    #[tactic(auto, unfolding(crate::specs::Ids::ids_of))]
    pub const fn range_base(&self) -> u32
        ensures { result ≡ self.now.lo }
    {
        self.range_base
    }

    /// Returns the highest id of the range.
    #[tactic(auto, unfolding(crate::specs::Ids::ids_of))]
    pub const fn range_end(&self) -> u32
        ensures { result ≡ self.now.hi }
    {
        self.range_end
    }

    /// Returns the lowest id that was never allocated, or `None` if it would be past `u32::MAX`.
    ///
    /// It is right after the range if all ids of the range were allocated at some time.
    #[tactic(auto, using(crate::proofs::Ids::IdFields::nexts))]
    pub const fn next_id(&self) -> Option<u32>
        ensures { result ≡ next_id_of self.now }
    {
        self.next_id
    }

    /// Returns a copy. It has the same range, the same allocated ids and the same ids that were
    /// allocated at some time.
    ///
    /// # Errors
    ///
    /// - `OutOfMemory` if an allocation of memory fails.
    #[tactic(auto, using(crate::proofs::Ids::IdFields::clones))]
    pub fn try_clone(&self, _alloc: Global) -> Result<Self>
        ensures { Clones self.now result }
    {
        let freed_ids = self.freed_ids.try_clone()?;
        Ok(IdAllocator {
            range_base: self.range_base,
            next_id: self.next_id,
            range_end: self.range_end,
            freed_ids,
        })
    }

    /// Allocates the lowest free id of the range, and returns it.
    ///
    /// It does not allocate memory, and always succeeds if an id is free.
    ///
    /// # Errors
    ///
    /// An error changes nothing.
    /// - `Overflow` if all ids are allocated and the range ends at `u32::MAX`.
    /// - `ResourceNotAvailable` if all ids are allocated and the range ends below `u32::MAX`.
    #[tactic(auto, using(crate::proofs::Ids::AllocatedIds::allocates))]
    #[inline(always)]
    pub fn allocate_id(&mut self) -> Result<u32>
        // The id is the lowest that is not held. It is held after the call, and nothing else changes.
        ensures lowest { IfOk result (λ id. IsLowestNotHeld self.old id) }
        ensures held { IfOk result (λ id. self.new ≡ holding_id id self.old) }
        ensures succeeds { (id : ℕ) → IsNotHeld self.old id → IsOk result }
        ensures unchanged { OnErr result (self.new ≡ self.old) }

        // Each result under its exact condition.
        ensures answer { AllocatesId self.old result self.new }
    {
        if let Some(id) = self.freed_ids.pop_first() {
            return Ok(id);
        }
        let id = next_in_range(self.next_id, self.range_end)?;
        self.next_id = id.checked_add(1);
        Ok(id)
    }

    /// Returns the id that [`allocate_id`](Self::allocate_id) would allocate, and does not allocate
    /// it.
    ///
    /// # Errors
    ///
    /// Those of [`allocate_id`](Self::allocate_id).
    #[tactic(auto, using(crate::proofs::Ids::AllocatedIds::peeks, crate::proofs::Ids::IdFields::states))]
    pub fn peek_id(&self) -> Result<u32>
        ensures answer { PeeksId self.now result }
        ensures succeeds { (id : ℕ) → IsNotHeld self.now id → IsOk result }
        ensures state { IsIdState self.now }
    {
        match self.freed_ids.first_from(0) {
            Some(id) => Ok(id),
            None => next_in_range(self.next_id, self.range_end),
        }
    }

    /// Returns `true` if the id is allocated. Returns `false` for an id outside the range.
    #[tactic(auto, using(crate::proofs::Ids::IdFields::holdings))]
    pub fn is_allocated(&self, id: u32) -> bool
        ensures value { IsTrue result ↔ IsHeld self.now id }
        ensures state { IsIdState self.now }
    {
        self.was_allocated(id) && !self.freed_ids.contains(id)
    }

    /// Returns the number of allocated ids.
    ///
    /// It does not visit the ids, and does not allocate memory.
    #[tactic(auto, using(crate::proofs::Ids::IdCounts::counts, crate::proofs::Ids::IdFields::states))]
    pub fn held_count(&self) -> u64
        ensures value { result ≡ held_count self.now }
        ensures state { IsIdState self.now }
    {
        let ever_allocated = bound_of(self.next_id, self.range_end) - u64::from(self.range_base);
        ever_allocated - self.freed_ids.len()
    }

    /// Frees an allocated id, and returns it.
    ///
    /// # Errors
    ///
    /// An error changes nothing. In this order:
    /// - `OutOfRange(id)` if the id is outside the range.
    /// - `NeverAllocated(id)` if the id was never allocated.
    /// - `AlreadyReleased(id)` if the id was freed and was not allocated since.
    /// - `OutOfMemory` if an allocation of memory fails.
    #[tactic(auto, using(crate::proofs::Ids::FreedIds::frees, crate::proofs::Callers::freed_id_state))]
    pub fn free_id(&mut self, id: u32) -> Result<u32>
        // A held id is freed unless memory runs out, and nothing else changes.
        ensures held { IsHeld self.old id → (result ≡ Ok id) ⊎ (result ≡ Err Error.OutOfMemory) }
        ensures freed { IfOk result (λ freed. (freed ≡ id) × (self.new ≡ releasing_id id self.old)) }
        ensures unchanged { OnErr result (self.new ≡ self.old) }

        // Each result under its exact condition.
        ensures answer { FreesId self.old id result self.new }
    {
        if !self.id_in_range(id) {
            return Err(Error::OutOfRange(id));
        }
        if !self.was_allocated(id) {
            return Err(Error::NeverAllocated(id));
        }
        // The set allocates memory only for an id that it does not contain yet.
        if self.freed_ids.insert(id)? {
            Ok(id)
        } else {
            Err(Error::AlreadyReleased(id))
        }
    }

    /// Returns `true` if the id is in the range.
    #[tactic(auto, using(crate::proofs::Ids::IdFields::states), unfolding(crate::specs::Ids::ids_of))]
    fn id_in_range(&self, id: u32) -> bool
        ensures value { IsTrue result ↔ IsOfRange self.now id }
        ensures state { IsIdState self.now }
    {
        self.range_base <= id && id <= self.range_end
    }

    /// Returns `true` if the id was allocated at some time.
    #[tactic(auto, using(crate::proofs::Ids::IdFields::states), unfolding(crate::specs::Ids::ids_of))]
    fn was_allocated(&self, id: u32) -> bool
        ensures value { IsTrue result ↔ WasEverAllocated self.now id }
        ensures state { IsIdState self.now }
    {
        match self.next_id {
            Some(next_id) => self.range_base <= id && id < next_id,
            None => self.id_in_range(id),
        }
    }
}
