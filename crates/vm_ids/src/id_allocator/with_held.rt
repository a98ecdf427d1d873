//! Creates an id allocator of its range and the list of its allocated ids.
ghost use Rattle.std.specs.Prelude.{◌≡◌, ◌≤◌, MatchOption, Ok, Err, IfOk, IsOk};
ghost use Rattle.vm_ids.specs.Ids.{IsIdState};
ghost use Rattle.vm_ids.specs.IdRequests.{MakesWithHeldIds, SkipsId, fault_of_held};

use super::IdAllocator;
use std::alloc::Global;
use vm_ranges::{Error, Result};

impl IdAllocator {
    /// Creates an allocator for the ids from `range_base` to `range_end`, both included, in which these
    /// ids are allocated. They are given in ascending order.
    ///
    /// It is equal to a new allocator after [`allocate_exact`](Self::allocate_exact) of each id. The ids
    /// can be untrusted input. All of them are checked before memory is allocated. Memory is allocated
    /// only for the ids that the list skips: those from `range_base` up to its last id that it does not
    /// contain. Ids that follow each other take one entry, however many they are.
    ///
    /// # Errors
    ///
    /// In this order:
    /// - `InvalidRange(range_base, range_end)` if `range_end` is below `range_base`.
    /// - The error of the first id that is wrong:
    ///   - `OutOfRange(id)` if the id is outside the range.
    ///   - `ResourceNotAvailable` if the id is not above the id before it.
    /// - `OutOfMemory` if an allocation of memory fails.
    pub fn with_held(alloc: Global, range_base: u32, range_end: u32, held: &[u32]) -> Result<Self>
        // A list without a wrong id needs no memory if it skips no id.
        ensures succeeds { range_base ≤ range_end → fault_of_held range_base range_end range_base held.now ≡ None
            → ¬ SkipsId range_base held.now → IsOk result }

        // Each result under its exact condition.
        ensures answer { MakesWithHeldIds range_base range_end held.now result }
        ensures state { IfOk result IsIdState }
    {
        let mut ids = IdAllocator::new(alloc, range_base, range_end)?;
        check_held(range_base, range_end, held)?;
        for id in held {
            ids.allocate_new(*id)?;
        }
        Ok(ids)
    }
}

/// Returns the error of the first id that is outside the range or not above the id before it.
#[tactic(auto, using(crate::proofs::Ids::WithHeld::checks))]
fn check_held(range_base: u32, range_end: u32, held: &[u32]) -> Result<()>
    ensures { MatchOption (fault_of_held range_base range_end range_base held.now)
        (result ≡ Ok tt) (λ e. result ≡ Err e) }
{
    let mut next = u64::from(range_base);
    for id in held {
        let id = *id;
        if id < range_base || id > range_end {
            return Err(Error::OutOfRange(id));
        }
        if u64::from(id) < next {
            return Err(Error::ResourceNotAvailable);
        }
        next = u64::from(id) + 1;
    }
    Ok(())
}
