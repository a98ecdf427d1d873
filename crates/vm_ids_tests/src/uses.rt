//! Callers of calls that no library above makes. They guard against clauses from which a caller cannot prove
//! what it needs.
ghost use Rattle.std.specs.Prelude.{◌≡◌, ◌↔◌, drop, IsTrue, IfOk, MatchResult, Ok, Err};
ghost use Rattle.std.specs.Ordering.{eq_by_cmp};
ghost use Rattle.vm_ids.specs.IdOrder.{id_state_cmp};
ghost use Rattle.vm_ids.specs.Ids.{IsHeld, IsLowestNotHeld, held_ids, held_ids_in};
ghost use Rattle.vm_ids.specs.IdRequests.{AllocatesExactId, AllocatesIdIn, AllocatesIds, MakesWithHeldIds};

use crate::fixtures::{ENOUGH, expect_eq, expect_true};
use std::alloc::Global;
use vm_ids::{HeldIds, HeldIdsIn, IdAllocator};
use vm_ranges::Result;

/// Creates an allocator of which some ids are allocated.
fn with_allocated(alloc: Global, first: u32, last: u32, held: &[u32]) -> Result<IdAllocator>
    ensures { MakesWithHeldIds first last held.now result }
{
    IdAllocator::with_held(alloc, first, last, held)
}

/// Allocates the lowest free id.
fn lowest(ids: &mut IdAllocator) -> Result<u32>
    ensures { IfOk result (λ id. IsLowestNotHeld ids.old id) }
{
    ids.allocate_id()
}

/// Allocates the lowest free ids.
fn several(alloc: Global, ids: &mut IdAllocator, count: usize) -> Result<Vec<u32>>
    ensures { MatchResult result
        (λ list. AllocatesIds ids.old count (Ok list.items) ids.new)
        (λ error. AllocatesIds ids.old count (Err error) ids.new) }
{
    ids.allocate_ids(alloc, count)
}

/// Allocates an id.
fn chosen(ids: &mut IdAllocator, id: u32) -> Result<u32>
    ensures { AllocatesExactId ids.old id result ids.new }
{
    ids.allocate_exact(id)
}

/// Allocates the lowest free id of a window.
fn lowest_in(ids: &mut IdAllocator, first: u32, last: u32) -> Result<u32>
    ensures { AllocatesIdIn ids.old first last result ids.new }
{
    ids.allocate_in(first, last)
}

/// Returns `true` if an id is allocated.
fn is_taken(ids: &IdAllocator, id: u32) -> bool
    ensures { IsTrue result ↔ IsHeld ids.now id }
{
    ids.is_allocated(id)
}

/// Returns the allocated ids without the lowest ones.
fn after(ids: &IdAllocator, count: u64) -> HeldIds<'_>
    ensures { result ≡ drop count (held_ids ids.now) }
{
    let mut rest = ids.held_ids();
    rest.advance_by(count);
    rest
}

/// Returns the allocated ids from `first` to `last`.
fn between(ids: &IdAllocator, first: u32, last: u32) -> HeldIdsIn<'_>
    ensures { result ≡ held_ids_in first last ids.now }
{
    ids.held_ids_in(first, last)
}

/// Returns `true` if two allocators have the same range and the same ids.
fn are_same(one: &IdAllocator, other: &IdAllocator) -> bool
    ensures { result ≡ eq_by_cmp id_state_cmp one.now other.now }
{
    one == other
}

#[test]
fn uses_of_requests(rt: HostRuntime) {
    let mut ids = with_allocated(rt.alloc(), 0, 9, &[0]).expect(&rt, ENOUGH);
    expect_eq(&rt, lowest(&mut ids), Ok(1), "the lowest");
    expect_eq(&rt, chosen(&mut ids, 3), Ok(3), "the fourth");
    expect_eq(&rt, lowest_in(&mut ids, 3, 9), Ok(4), "from 3 on");
}

#[test]
fn uses_of_lists(rt: HostRuntime) {
    let mut ids = with_allocated(rt.alloc(), 0, 9, &[0, 2]).expect(&rt, ENOUGH);
    let all = several(rt.alloc(), &mut ids, 8).expect(&rt, ENOUGH);
    let others = [1, 3, 4, 5, 6, 7, 8, 9].as_slice();
    expect_true(&rt, all.as_slice() == others, "the others");
    expect_eq(&rt, after(&ids, 8).next(), Some(8), "the ninth");
    expect_eq(&rt, between(&ids, 3, 8).next_back(), Some(8), "up to 8");
}

#[test]
fn uses_of_queries(rt: HostRuntime) {
    let ids = with_allocated(rt.alloc(), 0, 9, &[9]).expect(&rt, ENOUGH);
    expect_true(&rt, is_taken(&ids, 9) && !is_taken(&ids, 10), "the last");
    expect_true(&rt, are_same(&ids, &ids), "itself");
}
