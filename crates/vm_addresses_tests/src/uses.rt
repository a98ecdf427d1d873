//! Callers of calls that no library above makes. They guard against clauses from which a caller cannot prove
//! what it needs.
ghost use Rattle.std.specs.Prelude.{◌≡◌, option_map, ◌↔◌, ◌≤◌, ◌+◌, ◌*◌, ℕ, length, map, false, Err, IsTrue, IsOk, IfOk};
ghost use Rattle.std.specs.List.{Contains};
ghost use Rattle.std.specs.declared.cmp.Ordering.TheVariants.{Less};
ghost use Rattle.vm_allocator.specs.Range.{Range, IsIn};
ghost use Rattle.vm_allocator.specs.Address.{IsClear};
ghost use Rattle.vm_allocator.specs.Allocator.{state_of, made_state};
ghost use Rattle.vm_allocator.specs.Answer.{FillsGap};
ghost use Rattle.vm_allocator.specs.Comparison.{state_cmp};
ghost use Rattle.vm_allocator.specs.Conflicts.{ConflictDecides, IsConflict};
ghost use Rattle.vm_allocator.specs.Counts.GapSearch.{SearchesGaps};
ghost use Rattle.vm_allocator.specs.Moves.{MovesRange};
ghost use Rattle.vm_allocator.specs.Peeks.{Peeks};
ghost use Rattle.vm_allocator.specs.ListConflicts.{fault_at, list_error};
ghost use Rattle.vm_allocator.specs.Queries.{block_parts, count_if, gaps_of, longest_part, FindsLongestPart};
ghost use Rattle.vm_allocator.specs.Several.{IsTrueAfter};
ghost use Rattle.vm_allocator.specs.SpaceBlocks.{blocks_of};
ghost use Rattle.vm_allocator.specs.Alignment.{AlignsUp};
ghost use Rattle.vm_allocator.specs.Making.{MakesRange};
ghost use Rattle.serde_json.specs.View.{view};
ghost use Rattle.vm_allocator.specs.RangeValues.{EncodesRange};
ghost use Rattle.vm_allocator.specs.Request.{request_for, MakesConstraint, MakesLimits};
ghost use Rattle.vm_allocator.specs.Saving.{Reads};
ghost use Rattle.vm_allocator.specs.NodesRead.{EndsNode, MakesOfNodes};
ghost use Rattle.vm_allocator.specs.SavedTrees.{HasHeldKeys, HasTreeOf};
ghost use Rattle.vm_allocator.specs.Values.AllocatorValues.{EncodesRepaired};

use crate::fixtures::{ENOUGH, expect_eq, expect_true, made, range};
use serde_json::Value;
use std::alloc::Global;
use std::cmp::Ordering;
use std::process::Abort;
use vm_allocator::allocation_engine::{NodeState, align_up};
use vm_allocator::{
    AddressAllocator, AllBlocks, AllocPolicy, Condition, Conflict, Constraint, ListConflict,
    ListError, RangeInclusive, ReadNodes, Result, SavedError, Side, ValueError,
};

/// Returns the lowest multiple from an address on.
fn multiple(address: u64, alignment: u64) -> Result<u64>
    ensures { AlignsUp address alignment result }
{
    align_up(address, alignment)
}

/// Creates a range.
fn between(start: u64, end: u64) -> Result<RangeInclusive>
    ensures { MakesRange start end result }
{
    RangeInclusive::new(start, end)
}

/// Reads a range.
fn read(alloc: Global, value: &Value) -> std::result::Result<RangeInclusive, ValueError>
    ensures { Reads (EncodesRange (view value.now)) result }
{
    RangeInclusive::from_value(alloc, value)
}

/// Reads the allocator of a saved value with repairs.
fn repaired(alloc: Global, value: &Value) -> std::result::Result<AddressAllocator, ValueError>
    ensures { Reads (EncodesRepaired (view value.now)) (made_state result) }
{
    AddressAllocator::from_value_repaired(alloc, value)
}

/// Creates a request for a range at `start`.
fn request_at(size: u64, align: u64, start: u64) -> Result<Constraint>
    ensures { MakesConstraint (request_for size align (AllocPolicy.ExactMatch start)) result }
{
    Constraint::new(size, align, AllocPolicy::ExactMatch(start))
}

/// Limits a request.
fn limited(request: Constraint, low: u64, high: u64) -> Result<Constraint>
    ensures { MakesLimits request low high result }
{
    request.within_limits(low, high)
}

/// Returns what an `ExactMatch` request conflicts with: nothing if and only if its place is free.
fn blocker(space: &AddressAllocator, request: Constraint) -> Option<Conflict>
    ensures { ConflictDecides (state_of space.now) request result }
{
    space.conflict(request)
}

/// Returns whether a request would get a range now.
fn would_fit(space: &AddressAllocator, request: Constraint) -> Result<RangeInclusive>
    ensures { Peeks (state_of space.now) request result }
{
    space.peek(request)
}

/// Returns why a range of a list is refused, if it is.
fn refused_in_list(
    space: &RangeInclusive,
    held: &[RangeInclusive],
    index: usize,
) -> Option<ListConflict>
    ensures { option_map list_error result ≡ fault_at space.now held.now index }
{
    AddressAllocator::list_conflict(space, held, index)
}

/// Returns the longest part of a gap in a window.
fn longest_part_of(space: &AddressAllocator, window: &RangeInclusive) -> Option<RangeInclusive>
    ensures { count_if result ≡ longest_part window.now (gaps_of (state_of space.now)) }
{
    space.longest_gap_in(window)
}

/// Allocates a range for each request, or none.
fn allocate_each(alloc: Global, space: &mut AddressAllocator, requests: &[Constraint]) -> bool
    ensures { result ≡ false → state_of space.new ≡ state_of space.old }
{
    space.allocate_all(alloc, requests).is_ok()
}

/// Returns what is in the way of a request after earlier ones.
fn later_conflict(
    alloc: Global,
    space: &mut AddressAllocator,
    earlier: &[Constraint],
    request: Constraint,
) -> Result<Option<Conflict>>
    ensures reason { IfOk result (λ conflict.
        IsTrueAfter (state_of space.old) earlier.now (λ state. IsConflict state request conflict)) }
    ensures state { state_of space.new ≡ state_of space.old }
{
    match space.conflict_after(alloc, earlier, request) {
        Ok(conflict) => Ok(conflict),
        Err(failed) => Err(failed.error),
    }
}

/// Returns the longest part of a gap in a window after earlier requests.
fn later_part(
    alloc: Global,
    space: &mut AddressAllocator,
    earlier: &[Constraint],
    window: &RangeInclusive,
) -> Result<Option<RangeInclusive>>
    ensures part { IfOk result (λ part. IsTrueAfter (state_of space.old) earlier.now
        (λ state. FindsLongestPart window.now (gaps_of state) part)) }
    ensures state { state_of space.new ≡ state_of space.old }
{
    match space.longest_gap_after(alloc, earlier, window) {
        Ok(part) => Ok(part),
        Err(failed) => Err(failed.error),
    }
}

/// Allocates a whole gap, which needs no memory.
fn fill(alloc: Global, space: &mut AddressAllocator, request: Constraint) -> Result<RangeInclusive>
    ensures { (start : ℕ) → FillsGap (state_of space.old) request start → IsOk result }
{
    space.allocate_constraint(alloc, request)
}

/// Creates the allocator of a map of free memory.
fn of_free(
    alloc: Global,
    free: &[RangeInclusive],
) -> std::result::Result<AddressAllocator, ListError>
    ensures { IfOk result (λ space. (x : ℕ) →
        IsClear (state_of space) x ↔ ((r : Range) × Contains free.now r × IsIn r x)) }
{
    AddressAllocator::with_free(alloc, free)
}

/// Returns the blocks.
fn parts(space: &AddressAllocator) -> AllBlocks<'_>
    ensures { result ≡ map block_parts (blocks_of (state_of space.now)) }
{
    space.blocks()
}

/// Allocates the highest range. Returns the height of the tree before, the result, and the number of nodes that are
/// entered.
fn entered(
    alloc: Global,
    space: &mut AddressAllocator,
    size: u64,
) -> (u64, Result<RangeInclusive>, u64)
    ensures few { result.2 ≤ 2 * length (state_of space.old).held + 1 }
    ensures path { IsOk result.1 → (1 ≤ result.2) × (result.0 ≤ 2 * result.2) }
{
    let height = space.height();
    let (answer, count) = space.allocate_counted(alloc, size, 1, AllocPolicy::LastMatch);
    (height, answer, count)
}

/// Allocates the lowest range. Returns the height of the tree before, the result, and the number of nodes that are
/// entered.
fn searched(
    alloc: Global,
    space: &mut AddressAllocator,
    size: u64,
    align: u64,
) -> (u64, Result<RangeInclusive>, u64)
    ensures { SearchesGaps result.0 (state_of space.old)
        (request_for size align AllocPolicy.FirstMatch) result.1 result.2 }
{
    let height = space.height();
    let (answer, count) = space.allocate_counted(alloc, size, align, AllocPolicy::FirstMatch);
    (height, answer, count)
}

/// Moves a range.
fn moved(
    alloc: Global,
    space: &mut AddressAllocator,
    key: &RangeInclusive,
    request: Constraint,
) -> Result<RangeInclusive>
    ensures { MovesRange (state_of space.old) key.now request result (state_of space.new) }
{
    space.move_constraint(alloc, key, request)
}

/// Returns whether an allocator comes first.
fn comes_first(space: &AddressAllocator, other: &AddressAllocator) -> bool
    ensures { IsTrue result ↔ (state_cmp (state_of space.now) (state_of other.now) ≡ Less) }
{
    space.cmp(other) == Ordering::Less
}

/// Returns the number of allocated ranges.
fn listed(space: &AddressAllocator) -> usize
    ensures { result ≡ length (state_of space.now).held }
{
    space.held_ranges().size_hint().0
}

/// Begins a node, which fails after an error.
fn begin(nodes: &mut ReadNodes) -> bool
    ensures { (e : SavedError) → nodes.old ≡ Err e → (result ≡ false) × (nodes.new ≡ Err e) }
{
    nodes.begin().is_ok()
}

/// Ends a node.
fn end(
    nodes: &mut ReadNodes,
    side: Side,
    key: RangeInclusive,
    state: NodeState,
    height: u64,
) -> std::result::Result<(), SavedError>
    ensures { EndsNode side (record { key = key; state = state }) height nodes.old result nodes.new }
{
    nodes.end(side, key, state, height)
}

/// Creates the allocator of nodes.
fn of_nodes(
    alloc: Global,
    space: RangeInclusive,
    nodes: &ReadNodes,
) -> std::result::Result<AddressAllocator, SavedError>
    ensures { MakesOfNodes (HasTreeOf space) Condition.Tree nodes.now (made_state result) }
{
    AddressAllocator::from_nodes(alloc, space, nodes)
}

/// Creates the allocator of the allocated keys of nodes.
fn of_keys(
    alloc: Global,
    space: RangeInclusive,
    nodes: &ReadNodes,
) -> std::result::Result<AddressAllocator, SavedError>
    ensures { MakesOfNodes (HasHeldKeys space) Condition.Inside nodes.now (made_state result) }
{
    AddressAllocator::from_nodes_repaired(alloc, space, nodes)
}

#[test]
fn uses_of_ranges(rt: HostRuntime) {
    expect_eq(&rt, multiple(9, 8), Ok(16), "the lowest multiple");
    expect_eq(&rt, between(1, 2), Ok(range(&rt, 1, 2)), "two addresses");
    let saved = range(&rt, 1, 2).to_value(rt.alloc()).expect(&rt, ENOUGH);
    expect_eq(
        &rt,
        read(rt.alloc(), &saved),
        Ok(range(&rt, 1, 2)),
        "the same",
    );
    let high = request_at(8, 8, 8).expect(&rt, "it is a request");
    expect_eq(&rt, limited(high, 0, u64::MAX), Ok(high), "no limit");
}

/// Creates the request for the upper half of [0, 15].
fn upper_half(rt: &impl Abort) -> Constraint {
    request_at(8, 8, 8).expect(rt, "it is a request")
}

#[test]
fn uses_of_requests(rt: HostRuntime) {
    let mut space = made(&rt, 0, 16);
    let high = upper_half(&rt);
    expect_eq(&rt, blocker(&space, high), None, "the upper half");
    let upper = range(&rt, 8, 15);
    expect_eq(&rt, would_fit(&space, high), Ok(upper), "it would fit");
    let same = (1, Ok(upper), 1);
    expect_eq(&rt, entered(rt.alloc(), &mut space, 8), same, "the same");
    let low = (1, Ok(range(&rt, 0, 3)), 1);
    expect_eq(
        &rt,
        searched(rt.alloc(), &mut space, 4, 2),
        low,
        "the start",
    );
    let held = Conflict::Allocated(range(&rt, 8, 15));
    expect_eq(&rt, blocker(&space, high), Some(held), "it is not free");
    let window = range(&rt, 1, 9);
    let longest = Some(range(&rt, 4, 7));
    expect_eq(&rt, longest_part_of(&space, &window), longest, "a gap");
    let twice = [window, window];
    let why = Some(ListConflict::NotAfter(window));
    expect_eq(
        &rt,
        refused_in_list(&window, &twice, 1),
        why,
        "a repeated range",
    );
    let all = allocate_each(rt.alloc(), &mut space, &[high]);
    expect_true(&rt, !all, "nor in a list");
}

#[test]
fn uses_of_earlier_requests(rt: HostRuntime) {
    let mut space = made(&rt, 0, 16);
    let earlier = [upper_half(&rt)];
    let found = later_conflict(rt.alloc(), &mut space, &earlier, earlier[0]).expect(&rt, ENOUGH);
    let upper = Conflict::Allocated(range(&rt, 8, 15));
    expect_eq(&rt, found, Some(upper), "the earlier range");
    let window = range(&rt, 4, 15);
    let part = later_part(rt.alloc(), &mut space, &earlier, &window).expect(&rt, ENOUGH);
    expect_eq(&rt, part, Some(range(&rt, 4, 7)), "below the earlier range");
}

#[test]
fn uses_of_changes(rt: HostRuntime) {
    let mut space = made(&rt, 0, 16);
    let high = fill(rt.alloc(), &mut space, upper_half(&rt)).expect(&rt, ENOUGH);
    let all = moved(rt.alloc(), &mut space, &high, upper_half(&rt));
    expect_eq(&rt, all, Ok(high), "where it is");
}

#[test]
fn uses_of_lists(rt: HostRuntime) {
    let free = [range(&rt, 0, 3), range(&rt, 12, 15)];
    let space = of_free(rt.alloc(), &free).expect(&rt, ENOUGH);
    expect_eq(&rt, listed(&space), 1, "between them");
    let last = (range(&rt, 12, 15), NodeState::Free);
    expect_eq(&rt, parts(&space).next_back(), Some(last), "a gap");
    let other = made(&rt, 0, 16);
    let saved = other.to_value(rt.alloc()).expect(&rt, ENOUGH);
    expect_true(&rt, repaired(rt.alloc(), &saved).is_ok(), "a fresh space");
    expect_true(&rt, comes_first(&space, &other), "a shorter first gap");
}

#[test]
fn uses_of_nodes(rt: HostRuntime) {
    let mut nodes = ReadNodes::new(rt.alloc());
    expect_true(&rt, begin(&mut nodes), "the root");
    let ended = end(
        &mut nodes,
        Side::Left,
        range(&rt, 0, 15),
        NodeState::Allocated,
        1,
    );
    expect_eq(&rt, ended, Ok(()), "the root");
    let full = of_nodes(rt.alloc(), range(&rt, 0, 15), &nodes).expect(&rt, ENOUGH);
    expect_eq(&rt, listed(&full), 1, "the whole space");
    let same = of_keys(rt.alloc(), range(&rt, 0, 15), &nodes).expect(&rt, ENOUGH);
    expect_true(&rt, same == full, "the same space");
    let mut nodes = ReadNodes::new(rt.alloc());
    for depth in 0..52 {
        expect_eq(&rt, begin(&mut nodes), depth < 50, depth);
    }
}
