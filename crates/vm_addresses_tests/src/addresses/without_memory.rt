//! Guards against a call that allocates, although its documentation promises the opposite.
//! tests/refused_memory makes every allocation after `fail_from_here` fail.
use super::*;
use crate::fixtures::{cloned, fail_from_here, full_leaf, gaps_exactly, holds_exactly, range};
use std::cmp::Ordering;
use vm_allocator::Conflict;

/// Returns the allocator of [0, 15] in which [2, 3], [6, 7] and [10, 11] are allocated.
fn three_held(rt: &(impl Abort + AllocGlobal)) -> AddressAllocator {
    let mut space = made(rt, 0, 16);
    let rows = &[
        (Exact(2, 1, 2), Range(2, 3)),
        (Exact(2, 1, 6), Range(6, 7)),
        (Exact(2, 1, 10), Range(10, 11)),
    ];
    replay(rt, &mut space, rows);
    space
}

/// Makes a clone, which allocates once. Its result shows whether the run is without memory.
fn clone_once(rt: &(impl Abort + AllocGlobal), space: &AddressAllocator) {
    let is_true = match space.try_clone(rt.alloc()) {
        Ok(clone) => clone == *space,
        Err(error) => error == Error::OutOfMemory,
    };
    expect_true(rt, is_true, "a clone, or no memory for it");
}

/// Makes the calls that look up allocated ranges: there are three.
fn look_up_held(rt: &impl Abort, space: &AddressAllocator) {
    let are_held = holds_exactly(space, &[(2, 3), (6, 7), (10, 11)]);
    expect_true(rt, are_held, "these three are held");
    let is_whole = space.holds(&range(rt, 6, 7)) && !space.holds(&range(rt, 6, 6));
    expect_true(rt, is_whole && space.held_count() == 3, "three whole ones");
    let is_found = space.held_at(7) == Some(range(rt, 6, 7)) && space.held_at(8).is_none();
    expect_true(rt, is_found, "the address of a range and of a gap");
    let last = space.held_ranges_in(&range(rt, 7, 10)).next_back();
    expect_eq(rt, last, Some(range(rt, 10, 11)), "the last one near a gap");
    let request = Exact(8, 1, 4).request().expect(rt, "it is a request");
    let conflict = Some(Conflict::Allocated(range(rt, 6, 7)));
    expect_eq(rt, space.conflict(request), conflict, request);
    let taken = space.peek(request);
    expect_eq(rt, taken, Err(Error::ResourceNotAvailable), request);
    for (request, start) in &[(First(2, 2), 0), (Last(2, 4), 12), (Exact(2, 1, 4), 4)] {
        let request = request.request().expect(rt, "it is a request");
        expect_eq(
            rt,
            space.peek(request),
            Ok(range(rt, *start, *start + 1)),
            request,
        );
    }
}

/// Makes the calls that look up gaps: there are four.
fn look_up_gaps(rt: &impl Abort, space: &AddressAllocator) {
    let are_clear = gaps_exactly(space, &[(0, 1), (4, 5), (8, 9), (12, 15)]);
    expect_true(rt, are_clear, "these four are gaps");
    let is_found = space.gap_at(8) == Some(range(rt, 8, 9)) && space.gap_at(7).is_none();
    expect_true(rt, is_found, "the address of a gap and of a range");
    let first = space.gaps_in(&range(rt, 7, 10)).next();
    expect_eq(
        rt,
        first,
        Some(range(rt, 8, 9)),
        "the gap between two ranges",
    );
    let longest = space.longest_gap_in(&range(rt, 0, 13));
    expect_eq(rt, longest, Some(range(rt, 0, 1)), "the lowest of four");
    let numbers = (space.longest_gap(), space.free_len(), space.gap_count());
    expect_eq(rt, numbers, (4, 10, 4), "the longest gap and all gaps");
}

/// Fills the space of three allocated ranges, and frees all.
fn fill(rt: &(impl Abort + AllocGlobal), space: &mut AddressAllocator) {
    let rows = &[
        (First(2, 1), Range(0, 1)),
        (LastIn(4, 1, (4, 20)), Range(12, 15)),
        (FirstIn(2, 1, (7, 10)), Range(8, 9)),
        // A range moves to a gap that it fills.
        (Free(8, 9), Range(8, 9)),
        (Move(0, 1, 8), Range(8, 9)),
        (Move(8, 9, 0), Range(0, 1)),
        (First(2, 1), Range(4, 5)),
        (Move(4, 5, 8), Range(8, 9)),
        // Free addresses are on no side, before, on both sides, and after.
        (Free(0, 1), Range(0, 1)),
        (Free(6, 7), Range(6, 7)),
        (Free(2, 3), Range(2, 3)),
        (Free(12, 15), Range(12, 15)),
        (Free(10, 11), Range(10, 11)),
        (Free(8, 9), Range(8, 9)),
        (First(16, 1), Range(0, 15)),
        (Free(0, 15), Range(0, 15)),
        // Splits of a leaf that has room.
        (First(1, 1), Range(0, 0)),
        (Last(1, 1), Range(15, 15)),
        (Exact(1, 1, 7), Range(7, 7)),
        (Free(0, 0), Range(0, 0)),
        (Free(15, 15), Range(15, 15)),
        (Free(7, 7), Range(7, 7)),
    ];
    replay(rt, space, rows);
    let is_whole = space.base() == 0 && space.end() == 15 && space.height() == 1;
    expect_true(rt, is_whole, "one clear block");
}

#[test]
fn filled_and_given_back(rt: HostRuntime) {
    let mut space = three_held(&rt);
    let other = cloned(&rt, &space);
    fail_from_here(rt.alloc());
    let are_equal = space == other && space.cmp(&other) == Ordering::Equal;
    expect_true(&rt, are_equal, "both are equal");
    look_up_held(&rt, &space);
    look_up_gaps(&rt, &space);
    fill(&rt, &mut space);
    clone_once(&rt, &space);
}

#[test]
fn refused(rt: HostRuntime) {
    let mut space = three_held(&rt);
    let rows = &[
        (Space(16, 0), Underflow),
        (Space(MAX, 2), Overflow),
        (First(0, 3), NoSize),
        (Last(1, 3), NoAlignment),
        (Exact(1, 4, 9), Unaligned),
        (Exact(1, 1, MAX), Overflow),
        (Exact(1, 1, 16), NotAvailable),
        (Exact(MAX, 1, 4), Overflow),
        (Exact(2, 1, 6), Held(6, 7)),
        (Exact(1, 1, 6), NotAvailable),
        (Exact(2, 1, 5), NotAvailable),
        (First(5, 1), NotAvailable),
        (Last(5, 1), NotAvailable),
        (FirstIn(2, 1, (5, 8)), NotAvailable),
        (LastIn(1, 1, (16, MAX)), NotAvailable),
        (ExactIn(2, 1, 6, (6, 6)), Held(6, 7)),
        (Free(4, 5), NotAvailable),
        (Move(4, 5, 8), NotAvailable),
        (Move(6, 7, 15), NotAvailable),
        (Move(6, 7, 6), Range(6, 7)),
        (Free(6, 6), NotAvailable),
        (Free(16, 17), NotAvailable),
    ];
    let mut highest = made(&rt, MAX - 15, 16);
    let ending_at_max = &[
        (Last(1, 1), Overflow),
        (Exact(2, 1, LAST), Overflow),
        (First(16, 1), Overflow),
    ];
    fail_from_here(rt.alloc());
    replay(&rt, &mut space, rows);
    replay(&rt, &mut highest, ending_at_max);
    clone_once(&rt, &space);
}

/// A split of a leaf without room allocates a leaf, a root and a list of nodes before the first change.
#[test]
fn split_or_unchanged(rt: HostRuntime) {
    let mut space = full_leaf(&rt);
    let before = cloned(&rt, &space);
    fail_from_here(rt.alloc());
    let answer = First(4, 1).ask(&mut space, rt.alloc());
    let is_true = match &answer {
        Ok(ends) => *ends == (31, 34) && space.height() == 2,
        Err(error) => *error == Error::OutOfMemory && space == before,
    };
    expect_true(&rt, is_true, answer);
}
