//! Tests of address allocators.
//!
//! They guard against definitions with another meaning than the documentation of `allocate` and
//! `free`: which range is chosen, and which of several errors is returned.
use crate::fixtures::{expect_eq, expect_true, made};
use AllocPolicy::{ExactMatch, FirstMatch, LastMatch};
use Call::{Exact, ExactIn, Find, First, FirstIn, Free, Last, LastIn, Move, Space};
use Expected::{Held, NoAlignment, NoSize, NotAvailable, Overflow, Range, Unaligned, Underflow};
use std::alloc::Global;
use std::process::Abort;
use vm_allocator::allocation_engine::NodeState::Allocated;
use vm_allocator::{AddressAllocator, AllocPolicy, Constraint, Error, RangeInclusive, Result};

mod by_name;
mod differences;
mod ends;
mod order;
mod with_held;
mod without_memory;

const MAX: u64 = u64::MAX;

/// The highest address that can be allocated.
const LAST: u64 = MAX - 1;

/// Half of all addresses.
const HALF: u64 = 1 << 63;

/// A call of an allocator.
#[derive(Clone, Copy)]
enum Call {
    /// Replaces the allocator by a new one, with a base and a size.
    Space(u64, u64),
    /// Allocates the lowest range of a size and an alignment.
    First(u64, u64),
    /// Allocates the highest range of a size and an alignment.
    Last(u64, u64),
    /// Allocates a range by its size, its alignment and its start.
    Exact(u64, u64, u64),
    /// Allocates like the three calls above, in a window by its first and its last address.
    FirstIn(u64, u64, (u64, u64)),
    LastIn(u64, u64, (u64, u64)),
    ExactIn(u64, u64, u64, (u64, u64)),
    /// Frees a range by its first and its last address.
    Free(u64, u64),
    /// Moves a range, by its first and its last address, to a start.
    Move(u64, u64, u64),
    /// Looks up the allocated range that contains a range, by the first and the last address of this.
    Find(u64, u64),
}

/// The first and the last address of the new space, or of the range that is allocated, freed, moved or found.
type Answer = Result<(u64, u64)>;

/// The expected result of a call.
#[derive(Clone, Copy)]
enum Expected {
    /// The first and the last address of the space or range.
    Range(u64, u64),
    /// An error because exactly this range is allocated.
    Held(u64, u64),
    NotAvailable,
    Overflow,
    Underflow,
    Unaligned,
    NoAlignment,
    NoSize,
}

impl Expected {
    fn answer(self) -> Answer {
        match self {
            Range(start, end) => Ok((start, end)),
            Held(start, end) => {
                let range = RangeInclusive::new(start, end)?;
                Err(Error::InvalidStateTransition(range, Allocated))
            }
            NotAvailable => Err(Error::ResourceNotAvailable),
            Overflow => Err(Error::Overflow),
            Underflow => Err(Error::Underflow),
            Unaligned => Err(Error::UnalignedAddress),
            NoAlignment => Err(Error::InvalidAlignment),
            NoSize => Err(Error::InvalidSize(0)),
        }
    }
}

impl Call {
    /// Makes the call.
    fn ask(self, space: &mut AddressAllocator, alloc: Global) -> Answer {
        match self {
            Space(base, size) => replace(space, alloc, base, size),
            Free(start, end) => free(space, start, end),
            Move(start, end, to) => move_range(space, alloc, start, end, to),
            Find(start, end) => find(space, start, end),
            First(..) | Last(..) | Exact(..) => {
                let (size, alignment, policy) = self.asked();
                ends_of(space.allocate(alloc, size, alignment, policy))
            }
            FirstIn(..) | LastIn(..) | ExactIn(..) => {
                ends_of(space.allocate_constraint(alloc, self.request()?))
            }
        }
    }

    /// Returns the size, the alignment and the policy of a call that allocates.
    fn asked(self) -> (u64, u64, AllocPolicy) {
        match self {
            First(size, alignment) | FirstIn(size, alignment, _) => (size, alignment, FirstMatch),
            Last(size, alignment) | LastIn(size, alignment, _) => (size, alignment, LastMatch),
            Exact(size, alignment, start) | ExactIn(size, alignment, start, _) => {
                (size, alignment, ExactMatch(start))
            }
            Space(..) | Free(..) | Move(..) | Find(..) => (0, 0, FirstMatch),
        }
    }

    /// Returns the request of a call that allocates.
    fn request(self) -> Result<Constraint> {
        let (size, alignment, policy) = self.asked();
        let request = Constraint::new(size, alignment, policy)?;
        match self {
            FirstIn(_, _, (first, last))
            | LastIn(_, _, (first, last))
            | ExactIn(_, _, _, (first, last)) => {
                Ok(request.within(RangeInclusive::new(first, last)?))
            }
            _ => Ok(request),
        }
    }
}

/// Returns the first and the last address of an allocated range.
fn ends_of(answer: Result<RangeInclusive>) -> Answer {
    let range = answer?;
    Ok((range.start(), range.end()))
}

/// Replaces an allocator by a new one.
fn replace(space: &mut AddressAllocator, alloc: Global, base: u64, size: u64) -> Answer {
    *space = AddressAllocator::new(alloc, base, size)?;
    Ok((space.base(), space.end()))
}

/// Moves a range to another start.
fn move_range(
    space: &mut AddressAllocator,
    alloc: Global,
    start: u64,
    end: u64,
    to: u64,
) -> Answer {
    let range = RangeInclusive::new(start, end)?;
    ends_of(space.move_range(alloc, &range, to))
}

/// Returns the allocated range that contains a range.
fn find(space: &AddressAllocator, start: u64, end: u64) -> Answer {
    let key = RangeInclusive::new(start, end)?;
    match space.held_at(start) {
        Some(held) if held.contains(&key) => Ok((held.start(), held.end())),
        _ => Err(Error::ResourceNotAvailable),
    }
}

/// Frees a range.
fn free(space: &mut AddressAllocator, start: u64, end: u64) -> Answer {
    space.free(&RangeInclusive::new(start, end)?)?;
    Ok((start, end))
}

/// Makes the calls in turn, and checks their results.
fn replay(
    rt: &(impl Abort + AllocGlobal),
    space: &mut AddressAllocator,
    rows: &[(Call, Expected)],
) {
    for (row, (call, want)) in rows.iter().enumerate() {
        expect_eq(rt, call.ask(space, rt.alloc()), want.answer(), row);
    }
}

/// Makes the calls in turn on a new allocator of a space.
fn replay_in(rt: &(impl Abort + AllocGlobal), base: u64, size: u64, rows: &[(Call, Expected)]) {
    replay(rt, &mut made(rt, base, size), rows);
}

#[test]
fn test_new_fails_overflow(rt: HostRuntime) {
    replay_in(&rt, 0, 1, &[(Space(MAX, 0x100), Overflow)]);
}

#[test]
fn test_new_fails_size_zero(rt: HostRuntime) {
    replay_in(&rt, 0, 1, &[(Space(0x1000, 0), Underflow)]);
}

#[test]
fn test_allocate_fails_alignment_zero(rt: HostRuntime) {
    let rows = &[(First(0x100, 0), NoAlignment)];
    replay_in(&rt, 0x1000, 0x10000, rows);
}

#[test]
fn test_allocate_fails_alignment_non_power_of_two(rt: HostRuntime) {
    let rows = &[(First(0x100, 200), NoAlignment)];
    replay_in(&rt, 0x1000, 0x10000, rows);
}

#[test]
fn test_allocate_with_alignment_first_ok(rt: HostRuntime) {
    let rows = &[
        (First(0x110, 0x100), Range(0x1000, 0x110F)),
        (First(0x100, 0x100), Range(0x1200, 0x12FF)),
        (First(0x10, 0x100), Range(0x1300, 0x130F)),
    ];
    replay_in(&rt, 0x1000, 0x1000, rows);
}

#[test]
fn test_allocate_with_alignment_last_ok(rt: HostRuntime) {
    let rows = &[
        (Last(0x110, 0x100), Range(0x10E00, 0x10F0F)),
        (Last(0x100, 0x100), Range(0x10D00, 0x10DFF)),
        (Last(0x10, 0x100), Range(0x10C00, 0x10C0F)),
    ];
    replay_in(&rt, 0x1000, 0x10000, rows);
}

#[test]
fn test_allow_range_size_one_left(rt: HostRuntime) {
    let rows = &[(First(10, 2), Range(2, 11)), (First(1, 1), Range(1, 1))];
    replay_in(&rt, 1, 1000, rows);
}

#[test]
fn test_tree_allocate_address_free_and_realloc(rt: HostRuntime) {
    let rows = &[
        (First(0x800, 0x100), Range(0x1000, 0x17FF)),
        (Free(0x1000, 0x17FF), Range(0x1000, 0x17FF)),
        (First(0x800, 0x100), Range(0x1000, 0x17FF)),
    ];
    replay_in(&rt, 0x1000, 0x1000, rows);
}

#[test]
fn test_allocate_fails_not_enough_space(rt: HostRuntime) {
    let rows = &[
        (Last(0x800, 0x100), Range(0x1800, 0x1FFF)),
        (First(0x900, 0x100), NotAvailable),
        (First(0x400, 0x100), Range(0x1000, 0x13FF)),
    ];
    replay_in(&rt, 0x1000, 0x1000, rows);
}

#[test]
fn test_allocate_address_not_enough_space(rt: HostRuntime) {
    let rows = &[
        (First(0x800, 0x100), Range(0x1000, 0x17FF)),
        (Exact(0x200, 0x100, 0x1A00), Range(0x1A00, 0x1BFF)),
        (Exact(0x800, 0x100, 0x1800), NotAvailable),
        (Exact(0x100, 0x100, 0x1800), Range(0x1800, 0x18FF)),
    ];
    replay_in(&rt, 0x1000, 0x1000, rows);
}

#[test]
fn test_allocate_address_fail_free_and_realloc(rt: HostRuntime) {
    let rows = &[
        (First(0x2000, 0x100), NotAvailable),
        (Free(0x1200, 0x3200), NotAvailable),
        (Exact(0x4FE, 0x100, 0x500), Range(0x500, 0x9FD)),
        (Free(0x500, 0x9FD), Range(0x500, 0x9FD)),
    ];
    replay_in(&rt, 0, 0x1000, rows);
}

#[test]
fn test_regression_exact_match_length_check(rt: HostRuntime) {
    let rows = &[
        (Exact(0x1000, 0x1000, 0x1000), Range(0x1000, 0x1FFF)),
        (First(0, 0x1000), NoSize),
        (Exact(0x1000, 0x1000, 3), Unaligned),
        (Exact(0x1000, 0x1000, 0), Range(0, 0xFFF)),
    ];
    replay_in(&rt, 0, 0x2000, rows);
}

#[test]
fn answers_of_calls(rt: HostRuntime) {
    let rows = &[
        // Single addresses.
        (Exact(1, 1, 3), Range(3, 3)),
        (Exact(1, 1, 0), Range(0, 0)),
        (Exact(1, 1, 5), Range(5, 5)),
        (Exact(1, 1, 1), Range(1, 1)),
        (Exact(1, 1, 4), Range(4, 4)),
        (Exact(1, 1, 2), Range(2, 2)),
        (First(1, 1), NotAvailable),
        (Last(1, 1), NotAvailable),
        // The whole space.
        (Space(0, 0x1000), Range(0, 0xFFF)),
        (Last(0x1000, 1), Range(0, 0xFFF)),
        // A freed range is free again, and other ranges cannot be freed.
        (Space(1, 0x10), Range(1, 0x10)),
        (First(4, 1), Range(1, 4)),
        (Free(1, 4), Range(1, 4)),
        (First(0x10, 1), Range(1, 0x10)),
        (Space(0x10, 4), Range(0x10, 0x13)),
        (Free(0x10, 0x13), NotAvailable),
        (First(4, 1), Range(0x10, 0x13)),
        (Free(0x10, 0x11), NotAvailable),
        (Free(0x10, 0x13), Range(0x10, 0x13)),
        (Free(0x10, 0x13), NotAvailable),
    ];
    replay_in(&rt, 0, 6, rows);
}

#[test]
fn answers_for_one_start(rt: HostRuntime) {
    let rows = &[
        (Exact(0x100, 0x100, 0x1000), Range(0x1000, 0x10FF)),
        (Exact(0x100, 0x100, 0x1000), Held(0x1000, 0x10FF)),
        (Exact(0x80, 0x80, 0x1080), NotAvailable),
        (Exact(0x100, 1, 0x800), NotAvailable),
        (Exact(0x900, 1, 0x1800), NotAvailable),
        (Exact(MAX, 1, 0x1800), Overflow),
        (Exact(1, 1, MAX), Overflow),
        (Exact(1, 1, 0x1FFF), Range(0x1FFF, 0x1FFF)),
        (Exact(1, 1, 0x1FFF), Held(0x1FFF, 0x1FFF)),
        (Space(0x1000, 0x1000), Range(0x1000, 0x1FFF)),
        (First(0x800, 0x100), Range(0x1000, 0x17FF)),
        (Exact(0x100, 0x100, 0x1000), NotAvailable),
    ];
    replay_in(&rt, 0x1000, 0x1000, rows);
}
