//! Tests of id allocators.
//!
//! They guard against an id that is allocated twice, is not the lowest free one, or is lost when it is
//! freed.
use crate::fixtures::{ENOUGH, expect_eq, expect_true, fail_from_here, parsed, saved_ids};
use Call::{Allocate, Count, Fields, Free, Holds, Peek, TakeAll};
use Expected::{AlreadyReleased, Id, NeverAllocated, NotAvailable, OutOfRange, Overflow};
use std::process::Abort;
use vm_ids::IdAllocator;
use vm_ranges::{Error, Result};

mod requests;
mod saved;

/// Allocates ids, and checks that they are those from `first` to `last`.
fn take_all(rt: &impl Abort, ids: &mut IdAllocator, first: u32, last: u32) {
    for id in first..=last {
        expect_eq(rt, ids.peek_id(), Ok(id), id);
        expect_eq(rt, ids.allocate_id(), Ok(id), id);
    }
}

/// Checks that the range, the next id and the freed ids are those of the text.
fn expect_fields(rt: &(impl Abort + AllocGlobal), ids: &IdAllocator, text: &str) {
    expect_true(rt, saved_ids(rt, ids) == parsed(rt, text), text);
}

/// Creates the allocator of the ids from `first` to `last`.
fn made(rt: &(impl Abort + AllocGlobal), first: u32, last: u32) -> IdAllocator {
    IdAllocator::new(rt.alloc(), first, last).expect(rt, "it is a range")
}

/// A call with its expected result.
#[derive(Clone, Copy)]
enum Call {
    Allocate(Expected),
    Peek(Expected),
    Free(u32, Expected),
    Holds(u32, bool),
    Count(u64),
    /// Allocates the ids from the first to the last, one by one.
    TakeAll(u32, u32),
    /// Checks the saved value of the allocator.
    Fields(&'static str),
}

/// An id or an error.
#[derive(Clone, Copy)]
enum Expected {
    Id(u32),
    Overflow,
    NotAvailable,
    OutOfRange(u32),
    NeverAllocated(u32),
    AlreadyReleased(u32),
}

impl Expected {
    fn answer(self) -> Result<u32> {
        match self {
            Id(id) => Ok(id),
            Overflow => Err(Error::Overflow),
            NotAvailable => Err(Error::ResourceNotAvailable),
            OutOfRange(id) => Err(Error::OutOfRange(id)),
            NeverAllocated(id) => Err(Error::NeverAllocated(id)),
            AlreadyReleased(id) => Err(Error::AlreadyReleased(id)),
        }
    }
}

/// Makes the calls in turn.
fn replay(rt: &(impl Abort + AllocGlobal), ids: &mut IdAllocator, calls: &[Call]) {
    for call in calls {
        match *call {
            Allocate(want) => expect_eq(rt, ids.allocate_id(), want.answer(), "taken"),
            Peek(want) => expect_eq(rt, ids.peek_id(), want.answer(), "next"),
            Free(id, want) => expect_eq(rt, ids.free_id(id), want.answer(), id),
            Holds(id, want) => expect_eq(rt, ids.is_allocated(id), want, id),
            Count(want) => expect_eq(rt, ids.held_count(), want, "count"),
            TakeAll(first, last) => take_all(rt, ids, first, last),
            Fields(text) => expect_fields(rt, ids, text),
        }
    }
}

/// Makes the calls in turn on a new allocator of the ids from `first` to `last`.
fn replay_in(rt: &(impl Abort + AllocGlobal), first: u32, last: u32, calls: &[Call]) {
    replay(rt, &mut made(rt, first, last), calls);
}

/// Checks that no allocator is created for a range whose last id is below the first.
fn expect_no_range(rt: &(impl Abort + AllocGlobal), first: u32, last: u32) {
    let refused = IdAllocator::new(rt.alloc(), first, last).err();
    let want = Some(Error::InvalidRange(u64::from(first), u64::from(last)));
    expect_true(rt, refused == want, (first, last));
}

#[test]
fn test_slot_id_allocation(rt: HostRuntime) {
    expect_no_range(&rt, 23, 5);
    let calls = &[
        TakeAll(5, 5),
        Fields(r#"{"range_base":5,"next_id":6,"range_end":23,"freed_ids":[]}"#),
        TakeAll(6, 23),
        Allocate(NotAvailable),
    ];
    replay_in(&rt, 5, 23, calls);
}

#[test]
fn test_u32_overflow(rt: HostRuntime) {
    let calls = &[
        Allocate(Id(4294967294)),
        Allocate(Id(4294967295)),
        Allocate(Overflow),
    ];
    replay_in(&rt, 4294967294, 4294967295, calls);
}

#[test]
fn test_slot_id_free(rt: HostRuntime) {
    let calls = &[
        Free(3, OutOfRange(3)),
        Fields(r#"{"range_base":5,"next_id":5,"range_end":23,"freed_ids":[]}"#),
        TakeAll(5, 13),
        Free(10, Id(10)),
        Free(10, AlreadyReleased(10)),
        Free(9, Id(9)),
        Fields(r#"{"range_base":5,"next_id":14,"range_end":23,"freed_ids":[9,10]}"#),
        Peek(Id(9)),
        Allocate(Id(9)),
        Fields(r#"{"range_base":5,"next_id":14,"range_end":23,"freed_ids":[10]}"#),
        Free(21, NeverAllocated(21)),
        Holds(10, false),
        Holds(9, true),
        Holds(14, false),
    ];
    replay_in(&rt, 5, 23, calls);
}

#[test]
fn test_free_id_never_allocated_boundary(rt: HostRuntime) {
    let calls = &[
        Free(5, NeverAllocated(5)),
        Fields(r#"{"range_base":5,"next_id":5,"range_end":23,"freed_ids":[]}"#),
        TakeAll(5, 7),
        Free(8, NeverAllocated(8)),
        Fields(r#"{"range_base":5,"next_id":8,"range_end":23,"freed_ids":[]}"#),
        TakeAll(8, 8),
    ];
    replay_in(&rt, 5, 23, calls);
}

#[test]
fn test_is_allocated(rt: HostRuntime) {
    let calls = &[
        Holds(4, false),
        Holds(24, false),
        Holds(10, false),
        Allocate(Id(5)),
        Holds(5, true),
        Holds(6, false),
        Free(5, Id(5)),
        Holds(5, false),
        Allocate(Id(5)),
        Holds(5, true),
    ];
    replay_in(&rt, 5, 23, calls);
}

/// The highest two ids.
const LOW: u32 = 4294967294;

const HIGH: u32 = 4294967295;

#[test]
fn test_is_allocated_full_range(rt: HostRuntime) {
    let calls = &[
        Holds(LOW, false),
        Holds(HIGH, false),
        Allocate(Id(LOW)),
        Holds(LOW, true),
        Holds(HIGH, false),
        Allocate(Id(HIGH)),
        Holds(LOW, true),
        Holds(HIGH, true),
        Fields(r#"{"range_base":4294967294,"next_id":null,"range_end":4294967295,"freed_ids":[]}"#),
        Free(HIGH, Id(HIGH)),
        Holds(HIGH, false),
        Holds(LOW, true),
    ];
    replay_in(&rt, LOW, HIGH, calls);
}

#[test]
fn test_is_allocated_with_freed(rt: HostRuntime) {
    let calls = &[
        TakeAll(5, 6),
        Fields(r#"{"range_base":5,"next_id":7,"range_end":23,"freed_ids":[]}"#),
        Holds(6, true),
        Holds(7, false),
        Free(5, Id(5)),
        Holds(5, false),
        Holds(6, true),
        Holds(7, false),
    ];
    replay_in(&rt, 5, 23, calls);
}

/// The range of only the highest id.
#[test]
fn one_id_allocated_freed_and_allocated(rt: HostRuntime) {
    let calls = &[
        Free(HIGH, NeverAllocated(HIGH)),
        Allocate(Id(HIGH)),
        Allocate(Overflow),
        Peek(Overflow),
        Free(HIGH, Id(HIGH)),
        Holds(HIGH, false),
        Peek(Id(HIGH)),
        Allocate(Id(HIGH)),
        Allocate(Overflow),
    ];
    replay_in(&rt, HIGH, HIGH, calls);
}

/// A clone and its original allocate the same freed id.
#[test]
fn a_clone_allocates_the_freed_id(rt: HostRuntime) {
    let mut ids = made(&rt, 5, 23);
    replay(&rt, &mut ids, &[TakeAll(5, 7), Free(6, Id(6))]);
    let mut clone = ids.try_clone(rt.alloc()).expect(&rt, ENOUGH);
    replay(&rt, &mut clone, &[Allocate(Id(6)), Allocate(Id(8))]);
    replay(&rt, &mut ids, &[Allocate(Id(6))]);
}

/// Allocates and frees only the highest id.
fn allocate_highest(rt: &(impl Abort + AllocGlobal)) {
    let mut ids = made(rt, u32::MAX, u32::MAX);
    let calls = &[Allocate(Id(u32::MAX)), Peek(Overflow), Allocate(Overflow)];
    replay(rt, &mut ids, calls);
    // Freeing an id for the first time allocates memory. Its result shows whether the run is
    // without memory.
    let answer = ids.free_id(u32::MAX);
    let is_true = match &answer {
        Ok(id) => *id == u32::MAX,
        Err(Error::OutOfMemory) => true,
        Err(_) => false,
    };
    expect_true(rt, is_true, answer);
}

#[test]
fn without_memory(rt: HostRuntime) {
    let mut ids = made(&rt, 5, 9);
    replay(
        &rt,
        &mut ids,
        &[TakeAll(5, 8), Free(6, Id(6)), Free(7, Id(7))],
    );
    let calls = &[
        Free(4, OutOfRange(4)),
        Free(9, NeverAllocated(9)),
        Free(6, AlreadyReleased(6)),
        Holds(5, true),
        Holds(6, false),
        Count(2),
        Peek(Id(6)),
        Allocate(Id(6)),
        Free(7, AlreadyReleased(7)),
        Allocate(Id(7)),
        Allocate(Id(9)),
        Peek(NotAvailable),
        Allocate(NotAvailable),
    ];
    fail_from_here(rt.alloc());
    replay(&rt, &mut ids, calls);
    expect_no_range(&rt, 23, 5);
    allocate_highest(&rt);
}
