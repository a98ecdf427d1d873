//! Tests of ranges, constraints, and errors with their texts.
//!
//! They guard against texts that differ from those of vm-allocator, and against ends that are off by
//! one.
use crate::fixtures::{ENOUGH, expect_eq, range};
use std::cmp::Ordering;
use std::fmt::Display;
use std::process::Abort;
use vm_allocator::allocation_engine::NodeState;
use vm_allocator::{
    AllocPolicy, Constraint, DEFAULT_CONSTRAINT_ALIGN, Error, RangeInclusive, ValueError,
};

const MAX: u64 = u64::MAX;

/// Checks that each range has this length, or that creating it returns this error.
fn expect_lengths(rt: &impl Abort, rows: &[(u64, u64, std::result::Result<u64, Error>)]) {
    for (start, end, want) in rows {
        let length = match RangeInclusive::new(*start, *end) {
            Ok(range) => Ok(range.len()),
            Err(error) => Err(error),
        };
        expect_eq(rt, &length, want, (*start, *end));
    }
}

#[test]
fn test_new_range(rt: HostRuntime) {
    let rows = [
        (2, 1, Err(Error::InvalidRange(2, 1))),
        (0, MAX, Err(Error::InvalidRange(0, MAX))),
        (0, 0x100, Ok(0x101)),
    ];
    expect_lengths(&rt, &rows);
}

#[test]
fn test_range_upper_bound(rt: HostRuntime) {
    let rows = [(1, MAX, Ok(MAX)), (0, MAX - 1, Ok(MAX)), (MAX, MAX, Ok(1))];
    expect_lengths(&rt, &rows);
}

#[test]
fn test_range_overlaps(rt: HostRuntime) {
    let rows = [
        ((1, 4), (4, 6), true),
        ((1, 4), (2, 3), true),
        ((1, 4), (5, 6), false),
        ((0, 0x100), (0x99, 0x150), true),
    ];
    for ((start, end), other, want) in rows {
        let first = range(&rt, start, end);
        let second = range(&rt, other.0, other.1);
        let answers = (first.overlaps(&second), second.overlaps(&first));
        expect_eq(&rt, answers, (want, want), (first, second));
    }
    expect_lengths(&rt, &[(1, 4, Ok(4))]);
}

#[test]
fn test_range_contain(rt: HostRuntime) {
    let rows = [
        ((2, 6), (2, 3), true),
        ((2, 6), (3, 4), true),
        ((2, 6), (5, 6), true),
        ((2, 6), (1, 2), false),
        ((2, 6), (1, 3), false),
        ((2, 6), (1, 7), false),
        ((2, 6), (6, 7), false),
        ((2, 6), (7, 8), false),
        ((0, 0x100), (0x50, 0x80), true),
    ];
    for ((start, end), other, want) in rows {
        let first = range(&rt, start, end);
        let second = range(&rt, other.0, other.1);
        expect_eq(&rt, first.contains(&second), want, (first, second));
    }
}

#[test]
fn test_range_ord(rt: HostRuntime) {
    let rows = [
        ((1, 3), (1, 4), Ordering::Less),
        ((1, 4), (1, 4), Ordering::Equal),
        ((1, 4), (1, 5), Ordering::Less),
        ((1, 5), (2, 2), Ordering::Less),
    ];
    for ((start, end), other, want) in rows {
        let first = range(&rt, start, end);
        let second = range(&rt, other.0, other.1);
        let answers = (first < second, first == second, first.cmp(&second));
        let wanted = (want == Ordering::Less, want == Ordering::Equal, want);
        expect_eq(&rt, answers, wanted, (first, second));
    }
}

#[test]
fn test_getters(rt: HostRuntime) {
    let range = range(&rt, 3, 5);
    expect_eq(&rt, (range.start(), range.end()), (3, 5), range);
}

/// A request, its fields, and the error if it is not valid.
type Request = (
    u64,
    u64,
    AllocPolicy,
    std::result::Result<(u64, u64), Error>,
);

/// Checks that each request has this size and this alignment, or that creating it returns this
/// error.
fn expect_allocations(rt: &impl Abort, rows: &[Request]) {
    for (size, align, policy, want) in rows {
        let got = match Constraint::new(*size, *align, *policy) {
            Ok(constraint) => Ok((constraint.size(), constraint.align())),
            Err(error) => Err(error),
        };
        expect_eq(rt, &got, want, policy);
    }
}

#[test]
fn constraint_getter(rt: HostRuntime) {
    let unaligned = Err(Error::UnalignedAddress);
    let rows = [
        (0x1000, 0x1000, AllocPolicy::ExactMatch(0xC), unaligned),
        (0x1000, 0x1000, AllocPolicy::default(), Ok((0x1000, 0x1000))),
    ];
    expect_allocations(&rt, &rows);
}

#[test]
fn constraints(rt: HostRuntime) {
    let default = DEFAULT_CONSTRAINT_ALIGN;
    let rows = [
        (4, 3, AllocPolicy::LastMatch, Err(Error::InvalidAlignment)),
        (
            4,
            4,
            AllocPolicy::ExactMatch(3),
            Err(Error::UnalignedAddress),
        ),
        (
            4,
            3,
            AllocPolicy::ExactMatch(1),
            Err(Error::InvalidAlignment),
        ),
        (0, 3, AllocPolicy::FirstMatch, Err(Error::InvalidSize(0))),
        (0, 4, AllocPolicy::ExactMatch(3), Err(Error::InvalidSize(0))),
        (4, default, AllocPolicy::FirstMatch, Ok((4, 4))),
    ];
    expect_allocations(&rt, &rows);
    assert!(rt; AllocPolicy::default() == AllocPolicy::FirstMatch);
}

/// Returns the text of an error.
fn text_of<T: Display>(rt: &(impl Abort + AllocGlobal), error: &T) -> String {
    error.to_string(rt.alloc()).expect(rt, ENOUGH)
}

#[test]
fn texts_of_errors(rt: HostRuntime) {
    let rows = [
        (
            Error::Overflow,
            "Management operations on desired resource resulted in overflow.",
        ),
        (Error::OutOfRange(7), "Specified id: 7 is not in the range."),
        (
            Error::AlreadyReleased(8),
            "Specified id: 8 is already released.",
        ),
        (
            Error::NeverAllocated(9),
            "Specified id: 9 was never allocated, can't release it.",
        ),
        (
            Error::ResourceNotAvailable,
            "The requested resource is not available.",
        ),
        (
            Error::InvalidRange(2, 1),
            "The range specified: 2-1 is not valid.",
        ),
        (Error::InvalidAlignment, "Alignment value is invalid."),
        (Error::UnalignedAddress, "The address is not aligned."),
        (
            Error::Underflow,
            "Management operations on desired resource resulted in underflow.",
        ),
        (Error::InvalidSize(0), "The specified size: 0 is not valid."),
        (Error::OutOfMemory, "There is not enough memory."),
    ];
    for (error, want) in &rows {
        expect_eq(&rt, text_of(&rt, error).as_str(), want, error);
    }
}

#[test]
fn texts_of_errors_with_ranges(rt: HostRuntime) {
    let range = range(&rt, 1, 2);
    let rows = [
        (
            Error::Overlap(range, range),
            "Addresses are overlapping.",
            " intersects with existing ",
            "",
        ),
        (
            Error::InvalidStateTransition(range, NodeState::Allocated),
            "Invalid state transition for node ",
            " from ",
            " to NodeState::Free",
        ),
    ];
    for (error, start, within, end) in &rows {
        let text = text_of(&rt, error);
        let text = text.as_str();
        assert!(rt; text.starts_with(*start) && text.contains(*within) && text.ends_with(*end));
    }
}

#[test]
fn texts_of_value_errors(rt: HostRuntime) {
    let rows = [
        (ValueError::NotAState, "The value states no valid object."),
        (ValueError::OutOfMemory, "There is not enough memory."),
    ];
    for (error, want) in &rows {
        expect_eq(&rt, text_of(&rt, error).as_str(), want, error);
    }
    let (not_a_state, out_of_memory) = (ValueError::NotAState, ValueError::OutOfMemory);
    assert!(rt; not_a_state == ValueError::NotAState && not_a_state != out_of_memory);
}

/// Checks that errors are ordered by variant, then by fields.
#[test]
fn errors_increase(rt: HostRuntime) {
    let (low, middle) = (range(&rt, 1, 2), range(&rt, 1, 3));
    let high = range(&rt, 2, 2);
    let ascending = [
        Error::Overflow,
        Error::OutOfRange(0),
        Error::OutOfRange(1),
        Error::AlreadyReleased(0),
        Error::AlreadyReleased(1),
        Error::NeverAllocated(0),
        Error::NeverAllocated(1),
        Error::ResourceNotAvailable,
        Error::InvalidRange(2, 1),
        Error::InvalidRange(3, 0),
        Error::InvalidRange(3, 1),
        Error::InvalidAlignment,
        Error::Overlap(low, high),
        Error::Overlap(middle, low),
        Error::Overlap(middle, middle),
        Error::InvalidStateTransition(low, NodeState::Allocated),
        Error::InvalidStateTransition(middle, NodeState::Free),
        Error::InvalidStateTransition(middle, NodeState::Allocated),
        Error::UnalignedAddress,
        Error::Underflow,
        Error::InvalidSize(0),
        Error::InvalidSize(1),
        Error::OutOfMemory,
    ];
    for (i, first) in ascending.iter().enumerate() {
        for (j, second) in ascending.iter().enumerate() {
            let answers = (first.cmp(second), first == second);
            expect_eq(&rt, answers, (i.cmp(&j), i == j), (i, j));
        }
    }
}
