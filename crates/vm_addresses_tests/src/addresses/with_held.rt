//! Tests of allocators that are created with allocated ranges.
//!
//! They guard against a call that allocates before it has checked its ranges.
use super::*;
use crate::fixtures::{fail_from_here, range};
use vm_allocator::{ListConflict, ListError};

/// Why a range is refused: the range before it, the space, or the last address.
#[derive(Clone, Copy, Debug)]
enum Why {
    Invalid,
    After,
    Space,
    Last,
}

/// A space by its base and its size, two ranges, and the error of creating it with these allocated: the
/// index of the range that cannot be allocated, or `None` if the space is invalid, the error, and why.
type Refused = (u64, u64, [(u64, u64); 2], Option<usize>, Expected, Why);

/// The error is that of the space, or else that of the first range that cannot be allocated.
const REFUSED: [Refused; 7] = [
    (16, 0, [(4, 5), (MAX, MAX)], None, Underflow, Why::Invalid),
    (MAX, 2, [(4, 5), (4, 5)], None, Overflow, Why::Invalid),
    (
        16,
        16,
        [(20, 23), (23, 24)],
        Some(1),
        NotAvailable,
        Why::After,
    ),
    (16, 16, [(31, 31), (MAX, MAX)], Some(1), Overflow, Why::Last),
    (
        16,
        16,
        [(20, 23), (24, 32)],
        Some(1),
        NotAvailable,
        Why::Space,
    ),
    (
        16,
        16,
        [(15, 16), (17, 18)],
        Some(0),
        NotAvailable,
        Why::Space,
    ),
    (
        MAX - 15,
        16,
        [(MAX - 15, MAX), (4, 5)],
        Some(0),
        Overflow,
        Why::Last,
    ),
];

/// Checks that each row has its error. tests/refused_memory makes every allocation fail, so an error
/// needs no memory.
#[test]
fn refused_without_memory(rt: HostRuntime) {
    fail_from_here(rt.alloc());
    for row in &REFUSED {
        let (base, size, [(start, end), (next, last)], index, want, why) = *row;
        let held = [range(&rt, start, end), range(&rt, next, last)];
        let answer = AddressAllocator::with_held(rt.alloc(), base, size, &held);
        let error = want.answer().expect_err(&rt, "each row is refused");
        expect_eq(&rt, answer.err(), Some(ListError { index, error }), held);
        let Some(index) = index else { continue };
        let space = RangeInclusive::from_start_len(base, size).expect(&rt, "it is a space");
        let conflict = match why {
            Why::Invalid => None,
            Why::After => Some(ListConflict::NotAfter(held[0])),
            Why::Space => Some(ListConflict::OutsideSpace(space)),
            Why::Last => Some(ListConflict::EndsAtMax),
        };
        let found = AddressAllocator::list_conflict(&space, &held, index);
        expect_eq(&rt, found, conflict, held);
    }
    // Only this call allocates. Its result shows whether the run is without memory.
    let held = [range(&rt, 16, 17), range(&rt, 20, 31)];
    let is_true = match AddressAllocator::with_held(rt.alloc(), 16, 16, &held) {
        Ok(space) => space.held_count() == 2,
        Err(failure) => failure == ListError::from(Error::OutOfMemory),
    };
    expect_true(&rt, is_true, "two are held");
}
