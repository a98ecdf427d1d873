//! Tests of comparisons, and of spaces with the same allocated ranges after other calls.
//!
//! They guard against a comparison or a result that depends on earlier calls.
use super::*;
use crate::fixtures::hold;
use std::cmp::Ordering;

/// Returns the allocator of a number of addresses that start at 0. The lowest `held` of them are allocated.
fn with_lowest(rt: &(impl Abort + AllocGlobal), size: u64, held: u64) -> AddressAllocator {
    let mut space = made(rt, 0, size);
    hold(rt, &mut space, 0, held);
    space
}

/// Checks how an allocator compares with another.
fn expect_order(
    rt: &impl Abort,
    space: &AddressAllocator,
    other: &AddressAllocator,
    want: Ordering,
    of: &str,
) {
    expect_true(rt, space.cmp(other) == want && space != other, of);
}

#[test]
fn a_fresh_space_compared(rt: HostRuntime) {
    let fresh = made(&rt, 0, 16);
    expect_order(
        &rt,
        &fresh,
        &made(&rt, 0, 17),
        Ordering::Less,
        "a longer space",
    );
    let first_held = with_lowest(&rt, 16, 4);
    expect_order(
        &rt,
        &first_held,
        &fresh,
        Ordering::Less,
        "a shorter first block",
    );
    let all_held = with_lowest(&rt, 16, 16);
    expect_order(
        &rt,
        &all_held,
        &fresh,
        Ordering::Greater,
        "an allocated block",
    );
}

/// Returns the allocator of [0, 7] with [1, 1] and [6, 6] allocated, by two calls.
fn two_held(rt: &(impl Abort + AllocGlobal)) -> AddressAllocator {
    let mut space = made(rt, 0, 8);
    let rows = &[(Exact(1, 1, 1), Range(1, 1)), (Exact(1, 1, 6), Range(6, 6))];
    replay(rt, &mut space, rows);
    space
}

/// Allocates each address of the space from its first to `last`.
fn hold_each(rt: &(impl Abort + AllocGlobal), space: &mut AddressAllocator, last: u64) {
    for address in 0..=last {
        replay(rt, space, &[(First(1, 1), Range(address, address))]);
    }
}

/// Frees ranges of one address in turn.
fn free_each(rt: &(impl Abort + AllocGlobal), space: &mut AddressAllocator, addresses: &[u64]) {
    for address in addresses {
        let row = (Free(*address, *address), Range(*address, *address));
        replay(rt, space, &[row]);
    }
}

#[test]
fn two_histories_of_the_same_ranges(rt: HostRuntime) {
    let mut short = two_held(&rt);
    let mut long = made(&rt, 0, 8);
    hold_each(&rt, &mut long, 7);
    free_each(&rt, &mut long, &[0, 2, 3, 4, 5, 7]);
    expect_true(&rt, short == long, "the same ranges");
    let next = &[(First(4, 1), Range(2, 5))];
    replay(&rt, &mut short, next);
    replay(&rt, &mut long, next);
}

/// Six single addresses are freed upward, downward, or the odd ones first.
#[test]
fn single_addresses_freed_in_three_orders(rt: HostRuntime) {
    let fresh = made(&rt, 0, 6);
    for order in [[0, 1, 2, 3, 4, 5], [5, 4, 3, 2, 1, 0], [1, 3, 5, 0, 2, 4]] {
        let mut space = made(&rt, 0, 6);
        hold_each(&rt, &mut space, 5);
        replay(&rt, &mut space, &[(First(1, 1), NotAvailable)]);
        free_each(&rt, &mut space, &order);
        expect_true(&rt, space == fresh, order);
    }
}
