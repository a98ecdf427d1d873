//! Tests that vm-allocator has for the nodes of its tree, by the same names. A key that is inserted is an
//! allocated range.
use super::*;
use crate::fixtures::{hold, holds_exactly, range};

/// Returns an allocator of 0x1000 addresses. Twenty of the lowest and twenty of the highest are allocated, each
/// with a gap after it.
fn many_held(rt: &(impl Abort + AllocGlobal)) -> AddressAllocator {
    let mut space = made(rt, 0, 0x1000);
    for number in 0..20u64 {
        hold(rt, &mut space, number.saturating_mul(2), 1);
        hold(
            rt,
            &mut space,
            number.saturating_mul(2).saturating_add(0x800),
            1,
        );
    }
    space
}

/// Makes the calls in turn on the allocator of [`many_held`], with at most 7 ranges more. It then has 80 to 94 blocks,
/// in three to seven leaves of 12 to 32, which are the children of one node.
fn replay_balanced(
    rt: &(impl Abort + AllocGlobal),
    space: &mut AddressAllocator,
    rows: &[(Call, Expected)],
) {
    for row in rows {
        replay(rt, space, &[*row]);
        expect_eq(rt, space.height(), 2, "leaves below a root");
    }
}

/// Frees the ranges of [`many_held`]. The others, which are allocated, fit in one leaf.
fn expect_others(
    rt: &(impl Abort + AllocGlobal),
    space: &mut AddressAllocator,
    others: &[(u64, u64)],
) {
    for number in 0..20u64 {
        let low = number.saturating_mul(2);
        let high = low.saturating_add(0x800);
        replay(rt, space, &[(Free(low, low), Range(low, low))]);
        replay(rt, space, &[(Free(high, high), Range(high, high))]);
    }
    expect_true(rt, holds_exactly(space, others), others);
    expect_eq(rt, space.height(), 1, "one leaf");
}

#[test]
fn test_is_free(rt: HostRuntime) {
    let mut space = made(&rt, 0, 0x1000);
    replay(
        &rt,
        &mut space,
        &[(Exact(0x11, 1, 0x100), Range(0x100, 0x110))],
    );
    for (address, is_free) in [(0xFF, true), (0x100, false), (0x110, false), (0x111, true)] {
        expect_eq(&rt, space.gap_at(address).is_some(), is_free, address);
        expect_eq(&rt, space.held_at(address).is_none(), is_free, address);
    }
}

#[test]
fn test_search(rt: HostRuntime) {
    let mut space = made(&rt, 0, 0x1000);
    let rows = &[
        (Exact(0x11, 1, 0x100), Range(0x100, 0x110)),
        (Exact(0xA, 1, 0x90), Range(0x90, 0x99)),
        (Exact(0x100, 1, 0x200), Range(0x200, 0x2FF)),
    ];
    replay(&rt, &mut space, rows);
    for (start, end, is_held) in [
        (0x90, 0x99, true),
        (0x200, 0x250, false),
        (0x111, 0x1FE, false),
    ] {
        expect_eq(&rt, space.holds(&range(&rt, start, end)), is_held, start);
    }
}

#[test]
fn test_search_superset(rt: HostRuntime) {
    let rows = &[
        (Exact(0x11, 1, 0x100), Range(0x100, 0x110)),
        (Exact(0x10, 1, 0x90), Range(0x90, 0x9F)),
        (Exact(0x100, 1, 0x200), Range(0x200, 0x2FF)),
        (Find(0x100, 0x101), Range(0x100, 0x110)),
        (Find(0x90, 0x95), Range(0x90, 0x9F)),
        (Find(0x200, 0x201), Range(0x200, 0x2FF)),
        (Find(0x200, 0x2FF), Range(0x200, 0x2FF)),
        (Find(0x209, 0x210), Range(0x200, 0x2FF)),
        (Find(0x2EF, 0x2FF), Range(0x200, 0x2FF)),
        (Find(0x2FF, 0x300), NotAvailable),
        (Find(0x300, 0x301), NotAvailable),
        (Find(0x1FF, 0x300), NotAvailable),
    ];
    replay_in(&rt, 0, 0x1000, rows);
}

#[test]
fn test_tree_insert_balanced(rt: HostRuntime) {
    let rows = &[
        (Exact(0x11, 1, 0x300), Range(0x300, 0x310)),
        (Exact(0x11, 1, 0x100), Range(0x100, 0x110)),
        (Exact(0x11, 1, 0x350), Range(0x350, 0x360)),
        (Exact(0x10, 1, 0x340), Range(0x340, 0x34F)),
        (Exact(0x2F, 1, 0x311), Range(0x311, 0x33F)),
        (Free(0x300, 0x310), Range(0x300, 0x310)),
    ];
    let mut space = many_held(&rt);
    replay_balanced(&rt, &mut space, rows);
    let left = &[
        (0x100, 0x110),
        (0x311, 0x33F),
        (0x340, 0x34F),
        (0x350, 0x360),
    ];
    expect_others(&rt, &mut space, left);
}

#[test]
fn test_tree_insert_balanced_after_deletions(rt: HostRuntime) {
    let rows = &[
        (Exact(0x11, 1, 0x300), Range(0x300, 0x310)),
        (Exact(0x11, 1, 0x100), Range(0x100, 0x110)),
        (Exact(0x10, 1, 0x90), Range(0x90, 0x9F)),
        (Exact(3, 1, 0x311), Range(0x311, 0x313)),
        (Exact(3, 1, 0x314), Range(0x314, 0x316)),
        (Exact(3, 1, 0x317), Range(0x317, 0x319)),
        (Exact(3, 1, 0x321), Range(0x321, 0x323)),
        (Free(0x321, 0x323), Range(0x321, 0x323)),
        (Free(0x314, 0x316), Range(0x314, 0x316)),
        (Free(0x317, 0x319), Range(0x317, 0x319)),
        (Exact(0x10, 1, 0x80), Range(0x80, 0x8F)),
        (Exact(0x10, 1, 0x70), Range(0x70, 0x7F)),
        (Exact(0x10, 1, 0x60), Range(0x60, 0x6F)),
    ];
    let mut space = many_held(&rt);
    replay_balanced(&rt, &mut space, rows);
    let left = &[
        (0x60, 0x6F),
        (0x70, 0x7F),
        (0x80, 0x8F),
        (0x90, 0x9F),
        (0x100, 0x110),
        (0x300, 0x310),
        (0x311, 0x313),
    ];
    expect_others(&rt, &mut space, left);
}

#[test]
fn test_tree_insert_intersect_negative(rt: HostRuntime) {
    let rows = &[
        (Exact(0x101, 1, 0x100), Range(0x100, 0x200)),
        (Exact(0xFF, 1, 0x201), Range(0x201, 0x2FF)),
        (Exact(0xFE, 1, 0x201), NotAvailable),
        (Exact(0x10, 1, 0x90), Range(0x90, 0x9F)),
        (Exact(0xF, 1, 0x90), NotAvailable),
    ];
    replay_in(&rt, 0, 0x1000, rows);
}

#[test]
fn test_tree_insert_duplicate_negative(rt: HostRuntime) {
    let rows = &[
        (Exact(0x101, 1, 0x100), Range(0x100, 0x200)),
        (Exact(0x101, 1, 0x100), Held(0x100, 0x200)),
    ];
    replay_in(&rt, 0, 0x1000, rows);
}

#[test]
fn test_tree_mark_as_allocated_invalid_transition(rt: HostRuntime) {
    let rows = &[
        (Exact(0x11, 1, 0x100), Range(0x100, 0x110)),
        (Exact(0x11, 1, 0x100), Held(0x100, 0x110)),
    ];
    replay_in(&rt, 0x100, 0x11, rows);
}

#[test]
fn test_tree_mark_as_allocated_resource_not_available(rt: HostRuntime) {
    let rows = &[
        (Exact(0x11, 1, 0x100), Range(0x100, 0x110)),
        (Exact(2, 1, 0x111), NotAvailable),
        (Exact(3, 1, 0x90), NotAvailable),
    ];
    replay_in(&rt, 0x100, 0x11, rows);
}

#[test]
fn test_tree_mark_as_allocated(rt: HostRuntime) {
    let rows = &[
        (Exact(0x11, 1, 0x100), Range(0x100, 0x110)),
        (Exact(0x100, 1, 0x200), Range(0x200, 0x2FF)),
        (Find(0x200, 0x2FF), Range(0x200, 0x2FF)),
    ];
    replay_in(&rt, 0, 0x1000, rows);
}

#[test]
fn test_tree_delete(rt: HostRuntime) {
    let mut space = many_held(&rt);
    let rows = &[
        (Exact(0x91, 1, 0x200), Range(0x200, 0x290)),
        (Exact(0x100, 1, 0x300), Range(0x300, 0x3FF)),
        (Free(0x200, 0x290), Range(0x200, 0x290)),
        (Exact(0x91, 1, 0x200), Range(0x200, 0x290)),
        (Exact(0x11, 1, 0x100), Range(0x100, 0x110)),
    ];
    replay_balanced(&rt, &mut space, rows);
    for (start, end) in [(0x100, 0x110), (0x200, 0x290), (0x300, 0x3FF)] {
        expect_true(&rt, space.holds(&range(&rt, start, end)), start);
    }
    let rows = &[
        (Free(0x200, 0x290), Range(0x200, 0x290)),
        (Free(0x300, 0x3FF), Range(0x300, 0x3FF)),
    ];
    replay_balanced(&rt, &mut space, rows);
    expect_others(&rt, &mut space, &[(0x100, 0x110)]);
}
