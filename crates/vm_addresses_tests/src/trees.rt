//! Tests of trees.
//!
//! They guard against sums that wrap, and against an order of trees by their shape.
use crate::fixtures::{ENOUGH, expect_eq, expect_true, fail_from_here, range};
use AllocPolicy::{ExactMatch, FirstMatch, LastMatch};
use std::process::Abort;
use vm_allocator::allocation_engine::IntervalTree;
use vm_allocator::{AllocPolicy, Constraint, Error};

/// Creates the tree of a space.
fn tree_of(rt: &(impl Abort + AllocGlobal), start: u64, end: u64) -> IntervalTree {
    IntervalTree::new(rt.alloc(), range(rt, start, end)).expect(rt, ENOUGH)
}

/// Creates a request for a tree.
fn request(rt: &impl Abort, size: u64, align: u64, policy: AllocPolicy) -> Constraint {
    Constraint::new(size, align, policy).expect(rt, "it makes sense")
}

/// Allocates a number of addresses that start at an address.
fn hold(rt: &(impl Abort + AllocGlobal), tree: &mut IntervalTree, start: u64, size: u64) {
    let answer = tree.allocate(rt.alloc(), request(rt, size, 1, ExactMatch(start)));
    expect_true(rt, answer.is_ok(), start);
}

#[test]
fn test_integer_wrapping(rt: HostRuntime) {
    let mut tree = tree_of(&rt, 1, u64::MAX);
    let half = 1 << 63;
    let answer = tree.allocate(rt.alloc(), request(&rt, half, half, ExactMatch(half)));
    expect_eq(&rt, answer, Err(Error::Overflow), "half of all");
}

/// Checks a tree whose blocks are a prefix of the blocks of another.
#[test]
fn a_beginning_is_less(rt: HostRuntime) {
    let mut short = tree_of(&rt, 0, 7);
    hold(&rt, &mut short, 0, 4);
    let mut long = tree_of(&rt, 0, 15);
    hold(&rt, &mut long, 0, 4);
    hold(&rt, &mut long, 8, 8);
    expect_true(&rt, short < long && short != long, "less");
}

/// Returns the tree of [0, 4095] in which the even addresses up to 30 are allocated. Its 32 blocks fill one leaf.
fn full_leaf(rt: &(impl Abort + AllocGlobal)) -> IntervalTree {
    let mut tree = tree_of(rt, 0, 0xFFF);
    for number in 0..16u64 {
        hold(rt, &mut tree, number.saturating_mul(2), 1);
    }
    tree
}

/// Splits a full leaf, which allocates a leaf, a root and a list of nodes. Nothing changes if memory runs out, and the same
/// call then succeeds.
fn split(rt: &(impl Abort + AllocGlobal), policy: AllocPolicy, start: u64) {
    let (mut tree, before) = (full_leaf(rt), full_leaf(rt));
    fail_from_here(rt.alloc());
    let mut answer = tree.allocate(rt.alloc(), request(rt, 4, 4, policy));
    if answer == Err(Error::OutOfMemory) {
        expect_true(rt, tree == before, "nothing changed");
        answer = tree.allocate(rt.alloc(), request(rt, 4, 4, policy));
    }
    expect_eq(
        rt,
        answer,
        Ok(range(rt, start, start.saturating_add(3))),
        policy,
    );
}

#[test]
fn lowest_range_in_turn(rt: HostRuntime) {
    split(&rt, FirstMatch, 32);
}

#[test]
fn highest_range_in_turn(rt: HostRuntime) {
    split(&rt, LastMatch, 0xFFC);
}

#[test]
fn range_at_a_start_in_turn(rt: HostRuntime) {
    split(&rt, ExactMatch(0x500), 0x500);
}

#[test]
fn a_tree_made_in_turn(rt: HostRuntime) {
    let (space, fresh) = (range(&rt, 0, 15), tree_of(&rt, 0, 15));
    fail_from_here(rt.alloc());
    let is_true = match IntervalTree::new(rt.alloc(), space) {
        Ok(tree) => tree == fresh,
        Err(error) => error == Error::OutOfMemory,
    };
    expect_true(&rt, is_true, "a tree, or no memory for it");
}
