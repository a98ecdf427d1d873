//! Tests of values that are written and read.
//!
//! They guard against a format with another meaning than its documentation, and against a value of
//! vm-allocator that is not read.
use crate::fixtures::{
    ENOUGH, block_count, expect_eq, expect_space, expect_true, fail_from_here, full_leaf, hold,
    holds_exactly, items, made, parsed, put, range, saved,
};
use serde_json::Value;
use std::fmt::Debug;
use std::process::Abort;
use vm_allocator::allocation_engine::NodeState;
use vm_allocator::{AddressAllocator, RangeInclusive, ValueError};

mod allocators;
mod in_turn;
mod repaired;
mod snapshots;
mod without_memory;

/// Reads the allocator of a value. Checks that it is equal to the allocator that is read with
/// repairs.
fn read(
    rt: &(impl Abort + AllocGlobal),
    value: &Value,
) -> std::result::Result<AddressAllocator, ValueError> {
    let answer = AddressAllocator::from_value(rt.alloc(), value);
    if let Ok(space) = &answer {
        let repaired = AddressAllocator::from_value_repaired(rt.alloc(), value);
        expect_space(rt, repaired, space, "repaired");
    }
    answer
}

/// Checks that the result is that a value does not encode an allocator.
fn expect_no_state(
    rt: &impl Abort,
    answer: std::result::Result<AddressAllocator, ValueError>,
    of: &impl Debug,
) {
    expect_eq(rt, answer.err(), Some(ValueError::NotAState), of);
}

/// Checks that the value of the text does not encode an allocator.
fn assert_refused(rt: &(impl Abort + AllocGlobal), text: &str) {
    expect_no_state(rt, read(rt, &parsed(rt, text)), &text);
}
