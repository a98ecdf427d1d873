//! Tests of id allocators as values.
//!
//! They guard against a format with another meaning than its documentation, against a value of
//! vm-allocator that is not read, and against a check of a value that allocates.
use super::*;
use crate::fixtures::{ENOUGH, items};
use serde_json::Value;
use vm_ranges::ValueError;

#[test]
fn read_ones(rt: HostRuntime) {
    for (text, held, next) in [
        (
            r#"{"range_base":5,"next_id":7,"range_end":23,"freed_ids":[5]}"#,
            6,
            Some(5),
        ),
        (
            r#"{"range_base":5,"next_id":6,"range_end":5,"freed_ids":[]}"#,
            5,
            None,
        ),
        (
            r#"{"range_base":4294967294,"next_id":null,"range_end":4294967295,"freed_ids":[4294967295]}"#,
            4294967294,
            Some(4294967295),
        ),
    ] {
        let value = parsed(&rt, text);
        let ids = IdAllocator::from_value(rt.alloc(), &value).expect(&rt, text);
        let answers = (
            ids.is_allocated(held),
            ids.is_allocated(held - 1) || ids.is_allocated(held.wrapping_add(1)),
            ids.peek_id().ok(),
        );
        expect_eq(&rt, answers, (true, false, next), text);
        assert!(rt; saved_ids(&rt, &ids) == value);
    }
}

/// Values that do not encode an id allocator:
/// - The next id is missing, or does not fit the range.
/// - The freed ids decrease, repeat, or were never allocated.
/// - The range is empty.
/// - The numbers are not ids.
/// - It is a value of another kind.
const NO_IDS: &str = r#"[
    {"range_base":5,"next_id":null,"range_end":23,"freed_ids":[]},
    {"range_base":5,"next_id":25,"range_end":23,"freed_ids":[]},
    {"range_base":5,"next_id":4,"range_end":23,"freed_ids":[]},
    {"range_base":5,"next_id":25,"range_end":23,"freed_ids":[6,7]},
    {"range_base":5,"next_id":8,"range_end":23,"freed_ids":[6,5]},
    {"range_base":5,"next_id":8,"range_end":23,"freed_ids":[6,6]},
    {"range_base":5,"next_id":7,"range_end":23,"freed_ids":[7]},
    {"range_base":5,"next_id":8,"range_end":23,"freed_ids":[5,6,7,8]},
    {"range_base":5,"next_id":null,"range_end":23,"freed_ids":[6,7]},
    {"range_base":23,"next_id":23,"range_end":5,"freed_ids":[]},
    {"range_base":23,"next_id":24,"range_end":5,"freed_ids":[23]},
    {"range_base":5,"next_id":7,"range_end":4294967296,"freed_ids":[]},
    {"range_base":0,"next_id":4294967296,"range_end":4294967295,"freed_ids":[]},
    {"start":16,"end":19},
    "Allocated"]"#;

#[test]
fn refused_without_memory(rt: HostRuntime) {
    let (wrong, right) = (parsed(&rt, NO_IDS), parsed(&rt, IDS));
    fail_from_here(rt.alloc());
    for value in items(&rt, &wrong) {
        let refusal = IdAllocator::from_value(rt.alloc(), value).err();
        expect_eq(&rt, refusal, Some(ValueError::NotAState), NO_IDS);
    }
    // The only allocation. Its result shows whether the run is without memory.
    let is_true = match IdAllocator::from_value(rt.alloc(), &right) {
        Ok(ids) => ids.held_count() == 5,
        Err(error) => error == ValueError::OutOfMemory,
    };
    expect_true(&rt, is_true, "the ids, or no memory for them");
}

/// The ids 5 to 23, as the feature `serde` of vm-allocator 0.1.4 wrote them. Seven were allocated, then 6 and 9
/// freed.
const IDS: &str = r#"{"range_base":5,"next_id":12,"range_end":23,"freed_ids":[6,9]}"#;

#[test]
fn ids_of_the_other_crate(rt: HostRuntime) {
    let value = parsed(&rt, IDS);
    let ids = IdAllocator::from_value(rt.alloc(), &value).expect(&rt, ENOUGH);
    for id in 0..32 {
        let held = [5, 7, 8, 10, 11].contains(&id);
        expect_eq(&rt, ids.is_allocated(id), held, id);
    }
    assert!(rt; saved_ids(&rt, &ids) == value);
}

/// Reads, writes and clones.
fn use_each_call(rt: &(impl Abort + AllocGlobal), value: &Value, ids: &IdAllocator) {
    fail_from_here(rt.alloc());
    let is_read = match IdAllocator::from_value(rt.alloc(), value) {
        Ok(again) => again == *ids,
        Err(error) => error == ValueError::OutOfMemory,
    };
    expect_true(rt, is_read, "read");
    let is_written = match ids.to_value(rt.alloc()) {
        Ok(again) => again == *value,
        Err(error) => error == Error::OutOfMemory,
    };
    expect_true(rt, is_written, "written");
    let is_cloned = match ids.try_clone(rt.alloc()) {
        Ok(clone) => clone == *ids,
        Err(error) => error == Error::OutOfMemory,
    };
    expect_true(rt, is_cloned, "cloned");
}

/// tests/refused_memory makes each allocation after `fail_from_here` fail in turn.
#[test]
fn saved_and_cloned_in_turn(rt: HostRuntime) {
    let value = parsed(&rt, IDS);
    let ids = IdAllocator::from_value(rt.alloc(), &value).expect(&rt, ENOUGH);
    use_each_call(&rt, &value, &ids);
}

/// The first freed id allocates a list. If memory runs out, the id stays allocated.
#[test]
fn freed_in_turn(rt: HostRuntime) {
    let mut ids = made(&rt, 5, 9);
    replay(&rt, &mut ids, &[TakeAll(5, 6)]);
    fail_from_here(rt.alloc());
    if ids.free_id(5) == Err(Error::OutOfMemory) {
        replay(&rt, &mut ids, &[Holds(5, true), Count(2), Free(5, Id(5))]);
    }
    let calls = &[Holds(5, false), Count(1), Allocate(Id(5)), Allocate(Id(7))];
    replay(&rt, &mut ids, calls);
}
