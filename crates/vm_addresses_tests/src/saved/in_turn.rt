//! Guards against a reader or a writer that fails at one of its allocations with another error or object.
//! tests/refused_memory makes each allocation after `fail_from_here` fail in turn.
use super::*;
use vm_allocator::Error;

/// Checks that the result is an equal allocator, or that memory ran out.
fn expect_read(
    rt: &impl Abort,
    answer: std::result::Result<AddressAllocator, ValueError>,
    want: &AddressAllocator,
) {
    let is_true = match &answer {
        Ok(space) => space == want,
        Err(error) => *error == ValueError::OutOfMemory,
    };
    expect_true(rt, is_true, answer.err());
}

/// Checks that the result is an equal value, or that memory ran out.
fn expect_written(rt: &impl Abort, answer: std::result::Result<Value, Error>, want: &Value) {
    let is_true = match &answer {
        Ok(value) => value == want,
        Err(error) => *error == Error::OutOfMemory,
    };
    expect_true(rt, is_true, answer.err());
}

/// Reads a value without and with repairs.
fn read_twice(rt: &(impl Abort + AllocGlobal), value: &Value, want: &AddressAllocator) {
    fail_from_here(rt.alloc());
    expect_read(rt, AddressAllocator::from_value(rt.alloc(), value), want);
    let repaired = AddressAllocator::from_value_repaired(rt.alloc(), value);
    expect_read(rt, repaired, want);
}

/// A list of the allocated ranges, two leaves and a node are allocated.
#[test]
fn spaces_read(rt: HostRuntime) {
    let mut space = full_leaf(&rt);
    hold(&rt, &mut space, 100, 4);
    read_twice(&rt, &saved(&rt, &space), &space);
}

/// The fresh space [1, 16], whose tree was lost.
#[test]
fn a_lost_tree_repaired(rt: HostRuntime) {
    let text = r#"{"address_space":{"start":1,"end":16},"interval_tree":{"root":null}}"#;
    let (value, fresh) = (parsed(&rt, text), made(&rt, 1, 16));
    fail_from_here(rt.alloc());
    let repaired = AddressAllocator::from_value_repaired(rt.alloc(), &value);
    expect_read(&rt, repaired, &fresh);
}

#[test]
fn spaces_written(rt: HostRuntime) {
    let mut space = made(&rt, 0, 16);
    hold(&rt, &mut space, 4, 4);
    let want = saved(&rt, &space);
    fail_from_here(rt.alloc());
    expect_written(&rt, space.to_value(rt.alloc()), &want);
}

#[test]
fn ranges_and_states_written(rt: HostRuntime) {
    let ends = parsed(&rt, r#"{"start":16,"end":19}"#);
    let state = parsed(&rt, r#""Allocated""#);
    let range = range(&rt, 16, 19);
    fail_from_here(rt.alloc());
    expect_written(&rt, range.to_value(rt.alloc()), &ends);
    expect_written(&rt, NodeState::Allocated.to_value(rt.alloc()), &state);
}
