//! Guards against a check of a value that allocates. tests/refused_memory makes every allocation after
//! `fail_from_here` fail.
use super::*;
use vm_allocator::Error;

/// Values that encode no range.
const NO_RANGES: &str = r#"["Allocated",{"start":19,"end":16}]"#;

/// The range [16, 19].
const ENDS: &str = r#"{"start":16,"end":19}"#;

/// Values that encode no state.
const NO_STATES: &str = r#"[{"start":16,"end":19},"free"]"#;

/// Values that encode no allocator. In one, the space is longer than the tree.
const NO_SPACES: &str = r#"[
    {"start":16,"end":19},
    "Allocated",
    {"address_space":{"start":16,"end":20},"interval_tree":{"root":{
        "key":{"start":16,"end":19},"node_state":"Allocated","left":null,"right":null,"height":1}}},
    {"range_base":5,"next_id":8,"range_end":23,"freed_ids":[]}]"#;

/// Values that encode no allocator, not even with repairs. In one, a key ends past the space.
const NONE_REPAIRED: &str = r#"[
    {"start":16,"end":19},
    "Allocated",
    {"address_space":{"start":16,"end":18},"interval_tree":{"root":{
        "key":{"start":16,"end":19},"node_state":"Allocated","left":null,"right":null,"height":1}}},
    {"range_base":5,"next_id":8,"range_end":23,"freed_ids":[]}]"#;

/// The space [16, 19], allocated as one range.
const ONE_NODE: &str = r#"{"address_space":{"start":16,"end":19},"interval_tree":{"root":{
    "key":{"start":16,"end":19},"node_state":"Allocated","left":null,"right":null,"height":1}}}"#;

/// Reads values that encode no range, and one that does.
fn read_ranges(rt: &(impl Abort + AllocGlobal), none: &Value, ends: &Value) {
    for value in items(rt, none) {
        let refusal = RangeInclusive::from_value(rt.alloc(), value).err();
        expect_eq(rt, refusal, Some(ValueError::NotAState), NO_RANGES);
    }
    let answer = RangeInclusive::from_value(rt.alloc(), ends);
    expect_eq(rt, answer, Ok(range(rt, 16, 19)), ENDS);
}

/// Reads values that encode no state, and one that does.
fn read_states(rt: &(impl Abort + AllocGlobal), none: &Value, state: &Value) {
    for value in items(rt, none) {
        let refusal = NodeState::from_value(rt.alloc(), value).err();
        expect_eq(rt, refusal, Some(ValueError::NotAState), NO_STATES);
    }
    let answer = NodeState::from_value(rt.alloc(), state);
    expect_eq(rt, answer, Ok(NodeState::Allocated), "state");
}

#[test]
fn ranges_and_states_checked(rt: HostRuntime) {
    let (no_ranges, no_states) = (parsed(&rt, NO_RANGES), parsed(&rt, NO_STATES));
    let (state, ends) = (parsed(&rt, r#""Allocated""#), parsed(&rt, ENDS));
    fail_from_here(rt.alloc());
    read_ranges(&rt, &no_ranges, &ends);
    read_states(&rt, &no_states, &state);
    // The only allocation. Its result shows whether the run is without memory.
    let written = range(&rt, 16, 19).to_value(rt.alloc());
    assert!(rt; written.is_ok() || written.err() == Some(Error::OutOfMemory));
}

#[test]
fn spaces_checked(rt: HostRuntime) {
    let (no_spaces, none_repaired) = (parsed(&rt, NO_SPACES), parsed(&rt, NONE_REPAIRED));
    let one_node = parsed(&rt, ONE_NODE);
    fail_from_here(rt.alloc());
    for value in items(&rt, &no_spaces) {
        let answer = AddressAllocator::from_value(rt.alloc(), value);
        expect_no_state(&rt, answer, &NO_SPACES);
    }
    for value in items(&rt, &none_repaired) {
        let answer = AddressAllocator::from_value_repaired(rt.alloc(), value);
        expect_no_state(&rt, answer, &NONE_REPAIRED);
    }
    // The only allocation. Its result shows whether the run is without memory.
    let is_true = match AddressAllocator::from_value(rt.alloc(), &one_node) {
        Ok(space) => holds_exactly(&space, &[(16, 19)]),
        Err(error) => error == ValueError::OutOfMemory,
    };
    assert!(rt; is_true);
}
