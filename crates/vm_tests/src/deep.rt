//! Guards against recursion as deep as a value, and against another limit on nested nodes. tests/refused_memory runs
//! the test of the first on a small stack.
use crate::fixtures::{
    ENOUGH, Reader, chain, expect_refused, expect_true, items, made, parsed, put,
};
use serde_json::Value;
use std::process::Abort;
use vm_allocator::{AddressAllocator, AllocPolicy};

/// The nesting depth of a value.
const DEPTH: u64 = 100_000;

/// The node that is nested in a deep tree.
const NODE: &str =
    r#"{"key":{"start":0,"end":0},"node_state":"Allocated","left":null,"right":null,"height":1}"#;

/// Returns a list in a list, and so on.
fn deep_list(rt: &(impl Abort + AllocGlobal)) -> Value {
    let mut list = Value::Null;
    for _ in 0..DEPTH {
        let mut outer = parsed(rt, "[null]");
        put(rt, &mut outer, "/0", list);
        list = outer;
    }
    list
}

/// Values that every reader rejects if they have a deep part at their path in `PLACES`.
const VALUES: &str = r#"[
    null,
    {"start":16,"end":19},
    {"range_base":5,"next_id":7,"range_end":23,"freed_ids":[5]},
    {"range_base":5,"next_id":7,"range_end":23,"freed_ids":[5]},
    {"address_space":{"start":16,"end":19},"interval_tree":{"root":{
        "key":{"start":16,"end":19},"node_state":"Free","left":null,"right":null,"height":1}}},
    {"address_space":{"start":16,"end":19},"interval_tree":{"root":{
        "key":{"start":16,"end":19},"node_state":"Free","left":null,"right":null,"height":1}}},
    {"address_space":{"start":16,"end":19},"interval_tree":{"root":{
        "key":{"start":16,"end":19},"node_state":"Free","left":null,"right":null,"height":1}}},
    {"version":1,
        "id_allocator":{"range_base":0,"next_id":1,"range_end":1,"freed_ids":[0]},
        "mmio_allocator":{"address_space":{"start":16,"end":19},"interval_tree":{"root":{
        "key":{"start":16,"end":19},"node_state":"Free","left":null,"right":null,"height":1}}},"slots":[]},
    {"version":1,
        "id_allocator":{"range_base":0,"next_id":1,"range_end":1,"freed_ids":[0]},
        "mmio_allocator":{"address_space":{"start":16,"end":19},"interval_tree":{"root":{
        "key":{"start":16,"end":19},"node_state":"Free","left":null,"right":null,"height":1}}},"slots":[]}]"#;

/// One path in each of `VALUES`.
const PLACES: [&str; 9] = [
    "/0",
    "/1/start",
    "/2/next_id",
    "/3/freed_ids",
    "/4/address_space",
    "/5/interval_tree/root",
    "/6/interval_tree/root/key",
    "/7/mmio_allocator/interval_tree/root/right",
    "/8/slots",
];

/// All readers.
const READERS: [Reader; 6] = [
    Reader::Range,
    Reader::State,
    Reader::Space,
    Reader::Repaired,
    Reader::Ids,
    Reader::Manager,
];

/// Checks that every reader rejects the value.
fn reject_by_all(rt: &(impl Abort + AllocGlobal), value: Option<&Value>, place: &str) {
    let value = value.expect(rt, "there is a value");
    for reader in READERS {
        expect_refused(rt, reader, value, &place);
    }
}

/// Checks that every reader rejects a value with this part at each path.
///
/// The part is dropped level by level at the end, because dropping it at once needs a stack frame
/// for each level.
fn reject_with(rt: &(impl Abort + AllocGlobal), part: Value, inner: &str) {
    let mut deep = part;
    let mut values = parsed(rt, VALUES);
    for (number, place) in PLACES.iter().enumerate() {
        put(rt, &mut values, place, deep);
        reject_by_all(rt, items(rt, &values).get(number), place);
        deep = put(rt, &mut values, place, Value::Null);
    }
    take_apart(deep, inner);
}

/// Drops a deep value level by level.
fn take_apart(deep: Value, inner: &str) {
    let mut rest = deep;
    for _ in 0..=DEPTH {
        let next = match rest.pointer_mut(inner) {
            Some(value) => value.take(),
            None => return,
        };
        rest = next;
    }
}

#[test]
fn deep_values_on_a_small_stack(rt: HostRuntime) {
    for side in ["/left", "/right"] {
        reject_with(&rt, chain(&rt, NODE, DEPTH, 0, side), side);
    }
    reject_with(&rt, deep_list(&rt), "/0");
}

/// A node with a wrong height.
const FLAT_NODE: &str =
    r#"{"key":{"start":0,"end":0},"node_state":"Allocated","left":null,"right":null,"height":0}"#;

/// Returns a space of addresses that start at 0, each allocated. Its tree is a chain of nodes, each the right child of
/// the one before.
fn chained(rt: &(impl Abort + AllocGlobal), keys: u64) -> Value {
    let last = keys.saturating_sub(1);
    let text = r#"{"address_space":{"start":0,"end":0},"interval_tree":{"root":null}}"#;
    let mut value = parsed(rt, text);
    put(rt, &mut value, "/address_space/end", Value::from(last));
    let nodes = chain(rt, FLAT_NODE, keys, last, "/right");
    put(rt, &mut value, "/interval_tree/root", nodes);
    value
}

#[test]
fn chains_that_are_refused(rt: HostRuntime) {
    for (keys, reader) in [
        (50, Reader::Space),
        (51, Reader::Space),
        (51, Reader::Repaired),
        (200, Reader::Space),
        (200, Reader::Repaired),
    ] {
        expect_refused(&rt, reader, &chained(&rt, keys), &keys);
    }
}

#[test]
fn a_chain_of_fifty_nodes_repaired(rt: HostRuntime) {
    let value = chained(&rt, 50);
    let repaired = AddressAllocator::from_value_repaired(rt.alloc(), &value).expect(&rt, ENOUGH);
    let mut full = made(&rt, 0, 50);
    for address in 0..50 {
        let answer = full.allocate(rt.alloc(), 1, 1, AllocPolicy::FirstMatch);
        expect_true(&rt, answer.is_ok(), address);
    }
    expect_true(&rt, repaired == full, "the same ranges");
}
