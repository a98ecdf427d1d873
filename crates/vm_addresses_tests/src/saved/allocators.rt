//! Tests of address allocators, their ranges and states, as values.
//!
//! They guard against a format that differs from that of vm-allocator.
use super::*;

/// The space [16, 19] without allocated ranges.
const FRESH: &str = r#"{"address_space":{"start":16,"end":19},"interval_tree":{"root":{
    "key":{"start":16,"end":19},"node_state":"Free","left":null,"right":null,"height":1}}}"#;

/// Checks that the allocator is written like this text, and read again.
fn expect_written(rt: &(impl Abort + AllocGlobal), space: &AddressAllocator, text: &str) {
    let value = saved(rt, space);
    assert!(rt; value == parsed(rt, text), "{text}");
    expect_space(rt, read(rt, &value), space, text);
}

/// The space [0, 4095] with [1280, 1535] allocated.
const ONE_HELD: &str = r#"{"address_space":{"start":0,"end":4095},"interval_tree":{"root":{
    "key":{"start":1280,"end":1535},"node_state":"Allocated",
    "left":{"key":{"start":0,"end":1279},"node_state":"Free","left":null,"right":null,"height":1},
    "right":{"key":{"start":1536,"end":4095},"node_state":"Free","left":null,"right":null,"height":1},
    "height":2}}}"#;

/// The same three blocks, all of them allocated, and the fields in another order.
const ALL_HELD: &str = r#"{"interval_tree":{"root":{"height":2,
    "right":{"right":null,"left":null,"height":1,"node_state":"Allocated","key":{"end":4095,"start":1536}},
    "left":{"right":null,"left":null,"height":1,"node_state":"Allocated","key":{"end":1279,"start":0}},
    "node_state":"Allocated","key":{"end":1535,"start":1280}}},"address_space":{"end":4095,"start":0}}"#;

/// Returns the allocator with one allocated range.
fn one_held(rt: &(impl Abort + AllocGlobal)) -> AddressAllocator {
    let mut space = made(rt, 0, 0x1000);
    hold(rt, &mut space, 0x500, 0x100);
    space
}

#[test]
fn spaces_as_written(rt: HostRuntime) {
    expect_written(&rt, &made(&rt, 16, 4), FRESH);
    expect_written(&rt, &one_held(&rt), ONE_HELD);
    let all_held = parsed(&rt, ALL_HELD);
    let full = read(&rt, &all_held).expect(&rt, ALL_HELD);
    assert!(rt; holds_exactly(&full, &[(0, 1279), (1280, 1535), (1536, 4095)]));
    assert!(rt; saved(&rt, &full) == all_held);
}

/// Checks that a value does not encode an allocator after changes: each is a path, and the text of its new part.
fn expect_refused_with(rt: &(impl Abort + AllocGlobal), text: &str, changes: &[(&str, &str)]) {
    let mut value = parsed(rt, text);
    for (place, part) in changes {
        put(rt, &mut value, place, parsed(rt, part));
    }
    expect_no_state(rt, read(rt, &value), &changes);
}

/// Two free blocks that are not joined.
const TWO_FREE: &str = r#"{"key":{"start":16,"end":17},"node_state":"Free","left":null,
    "right":{"key":{"start":18,"end":19},"node_state":"Free","left":null,"right":null,"height":1},
    "height":2}"#;

/// A node with another field.
const ANOTHER_FIELD: &str =
    r#"{"key":{"start":16,"end":19},"node_state":"Free","left":null,"right":null,
    "height":1,"max_free":4}"#;

#[test]
fn a_fresh_space_with_a_wrong_part(rt: HostRuntime) {
    for (place, part) in [
        ("/interval_tree/root/height", "2"),
        ("/interval_tree/root", ANOTHER_FIELD),
        ("/interval_tree", r#"{"root":null,"height":1}"#),
        ("/address_space", r#"{"start":16,"end":19,"len":4}"#),
        ("/interval_tree/root", "null"),
        ("/interval_tree/root", TWO_FREE),
    ] {
        expect_refused_with(&rt, FRESH, &[(place, part)]);
    }
}

/// One allocated range, with a gap or an overlap before it, with two free neighbours, and in a longer space.
#[test]
fn one_range_with_a_wrong_part(rt: HostRuntime) {
    let (root, left) = (
        "/interval_tree/root/node_state",
        "/interval_tree/root/left/node_state",
    );
    let exchanged = &[(root, r#""Free""#), (left, r#""Allocated""#)];
    expect_refused_with(&rt, ONE_HELD, exchanged);
    for (place, part) in [
        ("/interval_tree/root/left/key/end", "1278"),
        ("/interval_tree/root/left/key/end", "1280"),
        ("/address_space/end", "4096"),
    ] {
        expect_refused_with(&rt, ONE_HELD, &[(place, part)]);
    }
}

#[test]
fn ranges_and_states(rt: HostRuntime) {
    let range = range(&rt, 16, 19);
    let value = range.to_value(rt.alloc()).expect(&rt, ENOUGH);
    assert!(rt; value == parsed(&rt, r#"{"start":16,"end":19}"#));
    let again = RangeInclusive::from_value(rt.alloc(), &value);
    expect_eq(&rt, again, Ok(range), "range");
    for (state, text) in [
        (NodeState::Free, r#""Free""#),
        (NodeState::Allocated, r#""Allocated""#),
    ] {
        let value = state.to_value(rt.alloc()).expect(&rt, ENOUGH);
        assert!(rt; value == parsed(&rt, text));
        let again = NodeState::from_value(rt.alloc(), &value);
        expect_eq(&rt, again, Ok(state), text);
    }
}
