//! Tests of managers that are written and read.
//!
//! They guard against a format with another meaning than its documentation.
use super::*;
use crate::fixtures::{Reader, expect_refused, parsed, put};

/// The ids [0, 1] and the space [4096, 8191]. A device has id 0 and [4096, 6143].
const ONE_DEVICE: &str = r#"{"version":1,
    "id_allocator":{"range_base":0,"next_id":1,"range_end":1,"freed_ids":[]},
    "mmio_allocator":{"address_space":{"start":4096,"end":8191},"interval_tree":{"root":{
    "key":{"start":6144,"end":8191},"node_state":"Free",
    "left":{"key":{"start":4096,"end":6143},"node_state":"Allocated","left":null,"right":null,"height":1},
    "right":null,"height":2}}},
    "slots":[{"id":0,"mmio_range":{"start":4096,"end":6143}}]}"#;

/// The same, with a second device that has the rest.
const TWO_DEVICES: &str = r#"{"version":1,
    "id_allocator":{"range_base":0,"next_id":2,"range_end":1,"freed_ids":[]},
    "mmio_allocator":{"address_space":{"start":4096,"end":8191},"interval_tree":{"root":{
    "key":{"start":6144,"end":8191},"node_state":"Allocated",
    "left":{"key":{"start":4096,"end":6143},"node_state":"Allocated","left":null,"right":null,"height":1},
    "right":null,"height":2}}},
    "slots":[{"id":0,"mmio_range":{"start":4096,"end":6143}},{"id":1,"mmio_range":{"start":6144,"end":8191}}]}"#;

/// The same two devices, with exchanged ranges.
const TWO_CROSSED: &str = r#"{"version":1,
    "id_allocator":{"range_base":0,"next_id":2,"range_end":1,"freed_ids":[]},
    "mmio_allocator":{"address_space":{"start":4096,"end":8191},"interval_tree":{"root":{
    "key":{"start":6144,"end":8191},"node_state":"Allocated",
    "left":{"key":{"start":4096,"end":6143},"node_state":"Allocated","left":null,"right":null,"height":1},
    "right":null,"height":2}}},
    "slots":[{"id":0,"mmio_range":{"start":6144,"end":8191}},{"id":1,"mmio_range":{"start":4096,"end":6143}}]}"#;

/// One device again. The fields of every object are in another order.
const OTHER_ORDER: &str = r#"{"slots":[{"mmio_range":{"end":6143,"start":4096},"id":0}],
    "mmio_allocator":{"interval_tree":{"root":{"height":2,
    "right":null,
    "left":{"height":1,"right":null,"left":null,"node_state":"Allocated","key":{"end":6143,"start":4096}},
    "node_state":"Free","key":{"end":8191,"start":6144}}},"address_space":{"end":8191,"start":4096}},
    "id_allocator":{"freed_ids":[],"range_end":1,"next_id":1,"range_base":0},"version":1}"#;

/// No device, after id 0 was freed.
const NO_DEVICE: &str = r#"{"version":1,
    "id_allocator":{"range_base":0,"next_id":1,"range_end":1,"freed_ids":[0]},
    "mmio_allocator":{"address_space":{"start":4096,"end":8191},"interval_tree":{"root":{
    "key":{"start":4096,"end":8191},"node_state":"Free","left":null,"right":null,"height":1}}},
    "slots":[]}"#;

/// One device again. The node of its range is the root, which `to_value` does not write.
const HELD_ROOT: &str = r#"{"version":1,
    "id_allocator":{"range_base":0,"next_id":1,"range_end":1,"freed_ids":[]},
    "mmio_allocator":{"address_space":{"start":4096,"end":8191},"interval_tree":{"root":{
    "key":{"start":4096,"end":6143},"node_state":"Allocated","left":null,
    "right":{"key":{"start":6144,"end":8191},"node_state":"Free","left":null,"right":null,"height":1},
    "height":2}}},
    "slots":[{"id":0,"mmio_range":{"start":4096,"end":6143}}]}"#;

/// The same, with another field.
const ANOTHER_FIELD: &str = r#"{"version":1,
    "id_allocator":{"range_base":0,"next_id":1,"range_end":1,"freed_ids":[]},
    "mmio_allocator":{"address_space":{"start":4096,"end":8191},"interval_tree":{"root":{
    "key":{"start":4096,"end":6143},"node_state":"Allocated","left":null,
    "right":{"key":{"start":6144,"end":8191},"node_state":"Free","left":null,"right":null,"height":1},
    "height":2}}},
    "slots":[{"id":0,"mmio_range":{"start":4096,"end":6143}}],"devices":1}"#;

/// Two devices, the second with the range that is free.
const TWO_SLOTS: &str = r#"[{"id":0,"mmio_range":{"start":4096,"end":6143}},
    {"id":1,"mmio_range":{"start":6144,"end":8191}}]"#;

/// Returns the manager that a text encodes. It is written like this again.
fn read(rt: &(impl Abort + AllocGlobal), text: &str) -> DeviceManager {
    let value = parsed(rt, text);
    let devices = DeviceManager::from_value(rt.alloc(), &value).expect(rt, text);
    let saved = devices.to_value(rt.alloc()).expect(rt, ENOUGH);
    expect_true(rt, saved == value, text);
    devices
}

/// Checks that a text encodes a manager, and that these calls of it have their results.
fn expect_manager(rt: &(impl Abort + AllocGlobal), text: &str, rows: &[(Call, Expected)]) {
    replay(rt, &mut read(rt, text), rows);
}

#[test]
fn devices_that_values_state(rt: HostRuntime) {
    let low = &[
        (LookUp(0), Device(0, 4096, 6143)),
        (LookUp(1), Gone),
        (First(1, 1), Device(1, 6144, 6144)),
    ];
    let both = &[
        (LookUp(0), Device(0, 4096, 6143)),
        (LookUp(1), Device(1, 6144, 8191)),
        (First(1, 1), NotAvailable),
    ];
    let crossed = &[
        (LookUp(0), Device(0, 6144, 8191)),
        (LookUp(1), Device(1, 4096, 6143)),
        (First(1, 1), NotAvailable),
    ];
    let none = &[
        (LookUp(0), Gone),
        (LookUp(1), Gone),
        (First(1, 1), Device(0, 4096, 4096)),
    ];
    expect_manager(&rt, ONE_DEVICE, low);
    expect_manager(&rt, OTHER_ORDER, low);
    expect_manager(&rt, TWO_DEVICES, both);
    expect_manager(&rt, TWO_CROSSED, crossed);
    expect_manager(&rt, NO_DEVICE, none);
}

#[test]
fn a_manager_written(rt: HostRuntime) {
    let mut devices = made(&rt, (0, 1), 4096, 4096);
    replay(
        &rt,
        &mut devices,
        &[(First(2048, 2048), Device(0, 4096, 6143))],
    );
    let saved = devices.to_value(rt.alloc()).expect(&rt, ENOUGH);
    expect_true(&rt, saved == parsed(&rt, ONE_DEVICE), ONE_DEVICE);
}

#[test]
fn a_manager_with_its_range_in_the_root(rt: HostRuntime) {
    let value = parsed(&rt, HELD_ROOT);
    let answer = DeviceManager::from_value(rt.alloc(), &value);
    let mut devices = answer.expect(&rt, HELD_ROOT);
    let rows = &[
        (LookUp(0), Device(0, 4096, 6143)),
        (First(1, 1), Device(1, 6144, 6144)),
    ];
    replay(&rt, &mut devices, rows);
}

/// Checks that the value of a text does not encode a manager after a change, by its path and the text of the new part.
fn expect_refused_with(rt: &(impl Abort + AllocGlobal), text: &str, place: &str, part: &str) {
    let mut value = parsed(rt, text);
    put(rt, &mut value, place, parsed(rt, part));
    expect_refused(rt, Reader::Manager, &value, &(place, part));
}

#[test]
fn a_manager_with_a_wrong_part(rt: HostRuntime) {
    for (place, part) in [
        ("/version", "2"),
        ("/slots", "[]"),
        ("/slots/0/id", "1"),
        ("/slots/0/mmio_range/end", "6142"),
        ("/slots", TWO_SLOTS),
    ] {
        expect_refused_with(&rt, HELD_ROOT, place, part);
    }
    let one_more = parsed(&rt, ANOTHER_FIELD);
    expect_refused(&rt, Reader::Manager, &one_more, &ANOTHER_FIELD);
    // Two devices with the same range.
    let first = r#"{"start":4096,"end":6143}"#;
    expect_refused_with(&rt, TWO_DEVICES, "/slots/1/mmio_range", first);
}
