//! Guards against a call of a manager that fails at one of its allocations, and changes a device or returns another
//! error. tests/refused_memory makes each allocation after `fail_from_here` fail in turn.
use super::*;
use crate::fixtures::fail_from_here;
use serde_json::Value;
use vm_allocator::ValueError;

/// The ids [0, 1] and the space [16, 31]. The device with id 0 has [16, 19].
const DEVICE: (Call, Expected) = (First(4, 1), Device(0, 16, 19));

/// Returns a manager without devices.
fn empty(rt: &(impl Abort + AllocGlobal)) -> DeviceManager {
    made(rt, (0, 1), 16, 16)
}

/// Returns a manager with one device.
fn with_one(rt: &(impl Abort + AllocGlobal)) -> DeviceManager {
    let mut devices = empty(rt);
    replay(rt, &mut devices, &[DEVICE]);
    devices
}

/// Makes a call, and makes it again if memory runs out. Then nothing changed.
fn ask_again(
    rt: &(impl Abort + AllocGlobal),
    devices: &mut DeviceManager,
    before: &DeviceManager,
    row: (Call, Expected),
) {
    let (call, want) = row;
    fail_from_here(rt.alloc());
    let mut answer = call.ask(devices, rt.alloc());
    if answer == Err(Error::OutOfMemory) {
        expect_true(rt, *devices == *before, "nothing changed");
        answer = call.ask(devices, rt.alloc());
    }
    expect_eq(rt, answer, want.answer(), "the call");
}

#[test]
fn reserved(rt: HostRuntime) {
    ask_again(&rt, &mut empty(&rt), &empty(&rt), DEVICE);
}

#[test]
fn released(rt: HostRuntime) {
    ask_again(&rt, &mut with_one(&rt), &with_one(&rt), (Release(0), Gone));
}

/// Creates a manager without devices.
#[test]
fn created(rt: HostRuntime) {
    let want = empty(&rt);
    fail_from_here(rt.alloc());
    let is_true = match DeviceManager::new(rt.alloc(), 0, 1, 16, 16) {
        Ok(devices) => devices == want,
        Err(error) => error == Error::OutOfMemory,
    };
    expect_true(&rt, is_true, "a manager, or no memory for it");
}

/// Writes and reads a manager whose value this is.
fn write_and_read(rt: &(impl Abort + AllocGlobal), devices: &DeviceManager, value: &Value) {
    fail_from_here(rt.alloc());
    let is_written = match devices.to_value(rt.alloc()) {
        Ok(written) => written == *value,
        Err(error) => error == Error::OutOfMemory,
    };
    expect_true(rt, is_written, "written");
    let is_read = match DeviceManager::from_value(rt.alloc(), value) {
        Ok(read) => read == *devices,
        Err(error) => error == ValueError::OutOfMemory,
    };
    expect_true(rt, is_read, "read");
}

#[test]
fn written_and_read(rt: HostRuntime) {
    let devices = with_one(&rt);
    let value = devices.to_value(rt.alloc()).expect(&rt, ENOUGH);
    write_and_read(&rt, &devices, &value);
}
