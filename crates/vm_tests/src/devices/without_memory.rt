//! Guards against a query that allocates. The calls run while every allocation fails.
use super::*;
use crate::fixtures::{fail_from_here, range};
use vm_allocator::Conflict;
use vm_devices::DeviceSlot;

/// The id of the device, and the ends of its range.
const DEVICE: (u32, u64, u64) = (0, 0x1000, 0x17FF);

/// Returns the id of a device, and the ends of its range.
fn parts(device: DeviceSlot) -> (u32, u64, u64) {
    (device.id, device.range.start(), device.range.end())
}

/// Checks the calls that only read: there is one device.
fn expect_one(rt: &impl Abort, devices: &DeviceManager) {
    let mut up = devices.devices();
    let listed = (up.next().map(parts), up.next().map(parts));
    expect_eq(rt, listed, (Some(DEVICE), None), "the device");
    let last = devices.devices().next_back().map(parts);
    expect_eq(rt, last, Some(DEVICE), "the last device");
    let found = devices.device_at(0x17FF).map(parts);
    expect_eq(rt, found, Some(DEVICE), "its last address");
    let counts = (devices.device_at(0x1800).is_none(), devices.device_count());
    expect_eq(rt, counts, (true, 1), "no other device");
    let exact = Constraint::new(8, 1, AllocPolicy::ExactMatch(0x17FF));
    let request = exact.expect(rt, "it is a request");
    let conflict = Some(Conflict::Allocated(range(rt, 0x1000, 0x17FF)));
    let addresses = devices.addresses();
    expect_eq(rt, addresses.conflict(request), conflict, request);
}

/// Frees an id for the first time, which allocates. Its result shows whether the run is without
/// memory.
fn release_first(rt: &impl Abort, devices: &mut DeviceManager) {
    let is_true = match devices.release(0) {
        Ok(()) | Err(Error::OutOfMemory) => true,
        Err(_) => false,
    };
    expect_true(rt, is_true, "a release");
}

/// Makes the calls that are refused: there is one device.
fn expect_refused(rt: &(impl Abort + AllocGlobal), devices: &mut DeviceManager) {
    let rows = &[
        (LookUp(0), Device(0, 0x1000, 0x17FF)),
        (LookUp(1), Gone),
        (First(0, 1), NoSize),
        (First(0x801, 1), NotAvailable),
        (Exact(4, 4, 0x1801), Unaligned),
        (Release(1), NeverAllocated(1)),
    ];
    replay(rt, devices, rows);
    let refused = DeviceManager::new(rt.alloc(), 2, 1, 0, 0).err();
    expect_eq(rt, refused, Some(Error::InvalidRange(2, 1)), "no ids");
}

/// Reserves a device. From then on no call can allocate.
fn reserve_and_look(rt: &(impl Abort + AllocGlobal), devices: &mut DeviceManager) {
    replay(rt, devices, &[(First(0x800, 1), Device(0, 0x1000, 0x17FF))]);
    fail_from_here(rt.alloc());
    expect_refused(rt, devices);
    expect_one(rt, devices);
    release_first(rt, devices);
}

#[test]
fn looked_up_or_refused(rt: HostRuntime) {
    reserve_and_look(&rt, &mut made(&rt, (0, 1), 0x1000, 0x1000));
}
