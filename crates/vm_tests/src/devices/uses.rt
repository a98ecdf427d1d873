//! Callers of calls of devices. They guard against clauses from which a caller cannot prove what it needs.
ghost use Rattle.std.specs.Prelude.{◌≡◌, ◌⊎◌, false, IfErr, IfOk};
ghost use Rattle.serde_json.specs.View.{view};
ghost use Rattle.vm_devices.specs.Devices.{MovesDevice};
ghost use Rattle.vm_devices.specs.Manager.{device_state, made_manager};
ghost use Rattle.vm_devices.specs.Queries.{DeviceAt, device_list_in};
ghost use Rattle.vm_devices.specs.Saved.{EncodesManager, ReadsInParts};

use super::made;
use crate::fixtures::{ENOUGH, expect_true, range};
use crate::plugging::replugged;
use crate::uses::parsed_again;
use serde_json::Value;
use std::alloc::Global;
use std::process::Abort;
use vm_allocator::{AllocPolicy, Constraint, Error, IdRequest, RangeInclusive, Result, ValueError};
use vm_devices::{DeviceManager, DeviceSlot, DevicesIn};

/// Plugs a device in with an id. An error leaves the same manager, or memory ran out.
fn plug(
    alloc: Global,
    devices: &mut DeviceManager,
    id: u32,
    request: Constraint,
) -> Result<DeviceSlot>
    ensures { IfErr result (λ e. (devices.new ≡ devices.old) ⊎ (e ≡ Error.OutOfMemory)) }
{
    devices.reserve_with_id(alloc, IdRequest::Exact(id), request)
}

/// Plugs a device in. Returns `false` and changes nothing if there is no id or no range for it.
fn plugged(alloc: Global, devices: &mut DeviceManager, size: u64) -> bool
    ensures { result ≡ false → device_state devices.new ≡ device_state devices.old }
{
    devices
        .reserve(alloc, size, 1, AllocPolicy::FirstMatch)
        .is_ok()
}

/// Returns the device that has an address.
fn owner(devices: &DeviceManager, address: u64) -> Option<DeviceSlot>
    ensures { DeviceAt (device_state devices.now) address result }
{
    devices.device_at(address)
}

/// Returns the devices with ids from `first` to `last`.
fn between(devices: &DeviceManager, first: u32, last: u32) -> DevicesIn<'_>
    ensures { result ≡ device_list_in first last (device_state devices.now) }
{
    devices.devices_in(first, last)
}

/// Moves the range of a device.
fn moved(
    alloc: Global,
    devices: &mut DeviceManager,
    id: u32,
    request: Constraint,
) -> Result<RangeInclusive>
    ensures { MovesDevice (device_state devices.old) id request result (device_state devices.new) }
{
    devices.move_constraint(alloc, id, request)
}

/// Reads a manager.
fn read(alloc: Global, value: &Value) -> std::result::Result<DeviceManager, ValueError>
    ensures { ReadsInParts (EncodesManager (view value.now)) (made_manager result) }
{
    DeviceManager::from_value(alloc, value)
}

/// Returns the manager that is read from the text of another: the same one.
#[tactic(auto, using(vm_devices::proofs::Callers::manager_through_text))]
fn through_text(
    alloc: Global,
    devices: &DeviceManager,
) -> std::result::Result<DeviceManager, ValueError>
    ensures { IfOk result (λ again. device_state again ≡ device_state devices.now) }
{
    let Ok(saved) = devices.to_value(alloc) else {
        return Err(ValueError::OutOfMemory);
    };
    read(alloc, &parsed_again(alloc, &saved)?)
}

/// Plugs a device in, looks it up, and moves it to where it is.
fn use_device(rt: &(impl Abort + AllocGlobal), devices: &mut DeviceManager) {
    let request = Constraint::new(0x1000, 1, AllocPolicy::FirstMatch).expect(rt, ENOUGH);
    let slot = plug(rt.alloc(), devices, 7, request).expect(rt, ENOUGH);
    expect_true(rt, owner(devices, 0xE000_0FFF) == Some(slot), &slot);
    expect_true(rt, !plugged(rt.alloc(), devices, 0x2000), "no room");
    let found = between(devices, 6, 8).next();
    expect_true(rt, found == Some(slot), &found);
    let stays = moved(rt.alloc(), devices, 7, request);
    expect_true(rt, stays == Ok(slot.range), &stays);
}

/// Plugs a second device in, out and in again.
fn use_replugged(rt: &(impl Abort + AllocGlobal), devices: &mut DeviceManager) {
    let (first, again) = replugged(rt.alloc(), devices).expect(rt, ENOUGH);
    let window = range(rt, 0xE000_1000, 0xE000_1FFF);
    expect_true(rt, first.id == 5 && first.range == window, first);
    expect_true(rt, again == first, again);
}

/// Passes a manager through its text.
fn use_text(rt: &(impl Abort + AllocGlobal), devices: &DeviceManager) {
    let again = through_text(rt.alloc(), devices).expect(rt, ENOUGH);
    expect_true(rt, again == *devices, "the same devices");
}

/// Makes all calls above.
fn use_devices(rt: &(impl Abort + AllocGlobal), devices: &mut DeviceManager) {
    use_device(rt, devices);
    use_replugged(rt, devices);
    use_text(rt, devices);
}

#[test]
fn uses(rt: HostRuntime) {
    use_devices(&rt, &mut made(&rt, (5, 23), 0xE000_0000, 0x2000));
}
