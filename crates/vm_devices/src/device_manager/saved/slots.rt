//! The list of devices in a manager's value.
ghost use Rattle.std.specs.Prelude.{◌≡◌, map, IfOk, option_map};
ghost use Rattle.serde_json.specs.View.{view, items_view};
ghost use Rattle.vm_ranges.specs.Saving.{Saves};
ghost use Rattle.vm_devices.specs.Queries.{entry_of};
ghost use Rattle.vm_devices.specs.Saved.{EncodesDevice, EncodesList, ReadsInParts};
ghost use Rattle.vm_devices.specs.SavedChecks.{decoded_device, EncodesDevices, DeviceParts};

use super::read_devices::ReadDevices;
use crate::device_manager::device_table::Devices;
use crate::device_slot::DeviceSlot;
use serde_json::{Value, json};
use std::alloc::{AllocError, Global};
use vm_addresses::{Result, ValueError};
use vm_ranges::{has_fields, range_in, u32_in};

/// Encodes the devices as a list.
#[tactic(auto, using(vm_ranges::proofs::Lists::encodes_more))]
pub(super) fn encode_slots(alloc: Global, devices: Devices<'_>) -> Result<Value>
    ensures { Saves (λ d. EncodesList d (map entry_of devices.entry)) result }
{
    let mut list = Vec::new(alloc);
    for device in devices {
        let slot = encode_slot(alloc, &device)?;
        list.push(slot)?;
    }
    Ok(Value::from(list))
}

/// Encodes one device.
fn encode_slot(alloc: Global, device: &DeviceSlot) -> Result<Value>
    ensures { Saves (λ d. EncodesDevice d (entry_of device.now)) result }
{
    let range = device.range.to_value(alloc)?;
    Ok(slot_object(alloc, device.id, range)?)
}

/// Builds the object with the fields of a device.
fn slot_object(alloc: Global, id: u32, range: Value) -> std::result::Result<Value, AllocError>
    ensures { IfOk result (λ value. DeviceParts (view value) id (view range)) }
{
    json!(in alloc; {"id": id, "mmio_range": range})
}

/// Reads the devices of a list. Returns `NotAState` if an item is not a device, or if the ids are
/// not in strictly ascending order.
#[tactic(auto, using(crate::proofs::SavedManagers::no_device, crate::proofs::SavedManagers::one_read, crate::proofs::SavedManagers::push_refused))]
pub(super) fn read_slots(
    alloc: Global,
    list: &[Value],
) -> std::result::Result<ReadDevices, ValueError>
    ensures { ReadsInParts (EncodesDevices (items_view list.now)) result }
{
    let mut devices = ReadDevices::new(alloc);
    for item in list {
        let Some(device) = decode_slot(item) else {
            return Err(ValueError::NotAState);
        };
        devices.push(device)?;
    }
    Ok(devices)
}

/// Decodes a device. Returns `None` if the value is not a device.
fn decode_slot(value: &Value) -> Option<DeviceSlot>
    ensures { option_map entry_of result ≡ decoded_device (view value.now) }
{
    if !has_fields(value, 2) {
        return None;
    }
    let id = u32_in(value, "id")?;
    let range = range_in(value, "mmio_range")?;
    Some(DeviceSlot { id, range })
}
