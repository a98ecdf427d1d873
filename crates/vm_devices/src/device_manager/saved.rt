//! The saved value of a manager: its version, both allocators, and the list of its devices.
ghost use Rattle.std.specs.Prelude.{◌≡◌, IfOk, option_map};
ghost use Rattle.serde_json.specs.View.{view, items_view};
ghost use Rattle.vm_ranges.specs.Saving.{Saves};
ghost use Rattle.vm_space.specs.Building.{IsLowestTree};
ghost use Rattle.vm_space.specs.Shape.{blocks};
ghost use Rattle.vm_devices.specs.Devices.{IsDeviceState};
ghost use Rattle.vm_devices.specs.Manager.{device_state, made_manager};
ghost use Rattle.vm_devices.specs.Saved.{EncodesManager, ReadsInParts};
ghost use Rattle.vm_devices.specs.SavedChecks.{decoded_manager, ManagerParts, WritesManager};

pub(super) mod read_devices;
mod slots;

use self::read_devices::SAVED_VERSION;
use self::slots::{encode_slots, read_slots};
use super::DeviceManager;
use serde_json::{Value, json};
use std::alloc::{AllocError, Global};
use vm_addresses::{AddressAllocator, Result, ValueError};
use vm_ids::IdAllocator;
use vm_ranges::{has_fields, list_in, number_in};

impl DeviceManager {
    /// Encodes the manager as a value: its version, its ids, its space and its devices, by
    /// ascending ids.
    ///
    /// # Errors
    ///
    /// - `OutOfMemory` if an allocation fails.
    #[tactic(auto, using(crate::proofs::SavedManagers::manager_written))]
    pub fn to_value(&self, alloc: Global) -> Result<Value>
        ensures answer { Saves (λ d. EncodesManager d (device_state self.now)) result }
        // The blocks decide the saved tree.
        ensures written { Saves (WritesManager (blocks self.now.addresses)) result }
    {
        let ids = self.id_allocator.to_value(alloc)?;
        let space = self.mmio_allocator.to_value(alloc)?;
        let slots = encode_slots(alloc, self.devices())?;
        Ok(manager_object(alloc, ids, space, slots)?)
    }

    /// Decodes a manager from a value: its ids, its space and its devices. The tree of its addresses has the
    /// minimum height.
    ///
    /// The value can be untrusted input. Its parts are read one after the other, so `OutOfMemory`
    /// is possible for every value.
    ///
    /// # Errors
    ///
    /// - `NotAState` if one of these is true:
    ///   - The fields or the version are not those of a manager.
    ///   - A part of the value is not valid.
    ///   - The ids of the devices are not in ascending order.
    ///   - The id or the range of a device is not allocated.
    ///   - An allocated id or range has no device.
    ///   - Two devices have the same range.
    /// - `OutOfMemory` if an allocation fails.
    #[tactic(auto, using(crate::proofs::SavedManagers::no_fields))]
    pub fn from_value(alloc: Global, value: &Value) -> std::result::Result<Self, ValueError>
        ensures answer { ReadsInParts (EncodesManager (view value.now)) (made_manager result) }
        ensures low { IfOk result (λ manager. IsLowestTree manager.addresses) }
        ensures state { IfOk result (λ manager. IsDeviceState (device_state manager)) }
    {
        let Some(fields) = decode_fields(value) else {
            return Err(ValueError::NotAState);
        };
        let ids = IdAllocator::from_value(alloc, fields.ids)?;
        let space = AddressAllocator::from_value(alloc, fields.space)?;
        let devices = read_slots(alloc, fields.slots)?;
        Ok(Self::from_devices(alloc, fields.version, ids, space, &devices)?)
    }
}

/// Builds the object with the fields of a manager.
fn manager_object(
    alloc: Global,
    ids: Value,
    space: Value,
    slots: Value,
) -> std::result::Result<Value, AllocError>
    ensures { IfOk result (λ value. ManagerParts (view value) (view ids) (view space) (view slots)) }
{
    // The version is last: if an allocation for it fails, only the object has to be dropped.
    json!(in alloc; {"id_allocator": ids, "mmio_allocator": space, "slots": slots, "version": SAVED_VERSION})
}

/// The values of the fields of a manager's value.
#[derive(Drop)]
struct Fields<'a> {
    version: u64,
    ids: &'a Value,
    space: &'a Value,
    slots: &'a Vec<Value>,
}

/// Returns the fields of a value, or `None` if they are not those of a manager.
fn decode_fields(value: &Value) -> Option<Fields<'_>>
    ensures { option_map (λ f. (f.version, view f.ids.now, view f.space.now, items_view f.slots.now.items)) result
        ≡ decoded_manager (view value.now) }
{
    if !has_fields(value, 4) {
        return None;
    }
    let version = number_in(value, "version")?;
    let ids = value.get("id_allocator")?;
    let space = value.get("mmio_allocator")?;
    let slots = list_in(value, "slots")?;
    Some(Fields {
        version,
        ids,
        space,
        slots,
    })
}
