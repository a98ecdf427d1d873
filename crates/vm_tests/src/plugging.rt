//! The example of CALLING.md of vm_devices, word for word below this line. It guards against a page
//! that is not proved.
ghost use Rattle.std.specs.Prelude.{◌≡◌, IfOk};

use std::alloc::Global;
use vm_allocator::{AllocPolicy, Result};
use vm_devices::{DeviceManager, DeviceSlot};

/// A device that is plugged in, out and in again: it gets the same id and the same window.
#[tactic(auto, using(vm_devices::proofs::Callers::callers))]
pub fn replugged(alloc: Global, devices: &mut DeviceManager) -> Result<(DeviceSlot, DeviceSlot)>
    ensures { IfOk result (λ both. both.0 ≡ both.1) }
{
    // Proof: gives the prover `state`.
    let _ = devices.slot(0);
    let first = devices.reserve(alloc, 0x1000, 0x1000, AllocPolicy::FirstMatch)?;
    devices.release(first.id)?;
    let again = devices.reserve(alloc, 0x1000, 0x1000, AllocPolicy::FirstMatch)?;
    Ok((first, again))
}
