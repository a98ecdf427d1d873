//! Equality of managers.
ghost use Rattle.std.specs.Prelude.{◌≡◌, ◌↔◌, IsTrue};
ghost use Rattle.std.proofs.Common.{rules};
ghost use Rattle.std.specs.Cmp.Rules.{comparing};
ghost use Rattle.std.specs.Ordering.{on, eq_by_cmp};
ghost use Rattle.vm_devices.specs.Checks.{HaveSameAllocators};
ghost use Rattle.vm_devices.specs.Devices.{IsDeviceState};
ghost use Rattle.vm_devices.specs.Manager.{device_state};
ghost use Rattle.vm_devices.specs.Queries.{device_state_cmp, device_state_cmp-total};

use super::DeviceManager;

impl PartialEq for DeviceManager {
    ghost eq = { eq_by_cmp (on device_state device_state_cmp) };

    ghost laws = { Prim.search (comparing, device_state_cmp-total, rules) };

    /// Returns `true` if both managers have equal allocators and the same devices.
    ///
    /// It stops at the first difference and does not allocate.
    fn eq(&self, other: &DeviceManager) -> bool
        ensures equal { IsTrue result ↔ (device_state self.now ≡ device_state other.now) }
        ensures order { result ≡ eq_by_cmp device_state_cmp (device_state self.now) (device_state other.now) }
    {
        self.has_allocators_of(other) && self.devices().eq(other.devices())
    }
}

impl Eq for DeviceManager {
    ghost laws = { Prim.search (comparing, device_state_cmp-total, rules) };
}

impl DeviceManager {
    /// Returns `true` if both managers have equal allocators.
    #[tactic(auto, using(crate::proofs::WrittenManagers::spaces))]
    fn has_allocators_of(&self, other: &DeviceManager) -> bool
        ensures same { IsTrue result ↔ HaveSameAllocators (device_state self.now) (device_state other.now) }
        ensures valid { IsDeviceState (device_state self.now) × IsDeviceState (device_state other.now) }
    {
        self.id_allocator == other.id_allocator && self.mmio_allocator == other.mmio_allocator
    }
}
