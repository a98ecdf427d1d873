//! Guards against a comparison that leaves out a field. divsharun/tests/calls.rs has other types.
use crate::fixtures::{expect_eq, range};
use vm_devices::DeviceSlot;

#[test]
fn devices_compared(rt: HostRuntime) {
    let (low, high) = (range(&rt, 1, 2), range(&rt, 1, 3));
    let devices = [
        DeviceSlot { id: 1, range: low },
        DeviceSlot { id: 2, range: low },
        DeviceSlot { id: 1, range: high },
    ];
    for (i, first) in devices.iter().enumerate() {
        for (j, second) in devices.iter().enumerate() {
            expect_eq(&rt, first == second, i == j, (i, j));
        }
    }
}
