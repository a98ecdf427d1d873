//! The id and the range of a device.
use vm_addresses::RangeInclusive;
use vm_list::Keyed;

/// The id and the range of addresses of a device.
#[derive(Clone, Copy, Debug, PartialEq, Eq)]
pub struct DeviceSlot {
    pub id: u32,
    pub range: RangeInclusive,
}

impl Keyed for DeviceSlot {
    ghost key_of = { λ s. s.id };

    /// Returns the id.
    fn key(&self) -> u64 {
        u64::from(self.id)
    }
}
