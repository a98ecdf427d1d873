//! Devices of a virtual machine. Each has an id and a range of addresses, both or neither.
//!
//! # How a manager is stated
//!
//! - The value of a [`DeviceManager`] has its ids, the `Shape` of its tree of addresses, and the range of
//!   each device by its id. `device_state` is its state.
//! - `ArePaired`: the devices pair the held ids with the held ranges.
//!
//! # What is proved
//!
//! - The exact result of each call, and each error except out of memory under its condition
//!   (`Reserves`, `Releases`, `MovesDevice`). An error leaves the same devices, ids and ranges.
//! - For every list of calls: the devices are paired, and the state decides the results, unless memory runs
//!   out.
//! - A saved manager is read if and only if it is valid.
//!
//! # What is only tested
//!
//! - How much memory the table of devices takes, and how long a call takes.
#![tactic(auto)]

mod device_manager;
mod device_slot;
mod laws;

pub use device_manager::{DeviceManager, Devices, DevicesIn, ReadDevices, SAVED_VERSION};
pub use device_slot::DeviceSlot;
