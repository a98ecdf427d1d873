//! Laws of devices, each of which holds an id and a range.
//!
//! Each law is the contract of a function that does nothing. Each is a promise.
ghost use Rattle.vm_ranges.specs.Histories.{ErrorsChangeNothing, EveryListHasHistory, SameCallsSameResults};
ghost use Rattle.vm_devices.specs.Histories.{IsDeviceCallFrom};
ghost use Rattle.vm_devices.specs.Laws.{
  DevicesAreValid,
  ReservedAgain,
  RangeIsReservedAgain,
  DevicesDecide,
  EveryDeviceCallIsAnswered,
  ManagerIsReadAgain,
  ManagerIsReadFromText,
  DevicesAreListed,
  WrittenManagersAreRead,
  PartsDecideManagers,
  EqualManagersHaveEqualParts,
  DeviceIsAtItsAddresses,
};

/// Proves that in every history no two devices share an id or an address, and each device is in the
/// space.
///
/// Its range has the requested length and alignment, or the device is from the value that was read.
#[tactic(auto, using(crate::proofs::DeviceHistories::devices_are_valid))]
fn devices_are_valid()
    ensures { DevicesAreValid }
{}

/// Proves that the id and the range of a released device can be reserved again at once. The same
/// request reserves the same device.
#[tactic(auto, using(crate::proofs::DevicesAgain::again))]
fn released_devices_are_reserved_again()
    ensures same { ReservedAgain }
    ensures range { RangeIsReservedAgain }
{}

/// Proves that the result of a call depends only on ids, space and devices, if memory suffices, and
/// that an error changes nothing.
#[tactic(auto, using(crate::proofs::DevicesOnce::decides))]
fn devices_decide()
    ensures call { DevicesDecide }
    ensures list { SameCallsSameResults IsDeviceCallFrom }
    ensures errors { ErrorsChangeNothing IsDeviceCallFrom }
{}

/// Proves that every call has a result in every state, so every list of calls has a history.
#[tactic(auto, using(crate::proofs::EveryDeviceCall::answers))]
fn every_call_is_answered()
    ensures call { EveryDeviceCallIsAnswered }
    ensures list { EveryListHasHistory IsDeviceCallFrom }
{}

/// Proves that a manager that was written is read again, and that a value encodes at most one
/// manager.
#[tactic(auto, using(crate::proofs::SavedManagers::manager_again))]
fn managers_are_read_again()
    ensures { ManagerIsReadAgain }
{}

/// Proves that a saved manager survives its JSON text: `to_value`, `to_string`, `from_str` and
/// `from_value` in turn return the same manager, unless memory runs out.
fn texts_are_read()
    ensures { ManagerIsReadFromText }
{}

/// Proves that `devices` returns the allocated ids with the allocated ranges, one to one.
#[tactic(auto, using(crate::proofs::DeviceQueries::queries))]
fn devices_are_listed()
    ensures { DevicesAreListed }
{}

/// Proves that the ids, the space and the devices of a manager are accepted by `push` and
/// `from_devices`, and make the same manager. Each part has one result there, unless memory runs out.
/// Managers with equal parts are equal.
#[tactic(auto, using(crate::proofs::WrittenManagers::written))]
fn written_managers_are_read()
    ensures read { WrittenManagersAreRead }
    ensures decided { PartsDecideManagers }
    ensures equal { EqualManagersHaveEqualParts }
{}

/// Proves that `device_at` returns the device of each address of a device's range.
#[tactic(auto, using(crate::proofs::DeviceQueries::queries))]
fn devices_are_at_their_addresses()
    ensures { DeviceIsAtItsAddresses }
{}
