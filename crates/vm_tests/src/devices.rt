//! Tests of managers of devices.
//!
//! They guard against a device with an id or a range, but not both.
use crate::fixtures::{ENOUGH, expect_eq, expect_true};
use Call::{Exact, First, FirstIn, Last, LookUp, Release, WithId};
use Expected::{Device, Gone, Held, NeverAllocated, NoSize, NotAvailable, Overflow, Unaligned};
use std::alloc::Global;
use std::process::Abort;
use vm_allocator::allocation_engine::NodeState::Allocated;
use vm_allocator::{AllocPolicy, Constraint, Error, IdRequest, RangeInclusive, Result};
use vm_devices::DeviceManager;

mod fields;
mod in_turn;
mod saved;
mod uses;
mod without_memory;

/// A call of a manager.
#[derive(Clone, Copy)]
enum Call {
    /// Reserves the lowest range of a size and an alignment.
    First(u64, u64),
    /// Reserves the highest range of a size and an alignment.
    Last(u64, u64),
    /// Reserves a range by its size, its alignment and its start.
    Exact(u64, u64, u64),
    /// Reserves like `First`, in a window by its first and its last address.
    FirstIn(u64, u64, (u64, u64)),
    /// Reserves with the lowest id from a first to a last one, and the lowest range of a size.
    WithId(u32, u32, u64),
    /// Releases the device with an id.
    Release(u32),
    /// Looks up the device with an id.
    LookUp(u32),
}

/// The expected result of a call.
#[derive(Clone, Copy)]
enum Expected {
    /// The id of a device, new or looked up, and the first and the last address of its range.
    Device(u32, u64, u64),
    /// A device was released, or there is no device with the id.
    Gone,
    NotAvailable,
    Overflow,
    Unaligned,
    NoSize,
    NeverAllocated(u32),
    /// An error because exactly this range is allocated.
    Held(u64, u64),
}

/// The id of a device with the ends of its range, or `None` if there is no such device any more.
type Answer = Result<Option<(u32, u64, u64)>>;

impl Expected {
    fn answer(self) -> Answer {
        match self {
            Device(id, start, end) => Ok(Some((id, start, end))),
            Gone => Ok(None),
            NotAvailable => Err(Error::ResourceNotAvailable),
            Overflow => Err(Error::Overflow),
            Unaligned => Err(Error::UnalignedAddress),
            NoSize => Err(Error::InvalidSize(0)),
            NeverAllocated(id) => Err(Error::NeverAllocated(id)),
            Held(start, end) => {
                let range = RangeInclusive::new(start, end)?;
                Err(Error::InvalidStateTransition(range, Allocated))
            }
        }
    }
}

impl Call {
    /// Makes the call.
    fn ask(self, devices: &mut DeviceManager, alloc: Global) -> Answer {
        let (size, align, policy) = match self {
            Release(id) => {
                devices.release(id)?;
                return Ok(None);
            }
            LookUp(id) => return Ok(look_up(devices, id)),
            FirstIn(size, align, window) => {
                let first = (size, align, AllocPolicy::FirstMatch);
                return reserve_in(devices, alloc, first, window);
            }
            WithId(first, last, size) => {
                return reserve_with_id(devices, alloc, IdRequest::LowestIn(first, last), size);
            }
            First(size, align) => (size, align, AllocPolicy::FirstMatch),
            Last(size, align) => (size, align, AllocPolicy::LastMatch),
            Exact(size, align, start) => (size, align, AllocPolicy::ExactMatch(start)),
        };
        let slot = devices.reserve(alloc, size, align, policy)?;
        Ok(Some((slot.id, slot.range.start(), slot.range.end())))
    }
}

/// Reserves a device in a window.
fn reserve_in(
    devices: &mut DeviceManager,
    alloc: Global,
    asked: (u64, u64, AllocPolicy),
    window: (u64, u64),
) -> Answer {
    let (size, align, policy) = asked;
    let window = RangeInclusive::new(window.0, window.1)?;
    let request = Constraint::new(size, align, policy)?.within(window);
    let slot = devices.reserve_constraint(alloc, request)?;
    Ok(Some((slot.id, slot.range.start(), slot.range.end())))
}

/// Reserves a device with an id of a request.
fn reserve_with_id(devices: &mut DeviceManager, alloc: Global, id: IdRequest, size: u64) -> Answer {
    let request = Constraint::new(size, 1, AllocPolicy::FirstMatch)?;
    let slot = devices.reserve_with_id(alloc, id, request)?;
    Ok(Some((slot.id, slot.range.start(), slot.range.end())))
}

/// Creates a manager.
fn made(rt: &(impl Abort + AllocGlobal), ids: (u32, u32), base: u64, size: u64) -> DeviceManager {
    DeviceManager::new(rt.alloc(), ids.0, ids.1, base, size).expect(rt, ENOUGH)
}

/// Returns the device with an id, and the ends of its range.
fn look_up(devices: &DeviceManager, id: u32) -> Option<(u32, u64, u64)> {
    let range = devices.slot(id)?;
    Some((id, range.start(), range.end()))
}

/// Makes the calls in turn, and checks their results.
fn replay(rt: &(impl Abort + AllocGlobal), devices: &mut DeviceManager, rows: &[(Call, Expected)]) {
    for (row, (call, want)) in rows.iter().enumerate() {
        expect_eq(rt, call.ask(devices, rt.alloc()), want.answer(), row);
    }
}

/// Makes the calls in turn on a new manager of these ids and these addresses.
fn replay_in(
    rt: &(impl Abort + AllocGlobal),
    ids: (u32, u32),
    base: u64,
    size: u64,
    rows: &[(Call, Expected)],
) {
    replay(rt, &mut made(rt, ids, base, size), rows);
}

#[test]
fn devices_of_the_documentation(rt: HostRuntime) {
    let rows = &[
        (First(0x1000, 0x1000), Device(0, 0xD000_0000, 0xD000_0FFF)),
        (First(0x1000, 0x1000), Device(1, 0xD000_1000, 0xD000_1FFF)),
        (Release(0), Gone),
        (Release(0), NeverAllocated(0)),
        (LookUp(0), Gone),
        (LookUp(1), Device(1, 0xD000_1000, 0xD000_1FFF)),
        (First(0x1000, 0x1000), Device(0, 0xD000_0000, 0xD000_0FFF)),
    ];
    replay_in(&rt, (0, 100), 0xD000_0000, 0x3000_0000, rows);
}

#[test]
fn both_or_neither(rt: HostRuntime) {
    let one = &[
        (First(0x800, 1), Device(0, 0x1000, 0x17FF)),
        (First(0x800, 1), NotAvailable),
        (First(0, 1), NotAvailable),
        (Release(0), Gone),
        (First(0, 1), NoSize),
        (Exact(0x100, 0x100, 0x1080), Unaligned),
        (
            FirstIn(0x800, 1, (0x1001, 0x1800)),
            Device(0, 0x1001, 0x1800),
        ),
    ];
    replay_in(&rt, (0, 0), 0x1000, 0x1000, one);

    let last = &[
        (Last(1, 1), Device(u32::MAX, 15, 15)),
        (Last(1, 1), Overflow),
        (Release(0), NeverAllocated(0)),
        (Release(u32::MAX), Gone),
        (Exact(4, 4, 8), Device(u32::MAX, 8, 11)),
        (LookUp(u32::MAX), Device(u32::MAX, 8, 11)),
        (LookUp(0), Gone),
    ];
    replay_in(&rt, (u32::MAX, u32::MAX), 0, 16, last);

    let full = &[
        (First(4, 1), Device(3, 0, 3)),
        (First(1, 1), NotAvailable),
        (Exact(4, 1, 0), Held(0, 3)),
        (Release(4), NeverAllocated(4)),
        (Release(3), Gone),
        (First(1, 1), Device(3, 0, 0)),
        (WithId(8, 9, 1), Device(8, 1, 1)),
        (WithId(8, 8, 1), NotAvailable),
    ];
    replay_in(&rt, (3, 9), 0, 4, full);
}
