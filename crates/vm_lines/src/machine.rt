//! The space, the ids and the devices of a session, and the effect of each command on them.
ghost use Rattle.std.specs.Prelude.{◌≡◌};
ghost use Rattle.vm_addresses.specs.Allocator.{state_of};
ghost use Rattle.vm_ranges.specs.Request.{request_for};
ghost use Rattle.vm_lines.specs.Machines.{AllocatesRange, FreesRange, replaced_if_ok};
ghost use Rattle.vm_lines.specs.Replies.{done_reply};

use crate::reply::{Reply, device_reply, done_reply, id_reply, range_reply};
use std::alloc::Global;
use std::marker::Model;
use vm_addresses::{AddressAllocator, AllocPolicy, RangeInclusive, Result};
use vm_commands::Command;
use vm_devices::DeviceManager;
use vm_ids::IdAllocator;

/// The space, the ids and the devices that the lines so far have created.
#[derive(Drop)]
pub(crate) struct Machine {
    space: Option<AddressAllocator>,
    ids: Option<IdAllocator>,
    devices: Option<DeviceManager>,
}

impl Model for Machine {
    ghost use Rattle.std.specs.Option.{option_map};
    ghost use Rattle.vm_addresses.specs.Allocator.{state_of};
    ghost use Rattle.vm_devices.specs.Manager.{device_state};
    ghost use Rattle.vm_lines.specs.Machines.{Machine, machine_code};

    ghost Value = { Machine };

    ghost coded = { machine_code };

    ghost view = { λ a.
        record { space = option_map state_of a.space; ids = a.ids; devices = option_map device_state a.devices } };
}

impl Machine {
    ghost use Rattle.vm_lines.specs.Machines.{start, Does};

    /// Creates a machine without space, ids and devices.
    pub(crate) fn new() -> Machine
        ensures { result ≡ start }
    {
        Machine {
            space: None,
            ids: None,
            devices: None,
        }
    }

    /// Executes a command.
    #[tactic(auto, unfolding(crate::specs::Machines::Does))]
    pub(crate) fn answer(&mut self, alloc: Global, command: Command) -> Reply
        ensures { Does self.old command result self.new }
    {
        match command {
            Command::Space { base, size } => self.make_space(alloc, base, size),
            Command::First { size, alignment } => {
                self.allocate(alloc, size, alignment, AllocPolicy::FirstMatch)
            }
            Command::Last { size, alignment } => {
                self.allocate(alloc, size, alignment, AllocPolicy::LastMatch)
            }
            Command::Exact {
                size,
                alignment,
                start,
            } => self.allocate(alloc, size, alignment, AllocPolicy::ExactMatch(start)),
            Command::Free { start, end } => self.free(start, end),
            Command::Ids {
                range_base,
                range_end,
            } => self.make_ids(alloc, range_base, range_end),
            Command::Id => self.allocate_id(),
            Command::Unid { id } => self.free_id(id),
            Command::Has { id } => self.has_id(id),
            Command::Manager {
                id_lo,
                id_hi,
                base,
                size,
            } => self.make_manager(alloc, id_lo, id_hi, base, size),
            Command::Device { size, alignment } => self.reserve(alloc, size, alignment),
            Command::Undevice { id } => self.release_device(id),
            Command::Malformed => Reply::NotInLanguage,
        }
    }

    /// Creates a space, which replaces the old one. An error keeps the old one.
    #[tactic(auto, unfolding(crate::specs::Machines::Does))]
    fn make_space(&mut self, alloc: Global, base: u64, size: u64) -> Reply
        ensures { Does self.old (Command.Space base size) result self.new }
    {
        replace_if_ok(AddressAllocator::new(alloc, base, size), &mut self.space)
    }

    /// Allocates `size` addresses by a policy.
    #[tactic(auto, unfolding(crate::specs::Machines::AllocatesRange, crate::specs::Machines::OnSpace))]
    fn allocate(&mut self, alloc: Global, size: u64, alignment: u64, policy: AllocPolicy) -> Reply
        ensures { AllocatesRange self.old (request_for size alignment policy) result self.new }
    {
        let Some(space) = &mut self.space else {
            return Reply::NoSpace;
        };
        range_reply(space.allocate(alloc, size, alignment, policy))
    }

    /// Frees a range.
    #[tactic(auto, unfolding(crate::specs::Machines::Does, crate::specs::Machines::OnSpace))]
    fn free(&mut self, start: u64, end: u64) -> Reply
        ensures { Does self.old (Command.Free start end) result self.new }
    {
        let Some(space) = &mut self.space else {
            return Reply::NoSpace;
        };
        done_reply(free_range(space, start, end))
    }

    /// Creates ids, which replace the old ones. An error keeps the old ones.
    #[tactic(auto, unfolding(crate::specs::Machines::Does))]
    fn make_ids(&mut self, alloc: Global, range_base: u32, range_end: u32) -> Reply
        ensures { Does self.old (Command.Ids range_base range_end) result self.new }
    {
        replace_if_ok(
            IdAllocator::new(alloc, range_base, range_end),
            &mut self.ids,
        )
    }

    /// Allocates the lowest free id.
    #[tactic(auto, unfolding(crate::specs::Machines::Does, crate::specs::Machines::OnIds))]
    fn allocate_id(&mut self) -> Reply
        ensures { Does self.old Command.Id result self.new }
    {
        let Some(ids) = &mut self.ids else {
            return Reply::NoIds;
        };
        id_reply(ids.allocate_id())
    }

    /// Frees an id.
    #[tactic(auto, unfolding(crate::specs::Machines::Does, crate::specs::Machines::OnIds))]
    fn free_id(&mut self, id: u32) -> Reply
        ensures { Does self.old (Command.Unid id) result self.new }
    {
        let Some(ids) = &mut self.ids else {
            return Reply::NoIds;
        };
        id_reply(ids.free_id(id))
    }

    /// Checks whether an id is allocated.
    #[tactic(auto, unfolding(crate::specs::Machines::Does, crate::specs::Machines::OnIds))]
    fn has_id(&self, id: u32) -> Reply
        ensures { Does self.now (Command.Has id) result self.now }
    {
        let Some(ids) = &self.ids else {
            return Reply::NoIds;
        };
        Reply::Held(ids.is_allocated(id))
    }

    /// Creates a manager, which replaces the old one. An error keeps the old one.
    #[tactic(auto, unfolding(crate::specs::Machines::Does))]
    fn make_manager(&mut self, alloc: Global, id_lo: u32, id_hi: u32, base: u64, size: u64) -> Reply
        ensures { Does self.old (Command.Manager id_lo id_hi base size) result self.new }
    {
        let made = DeviceManager::new(alloc, id_lo, id_hi, base, size);
        replace_if_ok(made, &mut self.devices)
    }

    /// Reserves a device with the lowest free id and the lowest free addresses.
    #[tactic(auto, unfolding(crate::specs::Machines::Does, crate::specs::Machines::OnDevices))]
    fn reserve(&mut self, alloc: Global, size: u64, alignment: u64) -> Reply
        ensures { Does self.old (Command.Device size alignment) result self.new }
    {
        let Some(devices) = &mut self.devices else {
            return Reply::NoManager;
        };
        device_reply(devices.reserve(alloc, size, alignment, AllocPolicy::FirstMatch))
    }

    /// Releases a device.
    #[tactic(auto, unfolding(crate::specs::Machines::Does, crate::specs::Machines::OnDevices))]
    fn release_device(&mut self, id: u32) -> Reply
        ensures { Does self.old (Command.Undevice id) result self.new }
    {
        let Some(devices) = &mut self.devices else {
            return Reply::NoManager;
        };
        done_reply(devices.release(id))
    }
}

/// Replaces a part by the new one. An error keeps the old one.
#[inline(always)]
fn replace_if_ok<T: Drop>(made: Result<T>, part: &mut Option<T>) -> Reply
    ensures reply { result ≡ done_reply made }
    ensures part { part.new ≡ replaced_if_ok made part.old }
{
    match made {
        Ok(new) => {
            *part = Some(new);
            Reply::Done
        }
        Err(error) => Reply::Failed(error),
    }
}

/// Frees the range from `start` to `end`. Returns `InvalidRange(start, end)` if there is no range
/// with these ends.
#[tactic(auto, unfolding(crate::specs::Machines::FreesRange))]
fn free_range(space: &mut AddressAllocator, start: u64, end: u64) -> Result<()>
    ensures { FreesRange (state_of space.old) start end result (state_of space.new) }
{
    let range = RangeInclusive::new(start, end)?;
    space.free(&range)
}
