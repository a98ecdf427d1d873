//! The example of CALLING.md of vm_allocator, word for word below this line. It guards against a page
//! that is not proved.
ghost use Rattle.std.specs.Prelude.{◌≡◌, IfOk};
ghost use Rattle.vm_allocator.specs.Range.{Overlaps};
ghost use Rattle.vm_allocator.specs.Allocator.{state_of};

use std::alloc::Global;
use vm_allocator::{AddressAllocator, AllocPolicy, RangeInclusive, Result, ValueError};

/// Two windows of a page each in the gap below 4 GiB.
#[tactic(auto, using(vm_laws::proofs::Callers::callers))]
pub fn windows(alloc: Global) -> Result<(RangeInclusive, RangeInclusive)>
    ensures { IfOk result (λ both. ¬ Overlaps both.0 both.1) }
{
    let mut mmio = AddressAllocator::new(alloc, 0xD000_0000, 0x3000_0000)?;
    let first = mmio.allocate(alloc, 0x1000, 0x1000, AllocPolicy::FirstMatch)?;
    let second = mmio.allocate(alloc, 0x1000, 0x1000, AllocPolicy::FirstMatch)?;
    Ok((first, second))
}

/// The allocator that is read from what is written of another, with the same state.
#[tactic(auto, using(vm_laws::proofs::Callers::callers))]
pub fn restored(
    alloc: Global,
    mmio: &AddressAllocator,
) -> std::result::Result<AddressAllocator, ValueError>
    ensures { IfOk result (λ again. state_of again ≡ state_of mmio.now) }
{
    let Ok(saved) = mmio.to_value(alloc) else {
        return Err(ValueError::OutOfMemory);
    };
    AddressAllocator::from_value(alloc, &saved)
}
