//! Short examples of calls. They guard against clauses from which a caller cannot prove what it needs.
ghost use Rattle.std.specs.Prelude.{◌≡◌, ◌%◌, ◌≤◌, ◌⊎◌, IfOk, IfErr};
ghost use Rattle.serde_json.specs.Data.{depth};
ghost use Rattle.serde_json.specs.Read.{max_depth};
ghost use Rattle.serde_json.specs.View.{view};
ghost use Rattle.std.specs.List.{Contains};
ghost use Rattle.vm_allocator.specs.Range.{address_count};
ghost use Rattle.vm_allocator.specs.Allocator.{state_of};
ghost use Rattle.vm_allocator.specs.Ids.{IsHeld};

use crate::fixtures::{ENOUGH, expect_true, made, range};
use crate::windows::{restored, windows};
use serde_json::Value;
use std::alloc::{AllocError, Global};
use std::process::Abort;
use vm_allocator::{
    AddressAllocator, AllocPolicy, Error, IdAllocator, RangeInclusive, Ranges, Result, ValueError,
};

/// Allocates a bar, which must start at a multiple of its size.
#[tactic(auto, using(vm_laws::proofs::Callers::callers))]
fn place_bar(alloc: Global, gap: &mut AddressAllocator, size: u64) -> Result<RangeInclusive>
    ensures aligned { IfOk result (λ bar. bar.start % size ≡ 0) }
    ensures long { IfOk result (λ bar. address_count bar ≡ size) }
{
    gap.allocate(alloc, size, size, AllocPolicy::FirstMatch)
}

/// Frees a slot and allocates it again, as for a device that is unplugged and plugged in.
#[tactic(auto, using(vm_laws::proofs::Callers::callers))]
fn replug(
    alloc: Global,
    memory: &mut AddressAllocator,
    slot: &RangeInclusive,
) -> Result<RangeInclusive>
    requires { Contains (state_of memory.old).held slot.now }
    ensures same_place { IfOk result (λ again. again ≡ slot.now) }
    ensures refused { IfErr result (λ error. (error ≡ Error.OutOfMemory) ⊎ (error ≡ Error.Overflow)) }
{
    // Proof: the prover now knows that allocated ranges are disjoint.
    let _ = memory.base();
    memory.free(slot)?;
    memory.allocate(alloc, slot.len(), 1, AllocPolicy::ExactMatch(slot.start()))
}

/// Allocates an interrupt number for a device, which no other device has.
#[tactic(auto, using(vm_laws::proofs::Callers::callers))]
fn take_interrupt(numbers: &mut IdAllocator) -> Result<u32>
    ensures nobodys { IfOk result (λ number. ¬ IsHeld numbers.old number) }
    ensures held { IfOk result (λ number. IsHeld numbers.new number) }
{
    numbers.allocate_id()
}

/// Parses the text of a value.
pub(crate) fn parsed_again(alloc: Global, value: &Value) -> std::result::Result<Value, ValueError>
    ensures { IfOk result (λ again. depth (view value.now) ≤ max_depth → view again ≡ view value.now) }
{
    let Ok(text) = value.to_string(alloc) else {
        return Err(ValueError::OutOfMemory);
    };
    let Ok(again) = Value::from_str(alloc, text.as_str()) else {
        return Err(ValueError::OutOfMemory);
    };
    Ok(again)
}

/// Returns the allocator that is read from the text of another, with the same state.
#[tactic(auto, using(vm_laws::proofs::Callers::through_text))]
fn space_through_text(
    alloc: Global,
    mmio: &AddressAllocator,
) -> std::result::Result<AddressAllocator, ValueError>
    ensures { IfOk result (λ again. state_of again ≡ state_of mmio.now) }
{
    let Ok(saved) = mmio.to_value(alloc) else {
        return Err(ValueError::OutOfMemory);
    };
    AddressAllocator::from_value(alloc, &parsed_again(alloc, &saved)?)
}

/// Returns the id allocator that is read from the text of another: the same one.
#[tactic(auto, using(vm_laws::proofs::Callers::through_text))]
fn ids_through_text(
    alloc: Global,
    ids: &IdAllocator,
) -> std::result::Result<IdAllocator, ValueError>
    ensures { IfOk result (λ again. again ≡ ids.now) }
{
    let Ok(saved) = ids.to_value(alloc) else {
        return Err(ValueError::OutOfMemory);
    };
    IdAllocator::from_value(alloc, &parsed_again(alloc, &saved)?)
}

/// Allocates two windows.
fn use_windows(rt: &(impl Abort + AllocGlobal)) {
    let (first, second) = windows(rt.alloc()).expect(rt, "there is room");
    let are_there = first.start() == 0xD000_0000 && second.start() == 0xD000_1000;
    expect_true(rt, are_there, "both windows");
}

/// Clones an iterator: the clone returns the ranges or gaps that the iterator has left.
fn ranges_again<'a>(ranges: &Ranges<'a>) -> std::result::Result<Ranges<'a>, AllocError>
    ensures { IfOk result (λ again. again ≡ ranges.now) }
{
    Clone::clone(ranges)
}

/// Writes and reads a gap.
fn use_restored(rt: &(impl Abort + AllocGlobal), gap: &AddressAllocator) {
    let empty = restored(rt.alloc(), gap).expect(rt, ENOUGH);
    expect_true(rt, empty == *gap, "the same gap");
}

/// Passes an allocator of addresses through its text.
fn use_space_text(rt: &(impl Abort + AllocGlobal), gap: &AddressAllocator) {
    let again = space_through_text(rt.alloc(), gap).expect(rt, ENOUGH);
    expect_true(rt, again == *gap, "the same gap");
}

/// Passes an allocator of ids through its text.
fn use_id_text(rt: &(impl Abort + AllocGlobal), ids: &IdAllocator) {
    let again = ids_through_text(rt.alloc(), ids).expect(rt, ENOUGH);
    expect_true(rt, again == *ids, "the same ids");
}

/// Clones iterators over the allocated ranges and the gaps.
fn use_clones(rt: &(impl Abort + AllocGlobal), gap: &AddressAllocator) {
    if let Ok(mut again) = ranges_again(&gap.held_ranges()) {
        expect_true(
            rt,
            again.next() == gap.held_ranges().next(),
            "the same range",
        );
    }
    if let Ok(mut again) = ranges_again(&gap.gaps()) {
        expect_true(rt, again.next() == gap.gaps().next(), "the same gap");
    }
}

/// Allocates a bar in a gap.
fn use_bar(rt: &(impl Abort + AllocGlobal), gap: &mut AddressAllocator) {
    let bar = place_bar(rt.alloc(), gap, 0x10_0000);
    let want = Ok(range(rt, 0xE010_0000, 0xE01F_FFFF));
    expect_true(rt, bar == want, bar);
}

/// Unplugs a slot of a memory, and plugs it in.
#[tactic(auto, using(vm_laws::proofs::Callers::callers))]
fn use_memory(rt: &(impl Abort + AllocGlobal)) {
    let mut memory = made(rt, 0x1_0000_0000, 0x4000_0000);
    let slot = memory
        .allocate(rt.alloc(), 0x4000_0000, 0x1000, AllocPolicy::LastMatch)
        .expect(rt, "there is room");
    let again = replug(rt.alloc(), &mut memory, &slot);
    expect_true(rt, again == Ok(slot), again);
}

/// Allocates the first two numbers for devices, and passes the allocator through its text.
fn use_numbers(rt: &(impl Abort + AllocGlobal)) {
    let mut numbers = IdAllocator::new(rt.alloc(), 5, 23).expect(rt, "it is a range");
    expect_true(rt, take_interrupt(&mut numbers) == Ok(5), "5");
    expect_true(rt, take_interrupt(&mut numbers) == Ok(6), "6");
    use_id_text(rt, &numbers);
}

#[test]
fn uses(rt: HostRuntime) {
    use_windows(&rt);
    let mut gap = made(&rt, 0xE000_1000, 0xFF_F000);
    use_restored(&rt, &gap);
    use_space_text(&rt, &gap);
    use_bar(&rt, &mut gap);
    use_clones(&rt, &gap);
    use_memory(&rt);
    use_numbers(&rt);
}
