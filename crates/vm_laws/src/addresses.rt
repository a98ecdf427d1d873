//! Laws of single calls of an address allocator.
//!
//! `states_are_preserved` and `one_range_changes` are steps. The other laws are promises.
ghost use Rattle.vm_laws.specs.AddressLaws.{AllocatesOnce, FreesOnce, HeldAreDisjoint, AllocatingAddsRange, FreeingRemovesRange, FreeingUndoes, MisalignedIsExact, NoneIsMisalignedAtOne, CountFindsAll};
ghost use Rattle.vm_addresses.specs.Facts.{StateIsPreserved};
ghost use Rattle.vm_laws.specs.CountLaws.{EntersFew};

/// States that an allocation has one result and one next state, unless memory runs out.
#[tactic(auto, using(vm_addresses::proofs::Results::Once::allocates_once))]
fn allocates_once()
    ensures { AllocatesOnce }
{}

/// States that a call of `free` has one result and one next state.
#[tactic(auto, using(vm_addresses::proofs::Results::Once::frees_once))]
fn frees_once()
    ensures { FreesOnce }
{}

/// States that each call keeps the state of an allocator valid.
///
/// In a valid state, allocated ranges never overlap, lie in the space, and do not contain
/// `u64::MAX`.
#[tactic(auto, using(vm_addresses::proofs::Results::AddressResults::preserved))]
fn states_are_preserved()
    ensures preserved { StateIsPreserved }
    ensures apart { HeldAreDisjoint }
{}

/// States which range an allocation adds, and which range `free` removes. Freeing a range right
/// after its allocation restores the state.
#[tactic(auto, using(vm_addresses::proofs::Results::AddressResults::changes))]
fn one_range_changes()
    ensures takes { AllocatingAddsRange }
    ensures frees_one { FreeingRemovesRange }
    ensures undone { FreeingUndoes }
{}

/// States that the test for misaligned gaps is exact. At alignment 1 no gap is misaligned.
#[tactic(auto, using(crate::proofs::AddressProofs::MisalignedGaps::misaligned))]
fn misaligned_gaps_are_exact()
    ensures exact { MisalignedIsExact }
    ensures none { NoneIsMisalignedAtOne }
{}

/// States that a list of different allocated ranges is complete if and only if its length is the number
/// of allocated ranges.
#[tactic(auto, using(vm_addresses::proofs::Blocks::HeldLists::listings))]
fn counts_find_all()
    ensures { CountFindsAll }
{}

/// States the most nodes that a call enters in a tree of height h: 3h for `free`, h for `ExactMatch`, and
/// h for each gap that a search enters.
#[tactic(auto, using(crate::proofs::AddressProofs::SimpleBounds::simple_bounds))]
fn calls_enter_few()
    ensures { EntersFew }
{}
