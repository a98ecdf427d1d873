//! Laws of the blocks of an address allocator.
//!
//! Each law is a promise.
ghost use Rattle.vm_laws.specs.MemoryLaws.{AllocationAddsParts, FreeingRemovesGaps, BlocksAreFew};

/// States that an allocation adds one block for each part of the gap that is left, and that freeing
/// a range removes one block for each gap next to it.
///
/// So a split adds one block or two, and an allocation that fills its gap adds none. With k allocated
/// ranges there are at most 2k + 1 blocks.
#[tactic(auto, using(vm_addresses::proofs::Blocks::BlockCounts::memory))]
fn blocks_are_counted()
    ensures allocated { AllocationAddsParts }
    ensures freed { FreeingRemovesGaps }
    ensures few { BlocksAreFew }
{}
