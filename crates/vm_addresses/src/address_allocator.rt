//! An allocator of address ranges.
//!
//! - `allocation` allocates the range of a request, and `deallocation` frees an allocated range.
//! - `several` allocates several ranges in one call, and `moving` moves an allocated range.
//! - `peeking` returns the result of a request without a change.
//! - `building` and `with_free` create an allocator with some ranges allocated.
//! - `held_ranges` has queries about the allocated ranges, and `gaps` about the free addresses. Both return
//!   iterators of `ranges`. `blocks` iterates over the allocated ranges and the gaps.
//! - `conflicts` returns the reason why a range is not free, and `list_conflicts` the reason why a list is
//!   not accepted.
//! - `comparing` compares two allocators.
//!
//! A counted call also returns the number of nodes that it entered. A plain call makes the counted call and
//! drops the count.
ghost use Rattle.std.specs.Prelude.{ℕ, ◌≡◌, ◌%◌, [], ◌∷◌, Err, OnErr, OnOk, IfOk, IfSome, IsOk};
ghost use Rattle.std.specs.List.{Contains};
ghost use Rattle.vm_ranges.specs.Address.{IsAddressState, holding, releasing};
ghost use Rattle.vm_ranges.specs.Range.{Covers, address_count};
ghost use Rattle.vm_ranges.specs.Request.{request_for};
ghost use Rattle.vm_ranges.specs.Answer.{Allocates, FillsGap, Frees, IsChosen, Makes};
ghost use Rattle.vm_addresses.specs.Allocator.{IsSpaceTree, MakesTree, state_of, made_state};
ghost use Rattle.vm_addresses.specs.Held.{MakesSpace};
ghost use Rattle.vm_ranges.specs.Cloning.{Clones};
ghost use Rattle.vm_space.specs.Shape.{blocks, height_of};
ghost use Rattle.vm_space.specs.Walks.{meeting_blocks};
ghost use Rattle.vm_addresses.specs.Counts.GapSearch.{SearchesGaps};
ghost use Rattle.vm_addresses.specs.Counts.Steps.{IsAllocationCount};
ghost use Rattle.vm_addresses.specs.Tree.BalancedTree.{IsBalancedTreeOf};

use std::alloc::Global;
use std::marker::Model;
use vm_ranges::{AllocPolicy, Constraint, Error, RangeInclusive, Result};
use vm_space::{Space, Walk};

mod allocation;
pub(crate) mod blocks;
mod building;
mod comparing;
mod conflicts;
mod deallocation;
mod gaps;
mod held_ranges;
mod list_conflicts;
mod moving;
mod peeking;
pub(crate) mod ranges;
mod several;
mod with_free;

pub use conflicts::Conflict;
pub use list_conflicts::ListConflict;

/// Allocates ranges of addresses from one space.
///
/// Allocated ranges never overlap, each lies in the space, and none contains `u64::MAX`. A range
/// includes both of its ends. Sizes and alignments are numbers of addresses.
#[derive(Debug, Drop)]
pub struct AddressAllocator {
    /// The blocks of the space. A block is a range of addresses that is allocated as a whole, or free as a
    /// whole. Two neighbours are never both free.
    pub(crate) tree: Space,
    /// The addresses of all blocks.
    pub(crate) space: RangeInclusive,
    /// The number of allocated ranges.
    pub(crate) held_count: u64,
    /// The number of gaps.
    pub(crate) gap_count: u64,
    /// The number of free addresses.
    free_len: u64,
}

impl Model for AddressAllocator {
    ghost use Rattle.vm_space.specs.Shape.{Shape};
    ghost use Rattle.vm_space.specs.Shape.{shape_code};

    ghost Value = { Shape };

    ghost coded = { shape_code };

    ghost view = { λ a. a.tree };

    ghost use Rattle.vm_addresses.specs.Tree.CountedTrees.{IsCountedTree};

    ghost invariant = { λ a. IsCountedTree a.tree a.space a.held_count a.gap_count a.free_len };
}

impl AddressAllocator {
    /// Creates an allocator for the `size` addresses starting at `base`. All of them are free.
    ///
    /// It allocates one leaf.
    ///
    /// # Errors
    ///
    /// In this order:
    /// - `Underflow` if `size` is 0.
    /// - `Overflow` if the last address would be past `u64::MAX`.
    /// - `OutOfMemory` if the allocation of the leaf fails.
    #[tactic(auto, using(crate::proofs::Results::Making::making))]
    pub fn new(alloc: Global, base: u64, size: u64) -> Result<Self>
        ensures answer { Makes base size (made_state result) }
        ensures state { IfOk result (λ allocator. IsAddressState (state_of allocator)) }
    {
        let space = space_from(base, size)?;
        Self::over(alloc, space)
    }

    /// Creates an allocator for the addresses of a range. All of them are free.
    ///
    /// It allocates one leaf.
    ///
    /// # Errors
    ///
    /// - `OutOfMemory` if the allocation of the leaf fails.
    #[tactic(auto, using(crate::proofs::Trees::Spaces::making))]
    pub fn over(alloc: Global, space: RangeInclusive) -> Result<Self>
        ensures answer { MakesTree space result }
        ensures state { IfOk result (λ allocator. IsAddressState (state_of allocator)) }
    {
        Ok(AddressAllocator {
            tree: Space::new(alloc, space)?,
            space,
            held_count: 0,
            gap_count: 1,
            free_len: space.len(),
        })
    }

    /// Returns a copy. Its tree has the same nodes, so both allocators have the same height.
    ///
    /// # Errors
    ///
    /// - `OutOfMemory` if an allocation fails. The nodes that were copied before it are freed.
    pub fn try_clone(&self, alloc: Global) -> Result<Self>
        ensures answer { Clones (state_of self.now) (made_state result) }
        ensures same { Clones self.now result }
    {
        Ok(AddressAllocator {
            tree: self.tree.try_clone(alloc)?,
            space: self.space,
            held_count: self.held_count,
            gap_count: self.gap_count,
            free_len: self.free_len,
        })
    }

    /// Returns an iterator over the blocks, from both ends.
    fn walk(&self) -> Walk<'_>
        ensures value { result ≡ blocks self.now }
        ensures space { IsSpaceTree self.now }
    {
        self.tree.blocks()
    }

    /// Returns an iterator over the blocks that have an address in common with `window`, from both
    /// ends.
    fn walk_in(&self, window: &RangeInclusive) -> Walk<'_>
        ensures value { result ≡ meeting_blocks window.now (blocks self.now) }
        ensures space { IsSpaceTree self.now }
    {
        self.tree.blocks_in(window)
    }

    /// Allocates `size` free addresses that start at a multiple of `alignment`, and returns their
    /// range: the lowest for `FirstMatch`, the highest for `LastMatch`, and the range that starts at
    /// `start` for `ExactMatch(start)`.
    ///
    /// A gap is a run of free addresses with no free address next to it. A range that fills its gap
    /// needs no memory, and always succeeds if it ends below `u64::MAX`. Any other range splits its
    /// gap, which allocates nothing, or a leaf and nodes above it.
    ///
    /// # Errors
    ///
    /// An error changes nothing. In this order:
    /// - `InvalidSize(0)` if `size` is 0.
    /// - `InvalidAlignment` if `alignment` is not a power of two.
    /// - For `ExactMatch(start)`:
    ///   - `UnalignedAddress` if `start` is not a multiple of `alignment`.
    ///   - `Overflow` if `start` is `u64::MAX`.
    ///   - `ResourceNotAvailable` if `start` is outside the space.
    ///   - `Overflow` if the range would end past `u64::MAX`.
    ///   - `InvalidStateTransition` if exactly this range is already allocated.
    /// - `ResourceNotAvailable` if there is no such range.
    /// - `Overflow` if the chosen range ends at `u64::MAX`, even if another range is free.
    /// - Only if the range splits its gap:
    ///   - `Overflow` if 6,293,134,512 ranges or more are allocated.
    ///   - `OutOfMemory` if an allocation fails.
    #[inline(always)]
    #[tactic(auto, using(crate::proofs::Callers::allocations, crate::proofs::Results::Requests::allocating, crate::proofs::Results::Filling::succeeding, crate::proofs::Trees::Spaces::states))]
    pub fn allocate(
        &mut self,
        alloc: Global,
        size: u64,
        alignment: u64,
        policy: AllocPolicy,
    ) -> Result<RangeInclusive>
        // The range is as long as asked and aligned. It is at the place that the policy chooses, and all of
        // its addresses were clear.
        ensures fits { IfOk result (λ range. (address_count range ≡ size) × (range.start % alignment ≡ 0)) }
        ensures chosen { IfOk result (λ range.
            IsChosen (request_for size alignment policy) (state_of self.old) range.start) }

        // It is held, and nothing else changes.
        ensures held { IfOk result (λ range. state_of self.new ≡ holding range (state_of self.old)) }
        ensures unchanged { OnErr result (self.new ≡ self.old) }

        // A request that fills its gap needs no memory, so it succeeds.
        ensures filling { (start : ℕ) → FillsGap (state_of self.old) (request_for size alignment policy) start
            → IsOk result }

        ensures state { IsAddressState (state_of self.new) }

        // Each result under its exact condition.
        ensures answer { Allocates (state_of self.old) (request_for size alignment policy) result (state_of self.new) }
    {
        // Proof: this shows that the tree is valid.
        let _tree = &self.tree;
        let request = Constraint::new(size, alignment, policy)?;
        self.allocate_constraint(alloc, request)
    }

    /// Allocates a range like [`allocate`](Self::allocate), for a request that was made before. If the
    /// request has a window, the range lies in the window.
    ///
    /// `FirstMatch` chooses the lowest range in the window, and `LastMatch` the highest.
    ///
    /// # Errors
    ///
    /// Those of [`allocate`](Self::allocate) for a valid request, in the same order. Addresses outside
    /// the window count as outside the space:
    /// - `ResourceNotAvailable` if the window and the space have no address in common, or no range in
    ///   the window fits.
    /// - `ResourceNotAvailable` if the start of `ExactMatch` is outside the window, or a part of its
    ///   range is, unless exactly this range is already allocated.
    #[inline(always)]
    #[tactic(auto, using(crate::proofs::Callers::constraint_allocations, crate::proofs::Results::Filling::succeeding))]
    pub fn allocate_constraint(
        &mut self,
        alloc: Global,
        request: Constraint,
    ) -> Result<RangeInclusive>
        // The range is as long as asked, aligned and in the window. It is at the place that the policy
        // chooses there, and all of its addresses were clear.
        ensures fits { IfOk result (λ range. (address_count range ≡ request.size) × (range.start % request.align ≡ 0)) }
        ensures inside { IfOk result (λ range. IfSome request.window (λ window. Covers window range)) }
        ensures chosen { IfOk result (λ range. IsChosen request (state_of self.old) range.start) }

        // It is held, and nothing else changes.
        ensures held { IfOk result (λ range. state_of self.new ≡ holding range (state_of self.old)) }
        ensures unchanged { OnErr result (self.new ≡ self.old) }

        // A request that fills its gap needs no memory, so it succeeds.
        ensures filling { (start : ℕ) → FillsGap (state_of self.old) request start → IsOk result }

        // Each result under its exact condition.
        ensures answer { Allocates (state_of self.old) request result (state_of self.new) }
    {
        self.allocate_constraint_counted(alloc, request).0
    }

    /// Allocates like [`allocate`](Self::allocate), and also returns the number of tree nodes that
    /// the call entered.
    ///
    /// Let h be the [`height`](Self::height) and k the number of allocated ranges before the call.
    /// The count is
    /// - at most h for `ExactMatch`.
    /// - at most 2k + 1 for `FirstMatch` and `LastMatch`.
    /// - at least 1 and at least h / 2 for a success.
    /// - 0 for `InvalidSize`, `InvalidAlignment` and `UnalignedAddress`.
    ///
    /// `FirstMatch` and `LastMatch` enter at most h(v + 1) nodes, and at most hv if they return
    /// `ResourceNotAvailable`. Here v is the number of gaps that are long enough but misaligned. It is 0 if
    /// `alignment` is 1.
    ///
    /// # Errors
    ///
    /// Those of [`allocate`](Self::allocate), in the same order.
    #[tactic(auto, using(crate::proofs::Counts::GapSearches::refused))]
    pub fn allocate_counted(
        &mut self,
        alloc: Global,
        size: u64,
        alignment: u64,
        policy: AllocPolicy,
    ) -> (Result<RangeInclusive>, u64)
        ensures answer { Allocates (state_of self.old)
            (request_for size alignment policy) result.0 (state_of self.new) }
        ensures unchanged { OnErr result.0 (self.new ≡ self.old) }

        // A request that fills its gap needs no memory, so it succeeds.
        ensures filling { (start : ℕ) → FillsGap (state_of self.old) (request_for size alignment policy) start
            → IsOk result.0 }
        ensures steps { IsAllocationCount (height_of self.old) (state_of self.old)
            (request_for size alignment policy) result.0 result.1 }
        ensures search { SearchesGaps (height_of self.old) (state_of self.old)
            (request_for size alignment policy) result.0 result.1 }
    {
        match Constraint::new(size, alignment, policy) {
            Err(error) => (Err(error), 0),
            Ok(request) => self.allocate_constraint_counted(alloc, request),
        }
    }

    /// Frees an allocated range.
    ///
    /// It does not allocate, and always succeeds for an allocated range.
    ///
    /// # Errors
    ///
    /// An error changes nothing.
    /// - `ResourceNotAvailable` if exactly this range is not allocated. A part of an allocated
    ///   range cannot be freed.
    #[tactic(auto, using(crate::proofs::Callers::releases, crate::proofs::Results::Filling::succeeding))]
    pub fn free(&mut self, key: &RangeInclusive) -> Result<()>
        // A held range is freed without memory, and nothing else changes. Any other range is an error.
        ensures held { Contains (state_of self.old).held key.now → IsOk result }
        ensures freed { OnOk result (state_of self.new ≡ releasing key.now (state_of self.old)) }
        ensures refused { ¬ Contains (state_of self.old).held key.now → result ≡ Err Error.ResourceNotAvailable }
        ensures unchanged { OnErr result (self.new ≡ self.old) }
        ensures state { IsAddressState (state_of self.new) }

        // Each result under its exact condition.
        ensures answer { Frees (state_of self.old) key.now result (state_of self.new) }
    {
        self.free_counted(key).0
    }

    /// Returns the height of the tree: the number of nodes on its longest path, at most 48.
    ///
    /// A leaf is a node, and has up to 32 blocks. All leaves are at the same depth. Let h be the height, and k
    /// the number of allocated ranges. Then F(h + 2) is at most 2k + 2. If h is above 1, 12 F(h + 1) and
    /// 24 * 5^(h - 2) are at most 2k + 1. F is the Fibonacci sequence 1, 1, 2, 3, 5.
    #[tactic(auto, using(crate::proofs::Counts::Balanced::balanced))]
    pub fn height(&self) -> u64
        ensures value { result ≡ height_of self.now }
        ensures tree { IsBalancedTreeOf (state_of self.now) self.now }
    {
        // Proof: the tree is valid.
        self.tree.facts();
        self.tree.height()
    }

    /// Returns the range of all addresses of the space.
    pub fn space(&self) -> RangeInclusive
        ensures { result ≡ (state_of self.now).space }
    {
        self.space
    }

    /// Returns the first address of the space.
    #[tactic(auto, using(crate::proofs::Trees::Spaces::states))]
    pub fn base(&self) -> u64
        ensures value { result ≡ (state_of self.now).space.start }
        ensures state { IsAddressState (state_of self.now) }
    {
        self.space.start()
    }

    /// Returns the last address of the space.
    pub fn end(&self) -> u64
        ensures { result ≡ (state_of self.now).space.end }
    {
        self.space.end()
    }
}

/// Returns the range of the `size` addresses that start at `base`.
///
/// Its errors are `Underflow` for size 0, and `Overflow` if the range would end past `u64::MAX`.
#[tactic(auto, using(crate::proofs::Results::Making::making_held))]
fn space_from(base: u64, size: u64) -> Result<RangeInclusive>
    ensures { MakesSpace base size result }
{
    if size == 0 {
        return Err(Error::Underflow);
    }
    let end = base.checked_add(size - 1).ok_or(Error::Overflow)?;
    RangeInclusive::new(base, end)
}
