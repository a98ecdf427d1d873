//! Allocators of address ranges.
//!
//! - [`AddressAllocator`] allocates ranges of 64-bit addresses from one space. Its blocks are in a
//!   tree.
//! - [`Ranges`] iterates over the allocated ranges, or over the gaps between them. [`RangesIn`] iterates
//!   over those in a window, and [`AllBlocks`] over both.
//! - [`ReadNodes`] reads the nodes of a saved tree, and [`WrittenTree`] has those that are written.
//!
//! # How an allocator is stated
//!
//! - The value of an [`AddressAllocator`] is the `Shape` of its tree. `state_of` is its state: a space, and
//!   the held ranges in order. `IsAddressState` accepts it.
//! - `IsPlace`: a range of the requested length and alignment starts there, and all of its addresses are
//!   clear.
//! - `AddressHistories` has each call with its result, and lists of calls.
//!
//! # What is proved
//!
//! - The exact result of each call, and each error except out of memory under its condition
//!   (`Allocates`, `Frees`). An error leaves the same tree, except after `allocate_all`, which leaves
//!   the same state.
//! - In `vm_laws`, for every list of calls: held ranges are valid and disjoint, and the state decides the
//!   results, unless memory runs out.
//! - Bounds on the number of nodes that an allocation and a free enter (`IsAllocationCount`,
//!   `IsFreeCount`).
//! - A saved tree is read if and only if it is valid, with and without repairs.
//!
//! # What is only tested
//!
//! - How often memory is allocated, and how long a call takes.
#![tactic(auto)]

mod address_allocator;
mod saved;

pub use address_allocator::blocks::AllBlocks;
pub use address_allocator::ranges::{Ranges, RangesIn};
pub use address_allocator::{AddressAllocator, Conflict, ListConflict};
pub use vm_ranges::{
    AllocPolicy, Condition, Constraint, DEFAULT_CONSTRAINT_ALIGN, Error, ListError, RangeInclusive,
    Result, SavedError, ValueError,
};
pub use vm_saved_trees::{ReadNodes, Side, WrittenBlocks, WrittenNode, WrittenTree};
