//! Allocators of address ranges and of ids, under the names of vm-allocator. `vm_addresses` and `vm_ids` say
//! what is proved of them.
//!
//! - [`AddressAllocator`] allocates ranges of 64-bit addresses from one space.
//! - [`IdAllocator`] allocates 32-bit ids from a range, the lowest free id first.
#![tactic(auto)]

pub mod allocation_engine;

pub use vm_addresses::{
    AddressAllocator, AllBlocks, AllocPolicy, Condition, Conflict, Constraint,
    DEFAULT_CONSTRAINT_ALIGN, Error, ListConflict, ListError, RangeInclusive, Ranges, RangesIn,
    ReadNodes, Result, SavedError, Side, ValueError, WrittenBlocks, WrittenNode, WrittenTree,
};
pub use vm_ids::{FreedIds, HeldIds, HeldIdsIn, IdAllocator, IdRequest, ReadIds};
