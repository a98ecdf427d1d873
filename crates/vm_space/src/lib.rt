//! The blocks of an address space in a tree, whose leaves have up to 32 blocks each.
//!
//! # How a space is stated
//!
//! - The value of a [`Space`] is its height, the number of children of each inner node, and the blocks of each leaf
//!   (`Shape`). All leaves are at the same depth, so these determine each node.
//! - `AreSpace`: the blocks cover a range, two neighbours are never both free, and no allocated block has the
//!   address `u64::MAX`.
//! - `IsBlockTree`: the leaves of a tree with several have 12 to 32 blocks each, and the height is bounded by the
//!   number of allocated ranges.
//!
//! # What is proved
//!
//! - Each call has exactly the stated result and list of blocks, and an error leaves the same tree, node for node.
//! - The nodes that an allocation and a free enter are bounded by the height, and by the gaps that look suitable but
//!   have no place (`IsSearchCount`).
//! - An exact allocation with a [`Spare`] for as many ranges as are allocated does not lack memory.
//!
//! # What is only tested
//!
//! - How often memory is allocated, and how long a call takes.
#![tactic(auto)]

mod build;
mod closest;
mod copy;
mod edge;
mod exact;
mod find;
mod fit;
mod free;
mod place;
mod search;
mod space;
mod spare;
mod walk;

pub use search::{Refusal, Search, Taken};
pub use space::Space;
pub use spare::Spare;
pub use vm_tree::End;
pub use walk::Walk;
