//! The state of a block of a space: free or allocated.

/// The state of a block of a space. `Free` is less than `Allocated`.
#[derive(Clone, Copy, Debug, PartialEq, Eq, PartialOrd, Ord, Hash)]
pub enum NodeState {
    /// The addresses of the block are free.
    Free,
    /// The block is an allocated range.
    Allocated,
}
