//! Saved trees of a space, which have a node for each block: checked, read and written.
//!
//! - [`ReadNodes`] reads the nodes of a saved tree, and [`read_held_keys`] a value. Both keep only the
//!   allocated keys.
//! - [`WrittenTree`] has the nodes that are written, and [`encode`] makes a value of them.
//!
//! # How a saved tree is stated
//!
//! - `Saved` is a saved tree. `HasTreeOf` accepts the trees of an allocator, node for node, and `HasHeldKeys`
//!   also those that can be repaired.
//! - `StandsFor`: a span stands for a saved tree. It is kept, and the tree is not.
//!
//! # What is proved
//!
//! - A saved tree is read if and only if it is accepted, and then its allocated keys are returned.
//! - What is written is decided by the blocks, and is a saved tree of them.
//!
//! # What is only tested
//!
//! - How often memory is allocated, and how long a call takes.
#![tactic(auto)]

mod node;
mod nodes;
mod span;
mod tree;
mod written;

pub use nodes::{ReadNodes, Side};
pub use span::Form;
pub use tree::{encode, read_held_keys};
pub use written::{WrittenBlocks, WrittenNode, WrittenTree};
