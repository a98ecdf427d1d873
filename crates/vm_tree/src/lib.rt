//! A tree over leaves of any kind: inner nodes of up to 16 children, all leaves at the same depth.
//!
//! # How a tree is stated
//!
//! - The value of a [`Tree`] is a `Subtree`: its height, the number of children of each inner node in preorder, and its
//!   leaves. All leaves are at the same depth, so these determine each node.
//! - A type is a leaf by [`Leaf`]. An [`Edit`] changes the leaf of a key and can split it. A [`Cut`] leaves it fewer
//!   items. A [`Seek`] changes the leaf with the place that is closest to an end.
//! - `IsNode` is the invariant of a node: its children have the same height, and each entry is that of its child.
//!
//! # What is proved
//!
//! - A change is that of one leaf (`IsEdited`). After a [`Cut`], a leaf with too few items is joined with the one beside
//!   it. An error leaves the same tree.
//! - The number of nodes that a change by key enters is the height (`IsCounted`).
//! - A tree that is built has the minimum height (`IsBuiltTree`).
//!
//! # What is only tested
//!
//! - That a node is entered only where it is counted, and how long a call takes.
#![tactic(auto)]

mod build;
mod closest;
mod columns;
mod copy;
mod cut;
mod edit;
mod end;
mod entries;
mod find;
mod grow;
mod kids;
mod leaf;
mod leaf_iter;
mod look;
mod lower;
mod mend;
mod node;
mod outcome;
mod read;
mod search;
mod seek;
mod settle;
mod shrink;
mod slots;
mod tree;
mod walk;
mod whole;
mod window;

pub use build::Source;
pub use copy::CopyLeaf;
pub use cut::{Cut, Cutting};
pub use edit::reserve_nodes;
pub use end::End;
pub use entries::{Entries, Entry, FANOUT};
pub use leaf::{Change, Edit, Leaf};
pub use leaf_iter::LeafIter;
pub use node::{Kids, Node};
pub use read::{leaf_in, node_in};
pub use search::Seek;
pub use slots::{append_slots, insert_slot, no_slots, remove_slot, split_slots};
pub use tree::Tree;
pub use walk::leaf_from;
