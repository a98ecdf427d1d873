//! Saved values of id allocators.
mod ids;
mod read_ids;

pub use read_ids::ReadIds;
