//! Ranges of addresses, alignment, requests, errors, states of blocks, and the saved values of
//! ranges and states.
//!
//! # How they are stated
//!
//! - The value of a [`RangeInclusive`] is a `Range`, which `IsRange` accepts. The value of a
//!   [`Constraint`] is a `Request`, which `IsRequest` accepts.
//! - Errors, policies and states are Rust types (`specs.declared`).
//! - `Address` defines the state of an address allocator (`AddressState`), and `Answer` the results of its
//!   calls (`Makes`, `Allocates`, `Frees`).
//! - `Histories` defines lists of calls, and their laws, for the crates above.
//!
//! # What is proved
//!
//! - The exact result of each call, and each error under its condition: `MakesRange`, `MakesConstraint`,
//!   `AlignsDown`, `AlignsUp`.
//! - Ranges are ordered by start, then by end, and two of them write the same bytes to a hasher if and only
//!   if they are equal. `RangesAreSets` has the laws of `overlaps` and `contains`.
//! - A value is read if and only if it encodes a range or a state (`Reads`).
//!
//! # What is only tested
//!
//! - The texts of errors, and `Debug`.
#![tactic(auto)]

mod alignment;
mod constraint;
mod error;
mod laws;
mod range;
mod saved;
mod state;

pub use alignment::{align_down, align_up};
pub use constraint::{AllocPolicy, Constraint, DEFAULT_CONSTRAINT_ALIGN, SPLIT_LIMIT};
pub use error::{Error, ListError, Result};
pub use range::RangeInclusive;
pub use saved::fields::{has_fields, list_in};
pub use saved::numbers::{number_in, u32_from, u32_in};
pub use saved::range::range_in;
pub use saved::state::state_in;
pub use saved::{Condition, SavedError, ValueError};
pub use state::NodeState;
