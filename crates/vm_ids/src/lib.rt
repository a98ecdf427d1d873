//! An allocator of 32-bit ids from a range, the lowest free id first.
//!
//! # How it is stated
//!
//! - The value of an [`IdAllocator`] is an `IdState`: its range, the set of the held ids, and a bound. The
//!   ids of the range below the bound were allocated at some time. `IsIdState` accepts it.
//! - `IdHistories` has each call with its result, and lists of calls.
//!
//! # What is proved
//!
//! - The exact result of each call, and each error except out of memory under its condition
//!   (`AllocatesId`, `FreesId`). An error changes nothing.
//! - In `vm_laws`, for every list of calls: each id is the lowest that is not held, no id is held twice, and
//!   the state decides the results, unless memory runs out.
//! - Saved ids are read if and only if they are valid (`AreFreedOf`).
//!
//! # What is only tested
//!
//! - How long a call takes, and how much memory the freed ids take.
#![tactic(auto)]

mod id_allocator;
mod id_request;
mod saved;

pub use id_allocator::{FreedIds, HeldIds, HeldIdsIn, IdAllocator};
pub use id_request::IdRequest;
pub use saved::ReadIds;
