//! A map from allocated ranges to values. Each allocated range of addresses has a value of its caller, such as
//! the number of the owner or the device on a bus.
//!
//! # How a map is stated
//!
//! - The value of a [`RangeMap`] has the `Shape` of its tree of addresses, and the value of each range by the
//!   start of the range. `map_state` is its state.
//! - `IsMapState`: there is a value at an address if and only if an allocated range starts there.
//!
//! # What is proved
//!
//! - The exact result of each call, and each error except out of memory under its condition
//!   (`AllocatesWith`, `FreesWith`, `MovesWith`). An error leaves the same ranges with the same values, and returns
//!   the values that the call was given.
//! - A list of ranges or of requests is allocated as by `AddressAllocator`, and each range gets its value
//!   (`MakesMapWithHeld`, `AllocatesEachWith`).
//! - Ranges are allocated, moved and freed as by `AddressAllocator`.
//! - A range has the value of its allocation, or that was written last, also after it moves and while other ranges
//!   change.
//! - The result of a call depends only on the space, the allocated ranges and their values, unless memory runs
//!   out or `allocate_all` fails.
//! - An iterator returns each range once, with its value, in order, from both ends, also if only the ranges in a window
//!   are asked for.
//! - A copy has the same space and the same ranges, each with a clone of its value.
//!
//! # What is only tested
//!
//! - A call succeeds if memory is available, and a query does not allocate.
//! - How long a call takes, in plain Rust.
//!
//! How much memory the values take is neither proved nor tested.
#![tactic(auto)]

mod laws;
mod range_map;
mod refused;
mod valued_list;

pub use range_map::{RangeMap, ValuedRanges, ValuedRangesIn};
pub use refused::{Refused, RefusedList};
pub use valued_list::ValuedList;
