//! Laws of the allocators of addresses and of ids: what is true for every list of their calls, or for every
//! state.
//!
//! Each law is the contract of a function that does nothing. Each file lists the laws that are only steps of the
//! proofs of others.
#![tactic(auto)]

mod addresses;
mod gaps;
mod histories;
mod id_histories;
mod id_requests;
mod ids;
mod memory;
mod moves;
mod orders;
mod queries;
mod saved;
mod saved_trees;
mod several;
mod windows;
