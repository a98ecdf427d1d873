//! Tests of ranges, requests, trees and address allocators through the public calls of `vm_allocator`.
//!
//! They guard against what no clause excludes, as those of `vm_tests`.
#![tactic(auto)]

#[cfg(test)]
mod addresses;
#[cfg(test)]
mod alignment;
#[cfg(test)]
mod fixtures;
#[cfg(test)]
mod ranges;
#[cfg(test)]
mod saved;
#[cfg(test)]
mod trees;
#[cfg(test)]
mod uses;
