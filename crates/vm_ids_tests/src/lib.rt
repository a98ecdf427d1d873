//! Tests of ids through public calls.
//!
//! They guard against what no clause excludes, as those of `vm_tests`.
#![tactic(auto)]

#[cfg(test)]
mod fixtures;
#[cfg(test)]
mod ids;
#[cfg(test)]
mod uses;
