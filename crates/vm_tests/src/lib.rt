//! Tests of devices, and of values and callers of several libraries. The other crates of tests have those of one
//! library.
//!
//! All of them guard against what no clause excludes:
//! - a call that allocates although it needs no memory.
//! - a call that recurses as deep as a value.
//! - a definition whose meaning is not that of its words.
#![tactic(auto)]

#[cfg(test)]
mod deep;
#[cfg(test)]
mod devices;
#[cfg(test)]
mod fixtures;
#[cfg(test)]
mod plugging;
#[cfg(test)]
mod uses;
#[cfg(test)]
mod windows;
