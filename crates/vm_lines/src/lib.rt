//! The replay language: each line is a call of an allocator or of a manager of devices, and has one
//! line of output.
//!
//! # How a run is stated
//!
//! - `command_of` is the command of a line, `Does` its reply on a machine, and `text_of` the text of a
//!   reply.
//! - `AnswersInput`: all of the input was read, and the output of its lines was written. After a failed
//!   read, `AnswersEndedLines`.
//!
//! # What is proved
//!
//! - [`run`] writes the output of the lines that it read, for readers and writers whose bytes are known.
//! - Every input has an output, and only one unless memory runs out.
//!
//! # What is only tested
//!
//! - The exit status of the program. No clause states that its output was flushed.
#![tactic(auto)]

mod laws;
mod machine;
mod replay;
mod reply;
mod session;

pub use replay::{RunError, run};
