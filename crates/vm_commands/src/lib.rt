//! The commands of the replay language: lines with their words and numbers, and a buffer for the output.
//!
//! `command_of` is the command of a line. `vm_lines` executes commands.
#![tactic(auto)]

mod buffer;
mod command;
mod number;
mod words;

pub use buffer::{Buffer, CAPACITY};
pub use command::{Command, MAX_LINE_LEN, parse};
pub use number::MAX_DIGITS;
