//! A session: the machine, and the line that has begun.
//!
//! A line is parsed in its piece of the input without a copy. It is copied only if it began in an
//! earlier piece.
ghost use Rattle.std.specs.Prelude.{◌≡◌, ◌++◌, [], ◌+◌, ◌<◌, ℕ, List, length, Some};
ghost use Rattle.vm_lines.specs.Machines.{start};
ghost use Rattle.vm_lines.specs.Sessions.{EndsLine, pending_command, line_after, with_more, has_begun};

use crate::machine::Machine;
use crate::reply::{MAX_REPLY_LEN, write_reply};
use std::alloc::Global;
use std::marker::Model;
use vm_commands::{Buffer, CAPACITY, Command, MAX_LINE_LEN, parse};

/// The machine of the lines so far, and the line that has begun.
#[derive(Drop)]
pub(crate) struct Session {
    machine: Machine,
    line: [u8; MAX_LINE_LEN],
    filled: usize,
    is_too_long: bool,
}

impl Model for Session {
    ghost use Rattle.std.specs.Prelude.{◌≡◌, ◌≤◌, Some, None, if◌then◌else◌, length, take};
    ghost use Rattle.vm_lines.specs.Sessions.{Session, session_code};
    ghost use Rattle.vm_commands.specs.declared.command.TheConstants.{MAX_LINE_LEN};

    ghost Value = { Session };

    ghost coded = { session_code };

    ghost view = { λ a. record {
      machine = a.machine;
      line = if a.is_too_long then None else Some (take a.filled a.line);
    } };

    ghost invariant = { λ a. (a.filled ≤ MAX_LINE_LEN) × (length a.line ≡ MAX_LINE_LEN) };
}

impl Session {
    /// Creates the session before the first byte of the input.
    pub(crate) fn new() -> Session
        ensures { result ≡ record { machine = start; line = Some [] } }
    {
        Session {
            machine: Machine::new(),
            line: [0; MAX_LINE_LEN],
            filled: 0,
            is_too_long: false,
        }
    }

    /// Ends the line that has begun with its last bytes, executes it, and writes its reply.
    pub(crate) fn end_line(&mut self, alloc: Global, last: &[u8], output: &mut Buffer)
        requires { length output.old + MAX_REPLY_LEN < CAPACITY }
        ensures { (text : List ℕ)
            × EndsLine (with_more self.old last.now) text self.new
            × (output.new ≡ output.old ++ text) }
    {
        let command = self.take_line(last);
        let reply = self.machine.answer(alloc, command);
        write_reply(output, reply);
        output.push(b'\n');
    }

    /// Returns the command of the line that ends with these bytes. No line has begun after that.
    fn take_line(&mut self, last: &[u8]) -> Command
        ensures asked { result ≡ pending_command (line_after self.old.line last.now) }
        ensures machine { self.new.machine ≡ self.old.machine }
        ensures line { self.new.line ≡ Some [] }
    {
        if !self.has_begun() {
            return parse(last);
        }
        self.append(last);
        self.take_appended()
    }

    /// Returns the command of the line that was copied. No line has begun after that.
    #[cold]
    fn take_appended(&mut self) -> Command
        ensures asked { result ≡ pending_command self.old.line }
        ensures machine { self.new.machine ≡ self.old.machine }
        ensures line { self.new.line ≡ Some [] }
    {
        let asked = if self.is_too_long {
            Command::Malformed
        } else {
            parse(&self.line[..self.filled])
        };
        self.filled = 0;
        self.is_too_long = false;
        asked
    }

    /// Appends more bytes to the line that has begun.
    pub(crate) fn append(&mut self, bytes: &[u8])
        ensures machine { self.new.machine ≡ self.old.machine }
        ensures line { self.new.line ≡ line_after self.old.line bytes.now }
    {
        if self.is_too_long || bytes.len() > MAX_LINE_LEN - self.filled {
            self.is_too_long = true;
            return;
        }
        let end = self.filled + bytes.len();
        self.line[self.filled..end].copy_from_slice(bytes);
        self.filled = end;
    }

    /// Returns `true` if a line has begun.
    pub(crate) fn has_begun(&self) -> bool
        ensures { result ≡ has_begun self.now.line }
    {
        self.is_too_long || self.filled > 0
    }
}
