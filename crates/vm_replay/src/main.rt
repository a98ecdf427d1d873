//! Replays calls. Each line of the standard input is a call of an allocator or of a manager of
//! devices, and has one line in the standard output.
#![tactic(auto)]

ghost use Rattle.vm_replay.specs.Status.{HasAnswered};

use std::alloc::Global;
use std::io::{Read, Write};
use std::process::ExitCode;
use vm_lines::{RunError, run};

/// Executes the lines of the input, and returns the exit status: 0 at the end of the input, 1 after a failed read,
/// and 2 after a failed write.
fn replay<R: Read, W: Write>(alloc: Global, reader: &mut R, writer: &mut W) -> u8
    ensures { HasAnswered result
        (R.remaining reader.old) (R.remaining reader.new) (W.contents writer.old) (W.contents writer.new) }
{
    match run(alloc, reader, writer) {
        Ok(()) => 0,
        Err(RunError::Read) => 1,
        Err(RunError::Write) => 2,
    }
}

fn main(rt: HostRuntime) -> ExitCode {
    ExitCode::from(replay(rt.alloc(), &mut rt.stdin(), &mut rt.stdout()))
}
