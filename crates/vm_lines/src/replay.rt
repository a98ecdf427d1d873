//! Runs the replay language: reads pieces of the input, splits them into lines, and writes the
//! replies through a buffer.
ghost use Rattle.std.specs.Prelude.{◌≡◌, ◌==◌, ◌++◌, [], ◌+◌, ◌<◌, ℕ, List, length, position, OnOk, IfErr, IsErrOf, Some};
ghost use Rattle.std.specs.Io.KnownBytes.{Appends};
ghost use Rattle.vm_commands.specs.Lines.{newline};
ghost use Rattle.vm_lines.specs.Machines.{start};
ghost use Rattle.vm_lines.specs.Sessions.{AnswersPiece, AnswersLastLine};
ghost use Rattle.vm_lines.specs.Moving.{MovesText};
ghost use Rattle.vm_lines.specs.Runs.{AnswersInput, AnswersEndedLines};

use crate::reply::MAX_REPLY_LEN;
use crate::session::Session;
use std::alloc::Global;
use std::io::{Read, Write};
use vm_commands::{Buffer, CAPACITY};

/// The maximum number of bytes of one read.
const READ_SIZE: usize = 4096;

/// The reason why a run ended before the end of its input.
#[derive(Clone, Copy, Debug, PartialEq, Eq)]
pub enum RunError {
    /// A read failed, or `u64::MAX` reads did not reach the end.
    Read,
    /// A write failed, or the flush at the end failed.
    Write,
}

/// Executes each line of the input, and writes one line of output for each.
///
/// Only the calls of the lines allocate.
///
/// # Errors
///
/// - `Read` if a read fails, or if `u64::MAX` reads do not reach the end. The output for the lines
///   that end with a newline is written, and nothing is flushed.
/// - `Write` if a write or the last flush fails. It is then not known which output was written.
pub fn run<R: Read, W: Write>(alloc: Global, reader: &mut R, writer: &mut W) -> Result<(), RunError>
    ensures ok { OnOk result (AnswersInput
        (R.remaining reader.old) (R.remaining reader.new) (W.contents writer.old) (W.contents writer.new)) }
    ensures read { IsErrOf result RunError.Read → AnswersEndedLines
        (R.remaining reader.old) (R.remaining reader.new) (W.contents writer.old) (W.contents writer.new) }
{
    let mut session = Session::new();
    let mut output = Buffer::new();
    answer_pieces(alloc, reader, writer, &mut session, &mut output)
}

/// Reads the input piece by piece, and writes the output for its lines.
///
/// Proof: `run` owns the session and the buffer, and this function borrows them. One function for
/// both is slow to prove.
fn answer_pieces<R: Read, W: Write>(
    alloc: Global,
    reader: &mut R,
    writer: &mut W,
    session: &mut Session,
    output: &mut Buffer,
) -> Result<(), RunError>
    requires session { session.old ≡ record { machine = start; line = Some [] } }
    requires output { output.old ≡ [] }
    ensures ok { OnOk result (AnswersInput
        (R.remaining reader.old) (R.remaining reader.new) (W.contents writer.old) (W.contents writer.new)) }
    ensures read { IsErrOf result RunError.Read → AnswersEndedLines
        (R.remaining reader.old) (R.remaining reader.new) (W.contents writer.old) (W.contents writer.new) }
{
    let mut bytes = [0u8; READ_SIZE];
    for _ in 0..u64::MAX {
        match reader.read(&mut bytes) {
            Ok(0) => {
                answer_end(alloc, session, output, writer)?;
                return Ok(());
            }
            Ok(count) => feed(alloc, session, &bytes[..count], output, writer)?,
            Err(_) => break,
        }
    }
    flush_buffer(output, writer)?;
    Err(RunError::Read)
}

/// Returns the index of the first newline, or `None` if there is no newline.
fn newline_at(text: &[u8]) -> Option<usize>
    ensures { result ≡ position (λ byte. byte == newline) text.now }
{
    text.iter().position(|byte| *byte == b'\n')
}

/// Executes the lines that end in a piece of the input, and keeps the bytes after them.
fn feed<W: Write>(
    alloc: Global,
    session: &mut Session,
    piece: &[u8],
    output: &mut Buffer,
    writer: &mut W,
) -> Result<(), RunError>
    ensures ok { OnOk result ((text : List ℕ) × AnswersPiece session.old piece.now text session.new
        × MovesText (W.contents writer.old) output.old text (W.contents writer.new) output.new) }
    ensures err { IfErr result (λ error. error ≡ RunError.Write) }
{
    let mut rest = piece;
    while let Some(end) = newline_at(rest) {
        make_room(output, writer)?;
        session.end_line(alloc, &rest[..end], output);
        rest = &rest[end + 1..];
    }
    session.append(rest);
    Ok(())
}

/// Executes the last line at the end of the input, and flushes the writer.
fn answer_end<W: Write>(
    alloc: Global,
    session: &mut Session,
    output: &mut Buffer,
    writer: &mut W,
) -> Result<(), RunError>
    ensures ok { OnOk result ((text : List ℕ) × AnswersLastLine session.old text
        × Appends (W.contents writer.old) (W.contents writer.new) (output.old ++ text)) }
    ensures err { IfErr result (λ error. error ≡ RunError.Write) }
{
    answer_last_line(alloc, session, output, writer)?;
    flush_buffer(output, writer)?;
    match writer.flush() {
        Ok(()) => Ok(()),
        Err(_) => Err(RunError::Write),
    }
}

/// Executes the last line if no newline ended it.
#[tactic(auto, using(crate::proofs::Progress::answers_last_some, crate::proofs::Progress::answers_last_none))]
fn answer_last_line<W: Write>(
    alloc: Global,
    session: &mut Session,
    output: &mut Buffer,
    writer: &mut W,
) -> Result<(), RunError>
    ensures ok { OnOk result ((text : List ℕ) × AnswersLastLine session.old text
        × MovesText (W.contents writer.old) output.old text (W.contents writer.new) output.new) }
    ensures err { IfErr result (λ error. error ≡ RunError.Write) }
{
    if !session.has_begun() {
        return Ok(());
    }
    make_room(output, writer)?;
    session.end_line(alloc, b"", output);
    Ok(())
}

/// Makes room in the buffer for one reply and its newline.
fn make_room<W: Write>(output: &mut Buffer, writer: &mut W) -> Result<(), RunError>
    ensures moves { OnOk result (MovesText (W.contents writer.old) output.old [] (W.contents writer.new) output.new) }
    ensures room { OnOk result (length output.new + MAX_REPLY_LEN < CAPACITY) }
    ensures err { IfErr result (λ error. error ≡ RunError.Write) }
{
    if output.len() >= CAPACITY - MAX_REPLY_LEN {
        flush_buffer(output, writer)?;
    }
    Ok(())
}

/// Writes the text in the buffer.
fn flush_buffer<W: Write>(output: &mut Buffer, writer: &mut W) -> Result<(), RunError>
    ensures sent { OnOk result (Appends (W.contents writer.old) (W.contents writer.new) output.old) }
    ensures empty { OnOk result (output.new ≡ []) }
    ensures err { IfErr result (λ error. error ≡ RunError.Write) }
{
    match writer.write_all(output.as_slice()) {
        Ok(()) => {
            output.clear();
            Ok(())
        }
        Err(_) => Err(RunError::Write),
    }
}
