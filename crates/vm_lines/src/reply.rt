//! Replies to lines, and their text.
ghost use Rattle.std.specs.Prelude.{◌≡◌, ◌++◌, ◌+◌, ◌≤◌, length, decimal};
ghost use Rattle.vm_lines.specs.Replies.{text_of, error_text, pair_text, device_text, done_reply, range_reply, id_reply, device_reply};

use vm_addresses::{Error, RangeInclusive, Result};
use vm_commands::{Buffer, CAPACITY, MAX_DIGITS};
use vm_devices::DeviceSlot;

/// The maximum length of a reply in bytes, without its newline: the length of the error for an
/// invalid range.
pub(crate) const MAX_REPLY_LEN: usize = 61;

/// The reply to a line.
#[derive(Drop)]
pub(crate) enum Reply {
    /// The call succeeded and returned nothing.
    Done,
    /// The range was allocated.
    Given(RangeInclusive),
    /// The id was allocated or freed.
    Id(u32),
    /// Whether the id is allocated.
    Held(bool),
    /// The device was reserved.
    Device(DeviceSlot),
    /// The call returned an error.
    Failed(Error),
    /// The line needs a space, and there is none.
    NoSpace,
    /// The line needs ids, and there are none.
    NoIds,
    /// The line needs a manager, and there is none.
    NoManager,
    /// The line is not in the language, or it is too long.
    NotInLanguage,
}

/// Returns the reply to a call that returns nothing.
#[inline(always)]
pub(crate) fn done_reply(answer: Result<()>) -> Reply
    ensures { result ≡ done_reply answer }
{
    match answer {
        Ok(()) => Reply::Done,
        Err(error) => Reply::Failed(error),
    }
}

/// Returns the reply to a call that returns a range.
#[inline(always)]
pub(crate) fn range_reply(answer: Result<RangeInclusive>) -> Reply
    ensures { result ≡ range_reply answer }
{
    match answer {
        Ok(range) => Reply::Given(range),
        Err(error) => Reply::Failed(error),
    }
}

/// Returns the reply to a call that returns an id.
#[inline(always)]
pub(crate) fn id_reply(answer: Result<u32>) -> Reply
    ensures { result ≡ id_reply answer }
{
    match answer {
        Ok(id) => Reply::Id(id),
        Err(error) => Reply::Failed(error),
    }
}

/// Returns the reply to a call that returns a device.
#[inline(always)]
pub(crate) fn device_reply(answer: Result<DeviceSlot>) -> Reply
    ensures { result ≡ device_reply answer }
{
    match answer {
        Ok(slot) => Reply::Device(slot),
        Err(error) => Reply::Failed(error),
    }
}

/// Writes the text of a reply.
pub(crate) fn write_reply(output: &mut Buffer, reply: Reply)
    requires { length output.old + MAX_REPLY_LEN ≤ CAPACITY }
    ensures text { output.new ≡ output.old ++ text_of reply }
    ensures room { length output.new ≤ length output.old + MAX_REPLY_LEN }
{
    match reply {
        Reply::Done => output.extend_from_slice(b"done"),
        Reply::Given(range) => write_pair(output, b"range ", range.start(), range.end()),
        Reply::Id(id) => write_number(output, b"id ", id.into()),
        Reply::Held(true) => output.extend_from_slice(b"yes"),
        Reply::Held(false) => output.extend_from_slice(b"no"),
        Reply::Device(slot) => write_device(output, slot),
        Reply::Failed(error) => write_error(output, error),
        Reply::NoSpace => output.extend_from_slice(b"error no-space"),
        Reply::NoIds => output.extend_from_slice(b"error no-ids"),
        Reply::NoManager => output.extend_from_slice(b"error no-manager"),
        Reply::NotInLanguage => output.extend_from_slice(b"error line"),
    }
}

/// Writes the text of a device.
fn write_device(output: &mut Buffer, slot: DeviceSlot)
    requires { length output.old + MAX_REPLY_LEN ≤ CAPACITY }
    ensures text { output.new ≡ output.old ++ device_text slot }
    ensures room { length output.new ≤ length output.old + MAX_REPLY_LEN }
{
    output.extend_from_slice(b"device ");
    output.push_number(slot.id.into());
    output.push(b' ');
    push_pair(output, slot.range.start(), slot.range.end());
}

/// Writes the text of an error.
fn write_error(output: &mut Buffer, error: Error)
    requires { length output.old + MAX_REPLY_LEN ≤ CAPACITY }
    ensures text { output.new ≡ output.old ++ error_text error }
    ensures room { length output.new ≤ length output.old + MAX_REPLY_LEN }
{
    match error {
        Error::Overflow => output.extend_from_slice(b"error overflow"),
        Error::OutOfRange(id) => write_number(output, b"error out-of-range ", id.into()),
        Error::AlreadyReleased(id) => write_number(output, b"error already-released ", id.into()),
        Error::NeverAllocated(id) => write_number(output, b"error never-allocated ", id.into()),
        Error::ResourceNotAvailable => output.extend_from_slice(b"error not-available"),
        Error::InvalidRange(start, end) => write_pair(output, b"error invalid-range ", start, end),
        Error::InvalidAlignment => output.extend_from_slice(b"error invalid-alignment"),
        Error::Overlap(_, _) => output.extend_from_slice(b"error overlap"),
        Error::InvalidStateTransition(slot, _) => write_pair(
            output,
            b"error state ",
            slot.start(),
            slot.end(),
        ),
        Error::UnalignedAddress => output.extend_from_slice(b"error unaligned"),
        Error::Underflow => output.extend_from_slice(b"error underflow"),
        Error::InvalidSize(size) => write_number(output, b"error invalid-size ", size),
        Error::OutOfMemory => output.extend_from_slice(b"error memory"),
    }
}

/// Writes a text, followed by a number.
#[inline(always)]
fn write_number(output: &mut Buffer, text: &[u8], number: u64)
    requires short { length text.now + MAX_DIGITS ≤ MAX_REPLY_LEN }
    requires room { length output.old + MAX_REPLY_LEN ≤ CAPACITY }
    ensures text { output.new ≡ output.old ++ (text.now ++ decimal number) }
    ensures room { length output.new ≤ length output.old + MAX_REPLY_LEN }
{
    output.extend_from_slice(text);
    output.push_number(number);
}

/// Writes a text, followed by two numbers.
#[inline(always)]
fn write_pair(output: &mut Buffer, text: &[u8], first: u64, second: u64)
    requires short { length text.now + MAX_DIGITS + 1 + MAX_DIGITS ≤ MAX_REPLY_LEN }
    requires room { length output.old + MAX_REPLY_LEN ≤ CAPACITY }
    ensures text { output.new ≡ output.old ++ (text.now ++ pair_text first second) }
    ensures room { length output.new ≤ length output.old + MAX_REPLY_LEN }
{
    output.extend_from_slice(text);
    push_pair(output, first, second);
}

/// Writes two numbers.
#[inline(always)]
fn push_pair(output: &mut Buffer, first: u64, second: u64)
    requires { length output.old + MAX_DIGITS + 1 + MAX_DIGITS ≤ CAPACITY }
    ensures text { output.new ≡ output.old ++ pair_text first second }
    ensures room { length output.new ≤ length output.old + MAX_DIGITS + 1 + MAX_DIGITS }
{
    output.push_number(first);
    output.push(b' ');
    output.push_number(second);
}
