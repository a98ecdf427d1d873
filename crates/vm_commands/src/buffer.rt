//! A buffer for the output.
//!
//! A number is written by pairs of digits from a table. It is then copied as twenty bytes whatever
//! its length, because a fixed length is two moves and no call.
ghost use Rattle.std.specs.Prelude.{◌≡◌, ◌++◌, ◌∷◌, [], ◌+◌, ◌-◌, ◌/◌, ◌%◌, ◌≤◌, ◌<◌, length, decimal};
ghost use Rattle.vm_commands.specs.Printing.{digits_from};

use crate::number::MAX_DIGITS;
use std::marker::Model;

/// The capacity of a buffer in bytes.
pub const CAPACITY: usize = 4096;

/// The length of the array for the digits of a number, with the same number of bytes after them.
const DIGITS_LEN: usize = 40;

/// The two digits of each number below a hundred.
static PAIRS: [u8; 200] = *b"\
    0001020304050607080910111213141516171819\
    2021222324252627282930313233343536373839\
    4041424344454647484950515253545556575859\
    6061626364656667686970717273747576777879\
    8081828384858687888990919293949596979899";

/// Text that is not written yet, in a fixed array.
#[derive(Drop)]
pub struct Buffer {
    bytes: [u8; CAPACITY],
    length: usize,
}

impl Model for Buffer {
    ghost use Rattle.std.specs.Prelude.{◌≤◌, ℕ, List, take};
    ghost use Rattle.vm_commands.specs.declared.buffer.TheConstants.{CAPACITY};

    ghost Value = { List ℕ };

    ghost view = { λ a. take a.length a.bytes };

    ghost invariant = { λ a. a.length ≤ CAPACITY };
}

impl Buffer {
    /// Creates an empty buffer.
    pub fn new() -> Buffer
        ensures { result ≡ [] }
    {
        Buffer {
            bytes: [0; CAPACITY],
            length: 0,
        }
    }

    /// Returns the number of bytes in the buffer.
    pub fn len(&self) -> usize
        ensures value { result ≡ length self.now }
        ensures within { length self.now ≤ CAPACITY }
    {
        self.length
    }

    /// Returns the text in the buffer.
    pub fn as_slice(&self) -> &[u8]
        ensures { result.now ≡ self.now }
    {
        &self.bytes[..self.length]
    }

    /// Removes all text.
    pub fn clear(&mut self)
        ensures { self.new ≡ [] }
    {
        self.length = 0;
    }

    /// Appends one byte.
    pub fn push(&mut self, byte: u8)
        requires { length self.old < CAPACITY }
        ensures { self.new ≡ self.old ++ byte ∷ [] }
    {
        self.bytes[self.length] = byte;
        self.length += 1;
    }

    /// Appends a text.
    pub fn extend_from_slice(&mut self, text: &[u8])
        requires { length self.old + length text.now ≤ CAPACITY }
        ensures { self.new ≡ self.old ++ text.now }
    {
        let end = self.length + text.len();
        self.bytes[self.length..end].copy_from_slice(text);
        self.length = end;
    }

    /// Appends a number in decimal.
    #[tactic(auto, using(crate::proofs::Decimals::long, crate::proofs::Decimals::cut_back))]
    pub fn push_number(&mut self, number: u64)
        requires { length self.old + MAX_DIGITS ≤ CAPACITY }
        ensures text { self.new ≡ self.old ++ decimal number }
        ensures room { length self.new ≤ length self.old + MAX_DIGITS }
    {
        let mut digits = [0u8; DIGITS_LEN];
        let start = write_digits(number, &mut digits);
        // A fixed length makes this two moves. The bytes after the number are removed again.
        self.extend_from_slice(&digits[start..start + MAX_DIGITS]);
        self.length -= start;
    }
}

/// Writes the digits of a number so that they end before index `MAX_DIGITS`, and returns the index
/// of the first digit.
#[tactic(auto, using(crate::proofs::Decimals::two_long, crate::proofs::Decimals::some_long))]
fn write_digits(number: u64, digits: &mut [u8; DIGITS_LEN]) -> usize
    ensures within { result ≤ MAX_DIGITS }
    ensures text { digits_from result digits.new ≡ decimal number }
{
    let mut start = MAX_DIGITS;
    let mut rest = number;
    while rest >= 100 {
        write_two_digits(digits, start, (rest % 100) as u8);
        start -= 2;
        rest /= 100;
    }
    if rest >= 10 {
        write_two_digits(digits, start, rest as u8);
        return start - 2;
    }
    digits[start - 1] = b'0' + rest as u8;
    start - 1
}

/// Writes two digits that end before index `start`.
#[inline(always)]
#[tactic(auto, using(crate::proofs::Decimals::put_both, crate::proofs::Decimals::pairs_are))]
fn write_two_digits(digits: &mut [u8; DIGITS_LEN], start: usize, pair: u8)
    requires pair { pair < 100 }
    requires some { 1 < start }
    requires within { start ≤ MAX_DIGITS }
    ensures { digits_from (start - 2) digits.new ≡ (48 + pair / 10) ∷ (48 + pair % 10) ∷ digits_from start digits.old }
{
    let place = pair as usize * 2;
    digits[start - 1] = PAIRS[place + 1];
    digits[start - 2] = PAIRS[place];
}
