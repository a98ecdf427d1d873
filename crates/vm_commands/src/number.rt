//! Reads the number at the beginning of a text, up to the first byte that is not a digit.
ghost use Rattle.std.specs.Prelude.{◌≡◌, ◌+◌, ◌-◌, ◌*◌, ◌^◌, ◌≤◌, true, MatchOption};
ghost use Rattle.vm_commands.specs.Numbers.{is_digit, digit_zero};
ghost use Rattle.vm_commands.specs.Reading.{IsLeadingNumber};

/// The maximum number of digits of a number. Every number of 64 bits fits.
pub const MAX_DIGITS: usize = 20;

const BASE: u64 = 10;

/// Returns a value with one more digit, or `None` if it does not fit into 64 bits.
#[inline(always)]
fn with_digit(value: u64, digit: u8) -> Option<u64>
    requires { is_digit digit ≡ true }
    ensures { MatchOption result
        (2 ^ 64 ≤ value * BASE + (digit - digit_zero))
        (λ more. more ≡ value * BASE + (digit - digit_zero)) }
{
    value
        .checked_mul(BASE)?
        .checked_add(u64::from(digit - b'0'))
}

/// Returns the number at the beginning of a text and the number of its digits. Returns `None` if
/// there is no digit, if there are too many, or if the number does not fit.
#[inline(always)]
#[tactic(auto, using(crate::proofs::Numerals::number_is, crate::proofs::Numerals::number_none))]
pub(crate) fn leading_number(text: &[u8]) -> Option<(u64, usize)>
    ensures { IsLeadingNumber text.now result }
{
    let (mut value, mut count) = (0, 0);
    while count < text.len() && text[count].is_ascii_digit() {
        if count == MAX_DIGITS {
            return None;
        }
        value = with_digit(value, text[count])?;
        count += 1;
    }
    if count == 0 {
        return None;
    }
    Some((value, count))
}
