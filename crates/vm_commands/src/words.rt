//! The words of a line: its name, and the numbers and ids after it.
//!
//! The four numbers of `manager` are read as one and three numbers, and the first two are converted
//! to ids.
ghost use Rattle.std.specs.Prelude.{◌≡◌, ◌≢◌, ◌++◌, ℕ, List, None, Some, MatchOption};
ghost use Rattle.std.specs.Option.{option_copied};
ghost use Rattle.vm_commands.specs.Numbers.{number_of, id_of};
ghost use Rattle.vm_commands.specs.Words.{words_of, words_after, one_in, two_in, three_in, four_in};
ghost use Rattle.vm_commands.specs.Reading.{number_first};

use crate::number::leading_number;

/// Returns the text after a prefix, or `None` if the text does not begin with it.
#[inline(always)]
#[tactic(auto, using(crate::proofs::Splitting::too_short, crate::proofs::Splitting::begins_else, crate::proofs::Splitting::begins_so))]
pub(crate) fn strip_prefix<'a, const N: usize>(prefix: &[u8; N], text: &'a [u8]) -> Option<&'a [u8]>
    ensures { MatchOption result
        ((rest : List ℕ) → text.now ≢ prefix.now ++ rest)
        (λ rest. text.now ≡ prefix.now ++ rest.now) }
{
    if text.len() < N {
        return None;
    }
    for i in 0..N {
        if text[i] != prefix[i] {
            return None;
        }
    }
    Some(&text[N..])
}

/// Returns the number in the first word of a text, and the text after the space that follows it.
#[inline(always)]
#[tactic(auto, using(crate::proofs::FirstNumber::first_numbers))]
fn first_number(text: &[u8]) -> Option<(u64, Option<&[u8]>)>
    ensures { MatchOption result
        (number_first (words_of text.now) ≡ None)
        (λ found. number_first (words_of text.now) ≡ Some (found.0, words_after (option_copied found.1))) }
{
    let (number, count) = leading_number(text)?;
    if count == text.len() {
        return Some((number, None));
    }
    if text[count] != b' ' {
        return None;
    }
    Some((number, Some(&text[count + 1..])))
}

/// Returns the number of a text of one word.
#[inline(always)]
#[tactic(auto, using(crate::proofs::FirstNumber::one_numbers, crate::proofs::Splitting::some_words))]
fn one_number(text: &[u8]) -> Option<u64>
    ensures { result ≡ one_in number_of (words_of text.now) }
{
    let (number, rest) = first_number(text)?;
    if rest.is_some() {
        return None;
    }
    Some(number)
}

/// Returns the numbers of a text of two words.
#[tactic(auto, using(crate::proofs::FirstNumber::two_none, crate::proofs::FirstNumber::two_some))]
pub(crate) fn two_numbers(text: &[u8]) -> Option<(u64, u64)>
    ensures { result ≡ two_in number_of (words_of text.now) }
{
    let (first, rest) = first_number(text)?;
    Some((first, one_number(rest?)?))
}

/// Returns the numbers of a text of three words.
#[inline(always)]
#[tactic(auto, using(crate::proofs::FirstNumber::three_none, crate::proofs::FirstNumber::three_some))]
pub(crate) fn three_numbers(text: &[u8]) -> Option<(u64, u64, u64)>
    ensures { result ≡ three_in number_of (words_of text.now) }
{
    let (first, rest) = first_number(text)?;
    let (second, third) = two_numbers(rest?)?;
    Some((first, second, third))
}

/// Returns the id of a text of one word.
#[tactic(auto, using(crate::proofs::IdNumbers::one_id))]
pub(crate) fn one_id(text: &[u8]) -> Option<u32>
    ensures { result ≡ one_in id_of (words_of text.now) }
{
    u32::try_from(one_number(text)?).ok()
}

/// Returns the ids of a text of two words.
#[tactic(auto, using(crate::proofs::IdNumbers::two_ids))]
pub(crate) fn two_ids(text: &[u8]) -> Option<(u32, u32)>
    ensures { result ≡ two_in id_of (words_of text.now) }
{
    let (first, second) = two_numbers(text)?;
    Some((u32::try_from(first).ok()?, u32::try_from(second).ok()?))
}

/// Returns the two ids and the two numbers of a text of four words.
#[tactic(auto, using(crate::proofs::IdNumbers::four_words))]
pub(crate) fn ids_and_numbers(text: &[u8]) -> Option<((u32, u32), (u64, u64))>
    ensures { result ≡ four_in id_of number_of (words_of text.now) }
{
    let (first, rest) = first_number(text)?;
    let (second, third, fourth) = three_numbers(rest?)?;
    let ids = (u32::try_from(first).ok()?, u32::try_from(second).ok()?);
    Some((ids, (third, fourth)))
}
