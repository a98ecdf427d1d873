//! Changes of one array, of which the first `len` items are used.
ghost use Rattle.std.specs.Prelude.{◌≡◌, ◌+◌, ◌-◌, ◌<◌, ◌≤◌, ◌∷◌, ◌++◌, max, take, drop, length, set, replicate, get_or};
ghost use Rattle.std.specs.List.{insert, remove};
ghost use Rattle.vm_tree.specs.Padded.{IsPadded, greatest, IsOrdered};

use crate::entries::FANOUT;

/// Inserts `x` at the index `at` of the first `len` items.
#[inline(always)]
#[tactic(auto, using(crate::proofs::Moved::inserted, crate::proofs::Moved::inserted_pads))]
pub(crate) fn insert_in<T: Copy + Drop>(items: &mut [T; FANOUT], len: usize, at: usize, x: T)
    requires within { at ≤ len }
    requires room { len < FANOUT }
    ensures items { take (len + 1) items.new ≡ insert (take len items.old) at x }
    ensures rest { drop (len + 1) items.new ≡ drop (len + 1) items.old }
{
    items.copy_within(at..len, at + 1);
    items[at] = x;
}

/// Removes the item `at` from the first `len` items.
#[inline(always)]
#[tactic(auto, using(crate::proofs::Moved::removed, crate::proofs::Moved::removed_pads))]
pub(crate) fn remove_in<T: Copy + Drop>(items: &mut [T; FANOUT], len: usize, at: usize, pad: T)
    requires within { at < len }
    requires fits { len ≤ FANOUT }
    ensures items { take (len - 1) items.new ≡ remove (take len items.old) at }
    ensures rest { drop (len - 1) items.new ≡ pad ∷ drop len items.old }
{
    items.copy_within(at + 1..len, at);
    items[len - 1] = pad;
}

/// Writes the first `n` items of another array behind the first `len` items.
#[inline(always)]
#[tactic(auto, using(crate::proofs::Moved::copied, crate::proofs::Moved::copied_rest))]
pub(crate) fn append_in<T: Copy + Drop>(
    items: &mut [T; FANOUT],
    len: usize,
    other: &[T; FANOUT],
    n: usize,
)
    requires { len + n ≤ FANOUT }
    ensures items { take (len + n) items.new ≡ take len items.old ++ take n other.now }
    ensures rest { drop (len + n) items.new ≡ drop (len + n) items.old }
{
    let whole = &mut items[..];
    whole[len..len + n].copy_from_slice(&other[..n]);
}

/// Returns 1 if `a` is at most `b`, otherwise 0.
#[inline(always)]
fn one_if_at_most(a: u64, b: u64) -> usize
    ensures upto { a ≤ b → result ≡ 1 }
    ensures above { b < a → result ≡ 0 }
{
    if a <= b { 1 } else { 0 }
}

/// Returns the index of the last item that is at most `address`, or 0.
#[inline(always)]
#[tactic(auto, using(crate::proofs::Moved::ordered))]
pub(crate) fn last_up_to(at: &[u64; FANOUT], address: u64) -> usize
    requires { IsOrdered at.now address }
    ensures within { result < FANOUT }
    ensures from { 0 < result → get_or at.now result 0 ≤ address }
    ensures upto { result + 1 < FANOUT → address < get_or at.now (result + 1) 0 }
{
    let q = 4
        * (one_if_at_most(at[4], address)
            + one_if_at_most(at[8], address)
            + one_if_at_most(at[12], address));
    q + one_if_at_most(at[q + 1], address)
        + one_if_at_most(at[q + 2], address)
        + one_if_at_most(at[q + 3], address)
}

/// Returns the greatest of the four items starting at an index.
#[inline(always)]
#[tactic(auto, using(crate::proofs::Moved::greatest_four))]
fn greatest_of_four(items: &[u64; FANOUT], from: usize) -> u64
    requires { from + 4 ≤ FANOUT }
    ensures { greatest (take (from + 4) items.now) ≡ max (greatest (take from items.now)) result }
{
    let low = items[from].max(items[from + 1]);
    let high = items[from + 2].max(items[from + 3]);
    low.max(high)
}

/// Returns the greatest item.
///
/// The processor can compare several pairs at once.
#[inline(always)]
#[tactic(auto, using(crate::proofs::Moved::greatest_all))]
pub(crate) fn greatest_in(items: &[u64; FANOUT]) -> u64
    ensures { result ≡ greatest items.now }
{
    let low = greatest_of_four(items, 0).max(greatest_of_four(items, 4));
    let high = greatest_of_four(items, 8).max(greatest_of_four(items, 12));
    low.max(high)
}

/// Returns the greatest of short items.
#[inline(always)]
#[tactic(auto, using(crate::proofs::Moved::greatest_next))]
pub(crate) fn most_in(items: &[u32; FANOUT]) -> u32
    ensures { result ≡ greatest items.now }
{
    let mut most = 0;
    for i in 0..FANOUT {
        most = most.max(items[i]);
    }
    most
}

/// Moves the items from `at` on to the start of another array, which is all pads.
#[tactic(auto, using(crate::proofs::Splits::column_upper, crate::proofs::Splits::column_upper_pads, crate::proofs::Splits::column_lower_pads))]
#[inline(always)]
pub(crate) fn split_in<T: Copy + Drop>(
    items: &mut [T; FANOUT],
    len: usize,
    at: usize,
    upper: &mut [T; FANOUT],
    pad: T,
)
    requires within { at ≤ len }
    requires fits { len ≤ FANOUT }
    requires upper { IsPadded upper.old 0 pad }
    requires pads { IsPadded items.old len pad }
    ensures lower { take at items.new ≡ take at items.old }
    ensures lower_pads { IsPadded items.new at pad }
    ensures upper { take (len - at) upper.new ≡ drop at (take len items.old) }
    ensures upper_pads { IsPadded upper.new (len - at) pad }
{
    let from = &mut items[..];
    let to = &mut upper[..];
    to[0..len - at].swap_with_slice(&mut from[at..len]);
}
