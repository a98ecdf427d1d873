//! A leaf: up to `CAPACITY` consecutive blocks, with the cuts between them in one array.
ghost use Rattle.std.specs.Prelude.{◌≡◌, ◌≢◌, ℕ, ◌+◌, ◌-◌, ◌*◌, ◌%◌, ◌^◌, ◌<◌, ◌≤◌, [], ◌∷◌, ◌++◌, length, take, drop, MatchBool};
ghost use Rattle.vm_ranges.specs.declared.state.NodeState.TheVariants.{Free, Allocated};
ghost use Rattle.vm_ranges.specs.Range.{IsIn};
ghost use Rattle.vm_leaf.specs.States.{states_in, moved, WithHeld, WithFree};
ghost use Rattle.vm_leaf.specs.Block.{held_block};
ghost use Rattle.vm_leaf.specs.Rest.{IsRest, added_by};
ghost use Rattle.vm_leaf.specs.Blocks.{nth, start_of, end_of, with_parts, upper_held, lower_held, middle_held, gap_over, parts, freed_at, IsJoined, IsLeaf};
ghost use Rattle.vm_leaf.specs.Cuts.{start_after, ArePads};
ghost use Rattle.vm_leaf.specs.Raises.{Raises};
ghost use Rattle.vm_leaf.specs.Starts.{IsOneIfUpTo, IsNarrowed};

mod ends;
mod fits;
mod gaps;
mod moves;
mod part;
mod rest;
mod summary;
mod walk;

pub use self::fits::{highest_fit, lowest_fit};
pub use self::rest::Rest;
pub use self::summary::Summary;
pub use self::walk::Blocks;
use crate::block::Block;
use std::marker::Model;
use vm_ranges::{NodeState, RangeInclusive};

/// The maximum number of blocks of a leaf.
pub const CAPACITY: usize = 32;

/// The number of cuts of a leaf with `CAPACITY` blocks.
const CUTS: usize = 33;

/// The minimum number of blocks of a leaf, unless the leaf is the whole tree.
pub const MIN_BLOCKS: usize = 12;

/// One to `CAPACITY` consecutive blocks that cover a range of addresses. Two neighbours are never both free.
///
/// The fields have this order in memory, so that few blocks are in few cache lines.
#[derive(Debug, Drop)]
#[repr(C)]
pub struct Leaf {
    /// The states: bit `i` is 1 if block `i` is allocated. The bits at or above `len` are 0.
    held: u64,
    /// The number of blocks.
    len: usize,
    /// The address before the first block, then the last address of each block. The first is `u64::MAX` if the
    /// first block starts at 0. The entries behind the last block are `u64::MAX`.
    cuts: [u64; CUTS],
}

/// A fit in a leaf: the index of a gap, and the first address of a range in it.
#[derive(Clone, Copy)]
pub struct Fit {
    /// The index of the gap.
    pub index: usize,
    /// The first address of the range.
    pub start: u64,
}

impl Model for Leaf {
    ghost use Rattle.std.specs.Prelude.{List};
    ghost use Rattle.vm_leaf.specs.Block.{Block, blocks_code};

    ghost Value = { List Block };

    ghost coded = { blocks_code };

    ghost use Rattle.vm_leaf.specs.Leaf.{encoded_blocks, IsInside};

    ghost view = { encoded_blocks };

    ghost invariant = { IsInside };
}

/// Returns the state of block `i`, which is bit `i` of the mask `held`.
#[inline(always)]
#[tactic(auto, using(crate::proofs::Masks::reading))]
fn state_in(held: u64, i: usize) -> NodeState
    requires { i < 64 }
    ensures { result ≡ states_in held i }
{
    if (held >> i) & 1 == 0 {
        NodeState::Free
    } else {
        NodeState::Allocated
    }
}

/// Returns the mask `held` with bit `i` set.
#[inline(always)]
#[tactic(auto, using(crate::proofs::Masks::setting))]
fn with_held(held: u64, i: usize) -> u64
    requires { i < 64 }
    ensures { WithHeld held i result }
{
    held | 1 << i
}

/// Returns the mask `held` with bit `i` cleared.
#[inline(always)]
#[tactic(auto, using(crate::proofs::Masks::clearing))]
fn without_held(held: u64, i: usize) -> u64
    requires within { i < 64 }
    ensures { WithFree held i result }
{
    held & !(1 << i)
}

/// Returns the bits of `held` below `keep`, and the bits starting at `from`, moved so that they start at `to`.
#[inline(always)]
#[tactic(auto, using(crate::proofs::Masks::moving))]
fn with_moved(held: u64, keep: usize, from: usize, to: usize) -> u64
    requires keeps { keep ≤ to }
    requires from { from ≤ CAPACITY }
    requires to { to ≤ from + 2 }
    requires mask { held < 2 ^ CAPACITY }
    ensures { result ≡ moved held keep from to }
{
    ((held >> from) << to) + held % (1 << keep)
}

/// Returns the first address after a cut.
#[inline(always)]
#[tactic(auto, using(crate::proofs::Cuts::afters))]
fn after_cut(cut: u64) -> u64
    ensures { result ≡ start_after cut }
{
    if cut == u64::MAX { 0 } else { cut + 1 }
}

/// Returns the cut before a block that starts at `start`.
#[inline(always)]
#[tactic(auto, using(crate::proofs::Cuts::befores))]
fn cut_before(start: u64) -> u64
    ensures { start_after result ≡ start }
{
    if start == 0 { u64::MAX } else { start - 1 }
}

/// Inserts `first` at the index `at` of the first `len` cuts.
#[inline(always)]
#[tactic(auto, using(crate::proofs::Arrays::inserted_one, crate::proofs::Arrays::pads_one))]
fn insert_one(cuts: &mut [u64; CUTS], len: usize, at: usize, first: u64)
    requires within { at ≤ len }
    requires room { len + 1 ≤ CUTS }
    ensures cuts { take (len + 1) cuts.new ≡ take at cuts.old ++ (first ∷ drop at (take len cuts.old)) }
    ensures pads { ArePads cuts.old len → ArePads cuts.new (len + 1) }
{
    cuts.copy_within(at..len, at + 1);
    cuts[at] = first;
}

/// Inserts `first` and `second` at the index `at` of the first `len` cuts.
#[inline(always)]
#[tactic(auto, using(crate::proofs::Arrays::inserted_two, crate::proofs::Arrays::pads_two))]
fn insert_two(cuts: &mut [u64; CUTS], len: usize, at: usize, first: u64, second: u64)
    requires within { at ≤ len }
    requires room { len + 2 ≤ CUTS }
    ensures cuts { take (len + 2) cuts.new ≡ take at cuts.old ++ (first ∷ (second ∷ drop at (take len cuts.old))) }
    ensures pads { ArePads cuts.old len → ArePads cuts.new (len + 2) }
{
    cuts.copy_within(at..len, at + 2);
    cuts[at] = first;
    cuts[at + 1] = second;
}

/// Keeps the cuts below the index `at`, and writes pads to the indices `at..len`.
#[inline(always)]
#[tactic(auto, using(crate::proofs::Arrays::cleared))]
fn clear(cuts: &mut [u64; CUTS], len: usize, at: usize)
    requires within { at ≤ len }
    requires fits { len ≤ CUTS }
    ensures cuts { take at cuts.new ≡ take at cuts.old }
    ensures pads { ArePads cuts.old len → ArePads cuts.new at }
{
    cuts[at..len].fill(u64::MAX);
}

/// Removes the cuts with the indices `to..from` from the first `len` cuts.
#[inline(always)]
#[tactic(auto, using(crate::proofs::Arrays::removed, crate::proofs::Arrays::pads_removed))]
fn remove_between(cuts: &mut [u64; CUTS], len: usize, to: usize, from: usize)
    requires order { to ≤ from }
    requires within { from ≤ len }
    requires fits { len ≤ CUTS }
    ensures cuts { take (len - from + to) cuts.new ≡ take to cuts.old ++ drop from (take len cuts.old) }
    ensures pads { ArePads cuts.old len → ArePads cuts.new (len - from + to) }
{
    cuts.copy_within(from..len, to);
    clear(cuts, len, len - from + to);
}

/// Writes `n` cuts of `other`, without the first one, to the indices `at..at + n`.
#[inline(always)]
#[tactic(auto, using(crate::proofs::Arrays::copied, crate::proofs::Arrays::pads_copied))]
fn copy_in(cuts: &mut [u64; CUTS], at: usize, other: &[u64; CUTS], n: usize)
    requires fits { at + n ≤ CUTS }
    requires some { 0 < at }
    ensures cuts { take (at + n) cuts.new ≡ take at cuts.old ++ take n (drop 1 other.now) }
    ensures pads { ArePads cuts.old at → ArePads cuts.new (at + n) }
{
    cuts[at..at + n].copy_from_slice(&other[1..n + 1]);
}

/// Returns the mask of `len` blocks with the states `held`, followed by `_more` blocks with the states `other`.
#[inline(always)]
#[tactic(auto, using(crate::proofs::Masks::appending))]
fn with_appended(held: u64, len: usize, other: u64, _more: usize) -> u64
    requires fits { len + _more ≤ CAPACITY }
    requires mask { held < 2 ^ len }
    requires other_mask { other < 2 ^ _more }
    ensures { result ≡ other * 2 ^ len + held }
{
    (other << len) + held
}

/// Returns the bits of the mask `held` below `at`.
#[inline(always)]
#[tactic(auto, using(crate::proofs::Masks::moving))]
fn low_part(held: u64, at: usize) -> u64
    requires { at ≤ CAPACITY }
    ensures { result ≡ held % 2 ^ at }
{
    held % (1 << at)
}

impl Leaf {
    /// Creates a leaf that has only this block.
    pub fn single(block: Block) -> Leaf
        ensures value { result ≡ block ∷ [] }
        ensures leaf { IsLeaf result }
    {
        let mut cuts = [u64::MAX; CUTS];
        cuts[0] = cut_before(block.key.start());
        cuts[1] = block.key.end();
        let held = match block.state {
            NodeState::Free => 0,
            NodeState::Allocated => 1,
        };
        Leaf { held, len: 1, cuts }
    }

    /// Returns the number of blocks.
    #[inline(always)]
    #[tactic(auto, using(crate::proofs::Fields::length_of))]
    pub fn len(&self) -> usize
        ensures value { result ≡ length self.now }
        ensures leaf { IsLeaf self.now }
    {
        self.len
    }

    /// Returns the first address of block `i`.
    #[inline(always)]
    #[tactic(auto, using(crate::proofs::Fields::length_of, crate::proofs::Fields::start_is))]
    fn start_at(&self, i: usize) -> u64
        requires { i < length self.now }
        ensures { result ≡ (nth self.now i).key.start }
    {
        // Proof: a field is read before the index is checked.
        let _len = self.len;
        after_cut(self.cuts[i])
    }

    /// Returns the last address of block `i`.
    #[inline(always)]
    #[tactic(auto, using(crate::proofs::Fields::length_of, crate::proofs::Fields::end_is))]
    fn end_at(&self, i: usize) -> u64
        requires { i < length self.now }
        ensures { result ≡ (nth self.now i).key.end }
    {
        // Proof: a field is read before the index is checked.
        let _len = self.len;
        self.cuts[i + 1]
    }

    /// Returns the state of block `i`.
    #[inline(always)]
    #[tactic(auto, using(crate::proofs::Fields::length_of, crate::proofs::Fields::state_is))]
    fn state_at(&self, i: usize) -> NodeState
        requires { i < length self.now }
        ensures { result ≡ (nth self.now i).state }
    {
        state_in(self.held, i)
    }

    /// Returns block `i`, which must exist.
    pub fn block_at(&self, i: usize) -> Block
        requires { i < length self.now }
        ensures { result ≡ nth self.now i }
    {
        Block {
            key: self.key_at(i),
            state: self.state_at(i),
        }
    }

    /// Returns 1 if block `i` exists and starts at or below `address`, otherwise 0.
    #[inline(always)]
    #[tactic(auto, using(crate::proofs::Fields::length_of))]
    fn one_if_up_to(&self, i: usize, address: u64) -> usize
        requires inner { (0 < i) × (i ≤ CAPACITY) }
        requires upto { address ≤ end_of self.now }
        ensures { IsOneIfUpTo self.now i address result }
    {
        // Proof: a field is read before the index is checked.
        let _len = self.len;
        if self.cuts[i] < address { 1 } else { 0 }
    }

    /// Returns `low + 1` if that block exists and starts at or below `address`, otherwise `low`.
    ///
    /// The block with the address must be one of these two.
    #[inline(always)]
    fn narrow_to_one(&self, low: usize, address: u64) -> usize
        requires within { low < length self.now }
        requires from { (nth self.now low).key.start ≤ address }
        requires end { address ≤ end_of self.now }
        requires upto { low + 2 < length self.now → address < (nth self.now (low + 2)).key.start }
        ensures { IsNarrowed self.now low 1 address result }
    {
        // Proof: `len` gives the facts of a leaf.
        let _len = self.len();
        low + self.one_if_up_to(low + 1, address)
    }

    /// Returns the last of the indices `low`, `low + step`, `low + 2 * step` and `low + 3 * step` whose
    /// block exists and starts at or below `address`. The processor can compare the three starts at once.
    ///
    /// The block with the address must be one of the `4 * step` blocks starting at `low`.
    #[inline(always)]
    fn narrow_to_quarter(&self, low: usize, step: usize, address: u64) -> usize
        requires within { low < length self.now }
        requires from { (nth self.now low).key.start ≤ address }
        requires end { address ≤ end_of self.now }
        requires fits { (0 < step) × (low + 3 * step ≤ CAPACITY) }
        requires upto { low + 4 * step < length self.now → address < (nth self.now (low + 4 * step)).key.start }
        ensures { IsNarrowed self.now low step address result }
    {
        // Proof: `len` gives the facts of a leaf.
        let _len = self.len();
        let first = self.one_if_up_to(low + step, address);
        let second = self.one_if_up_to(low + 2 * step, address);
        let third = self.one_if_up_to(low + 3 * step, address);
        low + step * (first + second + third)
    }

    /// Returns the index of the block with `address`, which must be in the leaf.
    ///
    /// No branch depends on the address. The search also reads entries of the array behind the last block,
    /// which have no effect.
    pub fn index_of(&self, address: u64) -> usize
        requires from { start_of self.now ≤ address }
        requires upto { address ≤ end_of self.now }
        ensures within { result < length self.now }
        ensures found { IsIn (nth self.now result).key address }
    {
        // Proof: `len` gives the facts of a leaf.
        let _len = self.len();
        let low = self.narrow_to_quarter(0, 8, address);
        let low = self.narrow_to_quarter(low, 2, address);
        self.narrow_to_one(low, address)
    }

    /// Allocates the whole gap `i`.
    #[tactic(auto, using(crate::proofs::Fields::length_of))]
    pub fn take(&mut self, i: usize)
        requires within { i < length self.old }
        requires free { (nth self.old i).state ≡ Free }
        ensures { self.new ≡ with_parts self.old i 1 (held_block (nth self.old i).key ∷ []) }
    {
        self.held = with_held(self.held, i);
    }

    /// Splits the gap `i` into a free part and an allocated part, which starts at `first`.
    #[inline(always)]
    #[tactic(auto, using(crate::proofs::Fields::length_of, crate::proofs::Fields::mask_fits))]
    fn split_upper(&mut self, i: usize, first: u64)
        requires within { i < length self.old }
        requires free { (nth self.old i).state ≡ Free }
        requires room { length self.old + 1 ≤ CAPACITY }
        requires after { (nth self.old i).key.start < first }
        requires upto { first ≤ (nth self.old i).key.end }
        ensures { self.new ≡ with_parts self.old i 1 (upper_held (nth self.old i).key first) }
    {
        let len = self.len;
        insert_one(&mut self.cuts, len + 1, i + 1, first - 1);
        self.held = with_held(with_moved(self.held, i + 1, i + 1, i + 2), i + 1);
        self.len = len + 1;
    }

    /// Splits the gap `i` into an allocated part and a free part, which starts at `next`.
    #[inline(always)]
    #[tactic(auto, using(crate::proofs::Fields::length_of, crate::proofs::Fields::mask_fits))]
    fn split_lower(&mut self, i: usize, next: u64)
        requires within { i < length self.old }
        requires free { (nth self.old i).state ≡ Free }
        requires room { length self.old + 1 ≤ CAPACITY }
        requires after { (nth self.old i).key.start < next }
        requires upto { next ≤ (nth self.old i).key.end }
        ensures { self.new ≡ with_parts self.old i 1 (lower_held (nth self.old i).key next) }
    {
        let len = self.len;
        insert_one(&mut self.cuts, len + 1, i + 1, next - 1);
        self.held = with_held(with_moved(self.held, i + 1, i + 1, i + 2), i);
        self.len = len + 1;
    }

    /// Splits the gap `i` into a free part, an allocated part that starts at `first`, and a free part that starts
    /// at `next`.
    #[inline(always)]
    #[tactic(auto, using(crate::proofs::Fields::length_of, crate::proofs::Fields::mask_fits))]
    fn split_middle(&mut self, i: usize, first: u64, next: u64)
        requires within { i < length self.old }
        requires free { (nth self.old i).state ≡ Free }
        requires room { length self.old + 2 ≤ CAPACITY }
        requires after { (nth self.old i).key.start < first }
        requires order { first < next }
        requires upto { next ≤ (nth self.old i).key.end }
        ensures { self.new ≡ with_parts self.old i 1 (middle_held (nth self.old i).key first next) }
    {
        let len = self.len;
        insert_two(&mut self.cuts, len + 1, i + 1, first - 1, next - 1);
        self.held = with_held(with_moved(self.held, i + 1, i + 1, i + 3), i + 1);
        self.len = len + 2;
    }

    /// Frees block `i`. Its neighbours must be allocated.
    #[inline(always)]
    #[tactic(auto, using(crate::proofs::Fields::length_of))]
    fn set_free(&mut self, i: usize)
        requires within { i < length self.old }
        requires before { 0 < i → (nth self.old (i - 1)).state ≡ Allocated }
        requires after { i + 1 < length self.old → (nth self.old (i + 1)).state ≡ Allocated }
        ensures { self.new ≡ with_parts self.old i 1 (gap_over self.old i 1) }
    {
        self.held = without_held(self.held, i);
    }

    /// Replaces the `n` blocks starting at `i` with one gap. Their neighbours must be allocated.
    #[inline(always)]
    #[tactic(auto, using(crate::proofs::Fields::length_of, crate::proofs::Fields::mask_fits))]
    fn merge(&mut self, i: usize, n: usize)
        requires some { 0 < n }
        requires within { i + n ≤ length self.old }
        requires before { 0 < i → (nth self.old (i - 1)).state ≡ Allocated }
        requires after { i + n < length self.old → (nth self.old (i + n)).state ≡ Allocated }
        ensures { self.new ≡ with_parts self.old i n (gap_over self.old i n) }
    {
        if n == 1 {
            return self.set_free(i);
        }
        let len = self.len;
        remove_between(&mut self.cuts, len + 1, i + 1, i + n);
        self.held = with_moved(self.held, i, i + n, i + 1);
        self.len = len - n + 1;
    }

    /// Allocates `range`, which must be in the gap `i`. `rest` is the parts of the gap that stay free.
    ///
    /// The leaf must have room for these parts. If it has not, [`Leaf::split_full`] allocates the range.
    #[inline(always)]
    #[tactic(auto, using(crate::proofs::Parts::parting, crate::proofs::Tiles::leaf_range))]
    pub fn split(&mut self, i: usize, range: RangeInclusive, rest: Rest)
        requires within { i < length self.old }
        requires free { (nth self.old i).state ≡ Free }
        requires rest { IsRest rest (nth self.old i).key range }
        requires room { length self.old + added_by rest ≤ CAPACITY }
        ensures { self.new ≡ with_parts self.old i 1 (parts (nth self.old i).key range) }
    {
        // Proof: `len` gives the facts of a leaf.
        let _len = self.len();
        let (start, end) = (range.start(), range.end());
        match rest {
            Rest::Nothing => self.take(i),
            Rest::Before => self.split_upper(i, start),
            Rest::After => self.split_lower(i, end + 1),
            Rest::Both => self.split_middle(i, start, end + 1),
        }
    }

    /// Returns `true` if block `i` exists and is free.
    #[inline(always)]
    fn is_free_at(&self, i: usize) -> bool
        ensures { MatchBool result
            ((i < length self.now) × ((nth self.now i).state ≡ Free))
            (i < length self.now → (nth self.now i).state ≡ Allocated) }
    {
        if i >= self.len() {
            return false;
        }
        match self.state_at(i) {
            NodeState::Free => true,
            NodeState::Allocated => false,
        }
    }

    /// Replaces the `n` blocks starting at `i` with one gap, and returns its range.
    #[inline(always)]
    #[tactic(auto, using(crate::proofs::Raised::joins))]
    fn join_blocks(&mut self, i: usize, n: usize) -> RangeInclusive
        requires some { 0 < n }
        requires within { i + n ≤ length self.old }
        requires before { 0 < i → (nth self.old (i - 1)).state ≡ Allocated }
        requires after { i + n < length self.old → (nth self.old (i + n)).state ≡ Allocated }
        ensures key { result ≡ record { start = (nth self.old i).key.start; end = (nth self.old (i + n - 1)).key.end } }
        ensures merged { self.new ≡ with_parts self.old i n (gap_over self.old i n) }
        ensures raised { Raises result self.old self.new }
    {
        // Proof: `len` gives the facts of a leaf.
        let _len = self.len();
        let gap = RangeInclusive::between(self.start_at(i), self.end_at(i + n - 1));
        self.merge(i, n);
        gap
    }

    /// Frees the allocated block `i`, joins it with its free neighbours, and returns the range of the gap.
    #[inline(always)]
    pub fn join(&mut self, i: usize) -> RangeInclusive
        requires within { i < length self.old }
        requires held { (nth self.old i).state ≡ Allocated }
        ensures freed { self.new ≡ freed_at i self.old }
        ensures gap { IsJoined i result self.old self.new }
        ensures raised { Raises result self.old self.new }
    {
        // Proof: `len` gives the facts of a leaf.
        let _len = self.len();
        let after = self.is_free_at(i + 1);
        if i > 0 && self.is_free_at(i - 1) {
            if after {
                return self.join_blocks(i - 1, 3);
            }
            return self.join_blocks(i - 1, 2);
        }
        if after {
            return self.join_blocks(i, 2);
        }
        self.join_blocks(i, 1)
    }

    /// Removes the blocks starting at index `at`, and returns a leaf of them.
    #[inline(always)]
    #[tactic(auto, using(crate::proofs::Fields::length_of))]
    fn split_off(&mut self, at: usize) -> Leaf
        requires some { 0 < at }
        requires rest { at < length self.old }
        ensures low { self.new ≡ take at self.old }
        ensures high { result ≡ drop at self.old }
    {
        let len = self.len;
        let mut cuts = self.cuts;
        remove_between(&mut cuts, len + 1, 0, at);
        let upper = Leaf {
            held: self.held >> at,
            len: len - at,
            cuts,
        };
        clear(&mut self.cuts, len + 1, at + 1);
        self.held = low_part(self.held, at);
        self.len = at;
        upper
    }

    /// Appends the blocks of the next leaf. The leaf must have room for them.
    #[tactic(auto, using(crate::proofs::Fields::length_of))]
    pub fn append(&mut self, other: &Leaf)
        requires { IsLeaf (self.old ++ other.now) }
        ensures { self.new ≡ self.old ++ other.now }
    {
        let (len, more) = (self.len, other.len);
        copy_in(&mut self.cuts, len + 1, &other.cuts, more);
        self.held = with_appended(self.held, len, other.held, more);
        self.len = len + more;
    }
}
