//! The entries of the children of a node.
ghost use Rattle.std.specs.Prelude.{◌≡◌, ◌+◌, ◌<◌, ◌≤◌, ◌∷◌, [], ◌++◌, take, drop, length, set};
ghost use Rattle.std.specs.List.{insert, remove};
ghost use Rattle.vm_tree.specs.Rows.{nth, Ascends, longest_of, alignments_of, sum_of, beginning_at};

use crate::columns::{append_in, greatest_in, insert_in, last_up_to, most_in, remove_in, split_in};
use std::marker::Model;

/// The maximum number of children.
pub const FANOUT: usize = 16;

/// The minimum number of children of a node that is no root.
pub(crate) const MIN_CHILDREN: usize = 5;

/// The entry of a child, which is stored beside it: its first address, and the summary of its gaps.
#[derive(Clone, Copy, Debug)]
pub struct Entry {
    pub at: u64,
    pub longest: u64,
    pub alignments: u32,
}

/// No entry is above it. A change of a root is told it, because no entry of a root is stored.
pub(crate) const MOST: Entry = Entry {
    at: 0,
    longest: u64::MAX,
    alignments: 64,
};

/// The entries of up to `FANOUT` children, each part in an array.
#[derive(Debug, Drop)]
#[repr(C)]
pub struct Entries {
    at: [u64; FANOUT],
    longest: [u64; FANOUT],
    alignments: [u32; FANOUT],
    len: usize,
}

impl Model for Entries {
    ghost use Rattle.std.specs.Prelude.{List};
    ghost use Rattle.vm_tree.specs.Entry.{Entry, entries_code};

    ghost Value = { List Entry };

    ghost coded = { entries_code };

    ghost use Rattle.vm_tree.specs.Rows.{entries_of, IsInside};

    ghost view = { entries_of };

    ghost invariant = { IsInside };
}

impl Entries {
    /// Creates a list of no entries.
    pub fn empty() -> Entries
        ensures { result ≡ [] }
    {
        Entries {
            at: [u64::MAX; FANOUT],
            longest: [0; FANOUT],
            alignments: [0; FANOUT],
            len: 0,
        }
    }

    /// Returns a copy.
    pub fn copy(&self) -> Entries
        ensures { result ≡ self.now }
    {
        Entries {
            at: self.at,
            longest: self.longest,
            alignments: self.alignments,
            len: self.len,
        }
    }

    /// Returns the number of entries.
    #[inline(always)]
    #[tactic(auto, using(crate::proofs::Rows::length_of))]
    pub fn len(&self) -> usize
        ensures value { result ≡ length self.now }
        ensures fits { length self.now ≤ FANOUT }
    {
        self.len
    }

    /// Returns the entry at an index.
    #[inline(always)]
    #[tactic(auto, using(crate::proofs::Rows::length_of, crate::proofs::Rows::read))]
    pub fn entry(&self, i: usize) -> Entry
        requires { i < length self.now }
        ensures { result ≡ nth self.now i }
    {
        let _len = self.len;
        Entry {
            at: self.at[i],
            longest: self.longest[i],
            alignments: self.alignments[i],
        }
    }

    /// Writes the entry at an index.
    #[inline(always)]
    #[tactic(auto, using(crate::proofs::Rows::length_of, crate::proofs::Rows::written, crate::proofs::Rows::pad_set))]
    pub fn set_entry(&mut self, i: usize, entry: Entry)
        requires { i < length self.old }
        ensures { self.new ≡ set self.old i entry }
    {
        let _len = self.len;
        self.at[i] = entry.at;
        self.longest[i] = entry.longest;
        self.alignments[i] = entry.alignments;
    }

    /// Writes the first address of an entry.
    #[inline(always)]
    #[tactic(auto, using(crate::proofs::Rows::length_of, crate::proofs::Rows::begun, crate::proofs::Rows::pad_set))]
    pub(crate) fn set_at(&mut self, i: usize, at: u64)
        requires { i < length self.old }
        ensures { self.new ≡ set self.old i (beginning_at at (nth self.old i)) }
    {
        let _len = self.len;
        self.at[i] = at;
    }

    /// Inserts an entry.
    #[tactic(auto, using(crate::proofs::Rows::length_of, crate::proofs::Rows::inserted, crate::proofs::Rows::pad_kept))]
    pub fn insert(&mut self, i: usize, entry: Entry)
        requires within { i ≤ length self.old }
        requires room { length self.old < FANOUT }
        ensures { self.new ≡ insert self.old i entry }
    {
        let len = self.len;
        insert_in(&mut self.at, len, i, entry.at);
        insert_in(&mut self.longest, len, i, entry.longest);
        insert_in(&mut self.alignments, len, i, entry.alignments);
        self.len = len + 1;
    }

    /// Removes an entry.
    #[tactic(auto, using(crate::proofs::Rows::length_of, crate::proofs::Rows::taken_out))]
    pub fn remove(&mut self, i: usize)
        requires { i < length self.old }
        ensures { self.new ≡ remove self.old i }
    {
        let len = self.len;
        remove_in(&mut self.at, len, i, u64::MAX);
        remove_in(&mut self.longest, len, i, 0);
        remove_in(&mut self.alignments, len, i, 0);
        self.len = len - 1;
    }

    /// Appends the entries of another list.
    #[tactic(auto, using(crate::proofs::Rows::length_of, crate::proofs::Rows::appended, crate::proofs::Rows::pad_kept))]
    pub fn append(&mut self, other: &Entries)
        requires { length self.old + length other.now ≤ FANOUT }
        ensures { self.new ≡ self.old ++ other.now }
    {
        let (len, more) = (self.len, other.len);
        append_in(&mut self.at, len, &other.at, more);
        append_in(&mut self.longest, len, &other.longest, more);
        append_in(&mut self.alignments, len, &other.alignments, more);
        self.len = len + more;
    }

    /// Moves the entries from `at` on to a list that has none.
    #[tactic(auto, using(crate::proofs::Rows::length_of, crate::proofs::Rows::lower_rows, crate::proofs::Rows::upper_rows, crate::proofs::Rows::none_used))]
    pub fn split_off(&mut self, at: usize, upper: &mut Entries)
        requires within { at ≤ length self.old }
        requires upper { upper.old ≡ [] }
        ensures lower { self.new ≡ take at self.old }
        ensures upper { upper.new ≡ drop at self.old }
    {
        let len = self.len;
        let _none = upper.len;
        split_in(&mut self.at, len, at, &mut upper.at, u64::MAX);
        split_in(&mut self.longest, len, at, &mut upper.longest, 0);
        split_in(&mut self.alignments, len, at, &mut upper.alignments, 0);
        self.len = at;
        upper.len = len - at;
    }

    /// Returns the index of the last entry.
    #[tactic(auto, using(crate::proofs::Rows::length_of, crate::proofs::Rows::read))]
    fn last(&self) -> usize
        requires { 0 < length self.now }
        ensures last { result + 1 ≡ length self.now }
        ensures fits { (nth self.now result).at ≤ 18446744073709551615 }
    {
        let last = self.len - 1;
        let _at = self.entry(last).at;
        last
    }

    /// Returns the index of the last entry whose address is at most `address`, or 0.
    #[inline(always)]
    #[tactic(auto, using(crate::proofs::Rows::length_of, crate::proofs::Rows::read, crate::proofs::Rows::cut, crate::proofs::Rows::found_within, crate::proofs::Rows::found_from))]
    pub fn index_of(&self, address: u64) -> usize
        requires some { 0 < length self.now }
        requires order { Ascends self.now }
        ensures within { result < length self.now }
        ensures from { 0 < result → (nth self.now result).at ≤ address }
        ensures upto { result + 1 < length self.now → address < (nth self.now (result + 1)).at }
    {
        if address == u64::MAX {
            return self.last();
        }
        last_up_to(&self.at, address)
    }

    /// Returns the length of the longest gap.
    #[inline(always)]
    #[tactic(auto, using(crate::proofs::Rows::longest_all))]
    pub fn longest(&self) -> u64
        ensures { result ≡ longest_of self.now }
    {
        let _len = self.len;
        greatest_in(&self.longest)
    }

    /// Returns the most alignments.
    #[inline(always)]
    #[tactic(auto, using(crate::proofs::Rows::alignments_all))]
    pub fn alignments(&self) -> u32
        ensures { result ≡ alignments_of self.now }
    {
        let _len = self.len;
        most_in(&self.alignments)
    }

    /// Returns the entry of all of these together.
    #[tactic(auto, using(crate::proofs::Rows::sum_is))]
    pub fn sum(&self) -> Entry
        requires { 0 < length self.now }
        ensures { result ≡ sum_of self.now }
    {
        Entry {
            at: self.entry(0).at,
            longest: self.longest(),
            alignments: self.alignments(),
        }
    }
}
