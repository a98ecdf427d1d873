//! Closed ranges of addresses, in the order of their starts, then of their ends.
ghost use Rattle.std.specs.Prelude.{◌≡◌, ◌↔◌, IsTrue};
ghost use Rattle.std.proofs.Common.{rules};
ghost use Rattle.std.specs.Cmp.{partial_order_from_own_ties};
ghost use Rattle.std.specs.Cmp.Rules.{comparing};
ghost use Rattle.std.specs.Ordering.{as_partial_cmp};
ghost use Rattle.vm_ranges.specs.Making.{MakesRange, MakesSpan, IsOffset};
ghost use Rattle.vm_ranges.specs.Range.{IsRange, address_count, Overlaps, Covers};
ghost use Rattle.vm_ranges.specs.RangeOrder.{range_cmp};

use crate::error::{Error, Result};
use std::cmp::Ordering;
use std::marker::Model;

/// A closed range of addresses: its start, its end and all addresses between them.
///
/// A range is never empty and never contains all 2^64 addresses, so its length fits into a `u64`.
/// Ranges are ordered by start, then by end.
#[derive(Clone, Copy, Debug, PartialEq, Eq, Hash)]
pub struct RangeInclusive {
    start: u64,
    end: u64,
}

impl Model for RangeInclusive {
    ghost use Rattle.vm_ranges.specs.Range.{Range, IsRange, range_code};

    ghost Value = { Range };

    ghost coded = { range_code };

    ghost view = { λ a. record { start = a.start; end = a.end } };

    ghost invariant = { λ a. IsRange a.start a.end };

    ghost inverse = { λ d. record { start = d.start; end = d.end } };
}

impl RangeInclusive {
    /// Creates the range from `start` to `end`, both included.
    ///
    /// # Errors
    ///
    /// - `InvalidRange(start, end)` if `start` is past `end`, or if the range would contain all
    ///   2^64 addresses.
    pub const fn new(start: u64, end: u64) -> Result<Self>
        ensures { MakesRange start end result }
    {
        if start > end || (start == 0 && end == u64::MAX) {
            return Err(Error::InvalidRange(start, end));
        }
        Ok(RangeInclusive { start, end })
    }

    /// Returns the range from `start` to `end`, which must be the ends of a range.
    #[inline(always)]
    pub const fn between(start: u64, end: u64) -> Self
        requires { IsRange start end }
        ensures { result ≡ record { start = start; end = end } }
    {
        RangeInclusive { start, end }
    }

    /// Creates the range of the `len` addresses that start at `start`, such as a BAR by its base and
    /// its size.
    ///
    /// # Errors
    ///
    /// In this order:
    /// - `InvalidSize(0)` if `len` is 0.
    /// - `Overflow` if the last address would be past `u64::MAX`.
    pub const fn from_start_len(start: u64, len: u64) -> Result<Self>
        ensures { MakesSpan start len result }
    {
        if len == 0 {
            return Err(Error::InvalidSize(0));
        }
        match start.checked_add(len - 1) {
            None => Err(Error::Overflow),
            Some(end) => Ok(RangeInclusive { start, end }),
        }
    }

    /// Returns the offset of an address in the range: the number of addresses below it. Returns `None`
    /// if the address is not in the range.
    pub const fn offset_of(&self, address: u64) -> Option<u64>
        ensures { IsOffset self.now address result }
    {
        if address < self.start || self.end < address {
            return None;
        }
        Some(address - self.start)
    }

    /// Returns the number of addresses in the range.
    #[allow(clippy::len_without_is_empty)]
    pub const fn len(&self) -> u64
        ensures { result ≡ address_count self.now }
    {
        1 + (self.end - self.start)
    }

    /// Returns `true` if an address is in both ranges.
    #[tactic(auto, using(crate::proofs::RangeCalls::overlappings))]
    pub const fn overlaps(&self, other: &RangeInclusive) -> bool
        ensures { IsTrue result ↔ Overlaps self.now other.now }
    {
        other.start <= self.end && self.start <= other.end
    }

    /// Returns `true` if every address of `other` is in this range.
    #[tactic(auto, using(crate::proofs::RangeCalls::coverings))]
    pub const fn contains(&self, other: &RangeInclusive) -> bool
        ensures { IsTrue result ↔ Covers self.now other.now }
    {
        other.start >= self.start && other.end <= self.end
    }

    /// Returns the first address.
    pub const fn start(&self) -> u64
        ensures value { result ≡ self.now.start }
        ensures range { IsRange self.now.start self.now.end }
    {
        self.start
    }

    /// Returns the last address.
    pub const fn end(&self) -> u64
        ensures value { result ≡ self.now.end }
        ensures range { IsRange self.now.start self.now.end }
    {
        self.end
    }
}

impl Ord for RangeInclusive {
    ghost cmp = { range_cmp };

    ghost total = { Prim.search (comparing, rules) };

    ghost matches_partial_cmp = { Prim.search (comparing, rules) };

    ghost matches_eq = { Prim.search (comparing, rules) };

    /// Compares by start, then by end. It stops at the first difference.
    #[tactic(auto, using(crate::proofs::RangeOrders::by_order, crate::proofs::RangeCalls::orders))]
    fn cmp(&self, other: &RangeInclusive) -> Ordering {
        if self.start < other.start {
            return Ordering::Less;
        }
        if other.start < self.start {
            return Ordering::Greater;
        }
        Ord::cmp(&self.end, &other.end)
    }
}

impl PartialOrd for RangeInclusive {
    ghost partial_cmp = { as_partial_cmp range_cmp };

    ghost laws = { partial_order_from_own_ties (Prim.search (comparing, rules)) (Prim.search (comparing, rules)) };

    /// Compares like `cmp`.
    fn partial_cmp(&self, other: &RangeInclusive) -> Option<Ordering> {
        Some(self.cmp(other))
    }
}
