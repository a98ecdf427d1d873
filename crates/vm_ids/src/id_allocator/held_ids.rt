//! All allocated ids, as an iterator from both ends.
ghost use Rattle.std.specs.Prelude.{◌≡◌, ◌-◌, length, take, drop};
ghost use Rattle.std.specs.Iterator.{YieldsFirst, YieldsLast, item_count};
ghost use Rattle.vm_ids.specs.Ids.{held_ids};

use super::IdAllocator;
use super::held_ids_in::HeldIdsIn;
use std::marker::Model;

/// An iterator over the allocated ids, from the lowest to the highest, or backwards. Its length is exact, and it does
/// not allocate.
///
/// Its model is the list of the ids that it has not returned yet.
#[derive(Clone, Drop)]
pub struct HeldIds<'a> {
    ids: HeldIdsIn<'a>,
    // The number of ids that were not returned.
    left: u64,
}

impl<'a> Model for HeldIds<'a> {
    ghost use Rattle.std.specs.Prelude.{◌≡◌, ℕ, List, length};

    ghost Value = { List ℕ };

    ghost view = { λ h. h.ids };

    ghost invariant = { λ h. h.left ≡ length h.ids };
}

impl<'a> HeldIds<'a> {
    /// Returns the number of ids that are left. It takes constant time.
    pub fn count_left(&self) -> u64
        ensures { result ≡ length self.now }
    {
        self.left
    }

    /// Passes the `count` lowest ids that are left, or all of them if fewer are left.
    ///
    /// It takes one step for each run of freed ids that it passes, however many ids are between them.
    pub fn advance_by(&mut self, count: u64)
        ensures { self.new ≡ drop count self.old }
    {
        self.ids.advance_by(count);
        self.left -= self.left.min(count);
    }

    /// Passes the `count` highest ids that are left, or all of them if fewer are left.
    ///
    /// It takes one step for each run of freed ids that it passes, however many ids are between them.
    pub fn advance_back_by(&mut self, count: u64)
        ensures { self.new ≡ take (length self.old - count) self.old }
    {
        self.ids.advance_back_by(count);
        self.left -= self.left.min(count);
    }
}

impl<'a> Iterator for HeldIds<'a> {
    type Item = u32;

    ghost next_gives = { YieldsFirst (λ h. h) };

    ghost remaining = { item_count (λ h. h) };

    /// Returns the lowest allocated id that is left.
    fn next(&mut self) -> Option<u32> {
        let id = self.ids.next()?;
        self.left -= 1;
        Some(id)
    }
}

impl<'a> DoubleEndedIterator for HeldIds<'a> {
    ghost next_back_gives = { YieldsLast (λ h. h) };

    /// Returns the highest allocated id that is left.
    fn next_back(&mut self) -> Option<u32> {
        let id = self.ids.next_back()?;
        self.left -= 1;
        Some(id)
    }
}

impl IdAllocator {
    /// Returns an iterator over the allocated ids, from the lowest to the highest.
    ///
    /// It passes a run of freed ids in one step, and does not allocate memory.
    pub fn held_ids(&self) -> HeldIds<'_>
        ensures { result ≡ held_ids self.now }
    {
        HeldIds {
            ids: self.held_ids_in(self.range_base, self.range_end),
            left: self.held_count(),
        }
    }
}
