//! The allocated ids from an id to an id, as an iterator from both ends.
//!
//! It walks over the ids that were allocated at some time, and passes the runs of freed ids. Each end
//! has its own iterator over the runs, so the ends share nothing but the bounds.
ghost use Rattle.std.specs.Prelude.{◌≡◌, ◌-◌, length, take, drop};
ghost use Rattle.std.specs.Iterator.{YieldsFirst, YieldsLast, item_count};
ghost use Rattle.vm_ids.specs.Checks.IdQueries.{held_end, held_start};
ghost use Rattle.vm_ids.specs.Ids.{held_ids_in};

use super::{IdAllocator, bound_of};
use std::marker::Model;
use vm_list::{Iter, Run};

/// An iterator over the allocated ids from an id to an id, or backwards. It does not allocate.
///
/// Its model is the list of the ids that it has not returned yet.
#[derive(Clone, Drop)]
pub struct HeldIdsIn<'a> {
    // The lowest id that was not visited, and the bound of those that were not visited.
    next: u64,
    bound: u64,
    // The lowest run of freed ids that was not passed, and the runs above it.
    next_freed: Option<Run>,
    freed_above: Iter<'a, Run>,
    // The highest run of freed ids that was not passed, and the runs below it.
    last_freed: Option<Run>,
    freed_below: Iter<'a, Run>,
}

impl<'a> Model for HeldIdsIn<'a> {
    ghost use Rattle.std.specs.Prelude.{ℕ, List};
    ghost use Rattle.vm_ids.specs.Checks.IdQueries.{freed_from, freed_to, ids_left, AreIdsLeft, AreFilled};

    ghost Value = { List ℕ };

    ghost view = { λ h. ids_left h.next h.bound (freed_from h.next_freed h.freed_above) };

    ghost invariant = { λ h.
        AreIdsLeft h.next h.bound (freed_from h.next_freed h.freed_above) (freed_to h.freed_below h.last_freed)
        × AreFilled h.next_freed h.freed_above × AreFilled h.last_freed h.freed_below };
}

impl<'a> HeldIdsIn<'a> {
    /// Passes the `count` lowest ids that are left, or all of them if fewer are left.
    ///
    /// It takes one step for each run of freed ids that it passes, however many ids are between them.
    #[tactic(auto, using(crate::proofs::Ids::HeldIds::walks))]
    pub fn advance_by(&mut self, count: u64)
        ensures { self.new ≡ drop count self.old }
    {
        let mut rest = count;
        while rest > 0 && self.next < self.bound {
            match self.next_freed {
                Some(run) if u64::from(run.first) <= self.next => {
                    self.next = u64::from(run.last) + 1;
                    self.next_freed = next_run(&mut self.freed_above);
                }
                _ => {
                    let step = rest.min(held_end(self.bound, self.next_freed) - self.next);
                    self.next += step;
                    rest -= step;
                }
            }
        }
    }

    /// Passes the `count` highest ids that are left, or all of them if fewer are left.
    ///
    /// It takes one step for each run of freed ids that it passes, however many ids are between them.
    #[tactic(auto, using(crate::proofs::Ids::HeldIds::walks))]
    pub fn advance_back_by(&mut self, count: u64)
        ensures { self.new ≡ take (length self.old - count) self.old }
    {
        let mut rest = count;
        while rest > 0 && self.next < self.bound {
            match self.last_freed {
                Some(run) if self.bound <= u64::from(run.last) + 1 => {
                    self.bound = run.first.into();
                    self.last_freed = last_run(&mut self.freed_below);
                }
                _ => {
                    let step = rest.min(self.bound - held_start(self.next, self.last_freed));
                    self.bound -= step;
                    rest -= step;
                }
            }
        }
    }
}

/// Takes the lowest run that is left.
pub(super) fn next_run(runs: &mut Iter<'_, Run>) -> Option<Run>
    ensures { YieldsFirst (λ r. r) runs.old result runs.new }
{
    runs.next().copied()
}

/// Takes the highest run that is left.
pub(super) fn last_run(runs: &mut Iter<'_, Run>) -> Option<Run>
    ensures { YieldsLast (λ r. r) runs.old result runs.new }
{
    runs.next_back().copied()
}

/// Returns where the allocated ids below the next run of freed ids end.
fn held_end(bound: u64, freed: Option<Run>) -> u64
    ensures { result ≡ held_end bound freed }
{
    match freed {
        Some(run) => bound.min(run.first.into()),
        None => bound,
    }
}

/// Returns where the allocated ids above the last run of freed ids start.
fn held_start(next: u64, freed: Option<Run>) -> u64
    ensures { result ≡ held_start next freed }
{
    match freed {
        Some(run) => next.max(u64::from(run.last) + 1),
        None => next,
    }
}

impl<'a> Iterator for HeldIdsIn<'a> {
    type Item = u32;

    ghost next_gives = { YieldsFirst (λ h. h) };

    ghost remaining = { item_count (λ h. h) };

    /// Returns the lowest allocated id that is left.
    #[tactic(auto, using(crate::proofs::Ids::HeldIds::walks))]
    fn next(&mut self) -> Option<u32> {
        while self.next < self.bound {
            match self.next_freed {
                Some(run) if u64::from(run.first) <= self.next => {
                    self.next = u64::from(run.last) + 1;
                    self.next_freed = next_run(&mut self.freed_above);
                }
                _ => {
                    let id = self.next as u32;
                    self.next += 1;
                    return Some(id);
                }
            }
        }
        None
    }
}

impl<'a> DoubleEndedIterator for HeldIdsIn<'a> {
    ghost next_back_gives = { YieldsLast (λ h. h) };

    /// Returns the highest allocated id that is left.
    #[tactic(auto, using(crate::proofs::Ids::HeldIds::walks))]
    fn next_back(&mut self) -> Option<u32> {
        while self.next < self.bound {
            match self.last_freed {
                Some(run) if self.bound <= u64::from(run.last) + 1 => {
                    self.bound = run.first.into();
                    self.last_freed = last_run(&mut self.freed_below);
                }
                _ => {
                    self.bound -= 1;
                    return Some(self.bound as u32);
                }
            }
        }
        None
    }
}

impl IdAllocator {
    /// Returns an iterator over the allocated ids from `first` to `last`, both included, from the lowest to the
    /// highest.
    ///
    /// It searches the freed ids once for each end, and passes a run of freed ids in one step. It does not allocate
    /// memory.
    pub fn held_ids_in(&self, first: u32, last: u32) -> HeldIdsIn<'_>
        ensures { result ≡ held_ids_in first last self.now }
    {
        let (next_freed, freed_above) = self.freed_ids.runs_from(first);
        let (freed_below, last_freed) = self.freed_ids.runs_to(last);
        let bound = bound_of(self.next_id, self.range_end);
        HeldIdsIn {
            next: self.range_base.max(first).into(),
            bound: bound.min(u64::from(last) + 1),
            next_freed,
            freed_above,
            last_freed,
            freed_below,
        }
    }
}
