//! The freed ids, as an iterator from both ends.
//!
//! It walks over the runs of the freed ids, and visits no other ids.
ghost use Rattle.std.specs.Prelude.{◌≡◌, ◌≤◌, [], ◌∷◌, ◌++◌, None, IfSome, option_to_list};
ghost use Rattle.std.specs.List.{All, flat_map};
ghost use Rattle.vm_list.specs.Runs.{ids_of_run};
ghost use Rattle.vm_ids.specs.Checks.IdQueries.{IsFilled, Begins, Ends, runs_left};
ghost use Rattle.std.specs.Iterator.{YieldsFirst, YieldsLast, item_count};
ghost use Rattle.vm_ids.specs.Ids.{freed_ids};

use super::IdAllocator;
use super::held_ids_in::{last_run, next_run};
use std::marker::Model;
use vm_list::{Iter, Run};

/// An iterator over the ids that were allocated and are free now, from the lowest to the highest, or
/// backwards. It does not allocate.
///
/// Its model is the list of the ids that it has not returned yet.
#[derive(Drop)]
pub struct FreedIds<'a> {
    // The rest of the run that was begun from below, the runs that were not begun, and the rest of the
    // run that was begun from above.
    first: Option<Run>,
    runs: Iter<'a, Run>,
    last: Option<Run>,
}

impl<'a> Model for FreedIds<'a> {
    ghost use Rattle.std.specs.Prelude.{ℕ, List};
    ghost use Rattle.std.specs.List.{All, flat_map};
    ghost use Rattle.vm_list.specs.Runs.{ids_of_run};
    ghost use Rattle.vm_ids.specs.Checks.IdQueries.{IsFilled, runs_left};

    ghost Value = { List ℕ };

    ghost view = { λ f. flat_map ids_of_run (runs_left f.first f.runs f.last) };

    ghost invariant = { λ f. All IsFilled (runs_left f.first f.runs f.last) };
}

impl<'a> Iterator for FreedIds<'a> {
    type Item = u32;

    ghost next_gives = { YieldsFirst (λ f. f) };

    ghost remaining = { item_count (λ f. f) };

    /// Returns the lowest freed id that is left.
    fn next(&mut self) -> Option<u32> {
        let run = take_first(self.first, &mut self.runs, &mut self.last)?;
        self.first = without_first(run);
        Some(run.first)
    }
}

impl<'a> DoubleEndedIterator for FreedIds<'a> {
    ghost next_back_gives = { YieldsLast (λ f. f) };

    /// Returns the highest freed id that is left.
    #[tactic(auto, using(crate::proofs::Ids::HeldIds::filled_to))]
    fn next_back(&mut self) -> Option<u32> {
        let run = take_last(&mut self.first, &mut self.runs, self.last)?;
        self.last = without_last(run);
        Some(run.last)
    }
}

/// Takes the first run that is left.
fn take_first(first: Option<Run>, runs: &mut Iter<'_, Run>, last: &mut Option<Run>) -> Option<Run>
    requires { All IsFilled (runs_left first runs.old last.old) }
    ensures { Begins (runs_left first runs.old last.old) result (runs_left None runs.new last.new) }
{
    match first {
        Some(run) => Some(run),
        None => match next_run(runs) {
            Some(run) => Some(run),
            None => last.take(),
        },
    }
}

/// Takes the last run that is left.
fn take_last(first: &mut Option<Run>, runs: &mut Iter<'_, Run>, last: Option<Run>) -> Option<Run>
    requires { All IsFilled (runs_left first.old runs.old last) }
    ensures { Ends (runs_left first.old runs.old last) result (runs_left first.new runs.new None) }
{
    match last {
        Some(run) => Some(run),
        None => match last_run(runs) {
            Some(run) => Some(run),
            None => first.take(),
        },
    }
}

/// Returns the run without its first id, or `None` if it has no other.
fn without_first(run: Run) -> Option<Run>
    requires { run.first ≤ run.last }
    ensures rest { ids_of_run run ≡ run.first ∷ flat_map ids_of_run (option_to_list result) }
    ensures filled { IfSome result IsFilled }
{
    if run.first < run.last {
        return Some(Run {
            first: run.first + 1,
            last: run.last,
        });
    }
    None
}

/// Returns the run without its last id, or `None` if it has no other.
fn without_last(run: Run) -> Option<Run>
    requires { run.first ≤ run.last }
    ensures rest { ids_of_run run ≡ flat_map ids_of_run (option_to_list result) ++ run.last ∷ [] }
    ensures filled { IfSome result IsFilled }
{
    if run.first < run.last {
        return Some(Run {
            first: run.first,
            last: run.last - 1,
        });
    }
    None
}

impl IdAllocator {
    /// Returns an iterator over the ids that were allocated and are free now, from the lowest to the
    /// highest.
    ///
    /// It visits only the freed ids, and does not allocate memory.
    #[tactic(auto, using(crate::proofs::Ids::FreedLists::lists))]
    pub fn freed_ids(&self) -> FreedIds<'_>
        ensures { result ≡ freed_ids self.now }
    {
        FreedIds {
            first: None,
            runs: self.freed_ids.runs(),
            last: None,
        }
    }
}
