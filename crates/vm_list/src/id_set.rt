//! A set of ids as runs of consecutive ids.
ghost use Rattle.std.specs.Prelude.{
  ◌≡◌,
  ℕ,
  ◌+◌,
  ◌-◌,
  ◌<◌,
  ◌≤◌,
  ◌++◌,
  ◌∷◌,
  ◌↔◌,
  [],
  List,
  not,
  false,
  nat_le,
  length,
  option_to_list,
  IsTrue,
  IfOk,
  OnOk,
  OnErr,
  IfSome,
  IfNone,
  MatchOption,
};
ghost use Rattle.std.specs.Iterator.{YieldsFirst, YieldsLast};
ghost use Rattle.std.specs.List.{All, filter, flat_map, range_with_len};
ghost use Rattle.std.specs.Ordering.{nat_cmp};
ghost use Rattle.std.specs.BTreeSet.{IsEmpty, IsOrdered, contains};
ghost use Rattle.vm_list.specs.Entries.{at_or_above, highest_below, with_entry};
ghost use Rattle.vm_list.specs.Runs.{
  last_of,
  joined_run,
  HasId,
  LacksId,
  AddsId,
  RUNS_END,
  AreRuns,
  ids_of_run,
  ids_of_runs,
  Adds,
  Removes,
  IsLowestFrom,
  HasNoneFrom,
  IsInside,
  HasRun,
  Cuts,
  StartsAbove,
};

use crate::Keyed;
use crate::iter::Iter;
use crate::keyed_list::KeyedList;
use std::alloc::{AllocError, Global};
use std::marker::Model;

/// The ids from `first` to `last`, both included.
#[derive(Clone, Copy, Debug, PartialEq, Eq)]
pub struct Run {
    pub first: u32,
    pub last: u32,
}

impl Keyed for Run {
    ghost key_of = { λ r. r.last };

    fn key(&self) -> u64 {
        self.last.into()
    }
}

/// A set of ids. It keeps a run for all ids that follow each other.
///
/// Its model is that of a `BTreeSet`: the list of its ids in ascending order.
#[derive(Debug, Drop)]
pub struct IdSet {
    runs: KeyedList<Run>,
    // The number of ids.
    count: u64,
    alloc: Global,
}

impl Model for IdSet {
    ghost use Rattle.std.specs.Prelude.{ℕ, ◌≡◌, length};
    ghost use Rattle.std.specs.BTreeSet.{BTreeSet};
    ghost use Rattle.vm_list.specs.Runs.{RUNS_END, AreRuns, ids_of_runs};

    ghost Value = { BTreeSet ℕ };

    ghost view = { λ s. record { keys = ids_of_runs s.runs } };

    ghost invariant = { λ s. AreRuns RUNS_END s.runs × (s.count ≡ length (ids_of_runs s.runs)) };
}

impl IdSet {
    /// Creates an empty set. It does not allocate.
    pub fn new(alloc: Global) -> Self
        ensures { IsEmpty result }
    {
        IdSet {
            runs: KeyedList::new(),
            count: 0,
            alloc,
        }
    }

    /// Returns a copy.
    pub fn try_clone(&self) -> Result<Self, AllocError>
        ensures { IfOk result (λ copy. copy ≡ self.now) }
    {
        let runs = self.runs.try_clone(self.alloc)?;
        Ok(IdSet {
            runs,
            count: self.count,
            alloc: self.alloc,
        })
    }

    /// Returns the number of ids. It takes constant time.
    pub fn len(&self) -> u64
        ensures value { result ≡ length self.now.keys }
        ensures order { IsOrdered nat_cmp self.now }
    {
        self.count
    }

    /// Returns `true` if the set has the id.
    pub fn contains(&self, id: u32) -> bool
        ensures { result ≡ contains nat_cmp self.now id }
    {
        match run_from(&self.runs, id) {
            Some(run) => run.first <= id,
            None => false,
        }
    }

    /// Returns the lowest id of the set that is at least `first`, if there is one.
    pub fn first_from(&self, first: u32) -> Option<u32>
        ensures { MatchOption result (HasNoneFrom first self.now) (IsLowestFrom first self.now) }
    {
        let run = run_from(&self.runs, first)?;
        Some(run.first.max(first))
    }

    /// Returns an iterator over the runs, from the lowest to the highest, or backwards. It does not allocate.
    pub fn runs(&self) -> Iter<'_, Run>
        ensures ids { flat_map ids_of_run result ≡ self.now.keys }
        ensures order { IsOrdered nat_cmp self.now }
        ensures filled { All (λ run. run.first ≤ run.last) result }
    {
        self.runs.iter()
    }

    /// Returns the lowest run of the ids from `first` on, and an iterator over the other runs of these ids. It descends
    /// one path of the tree for each end, and does not allocate.
    pub fn runs_from(&self, first: u32) -> (Option<Run>, Iter<'_, Run>)
        ensures ids { flat_map ids_of_run (option_to_list result.0 ++ result.1) ≡ filter (λ i. nat_le first i) self.now.keys }
        ensures order { IsOrdered nat_cmp self.now }
        ensures none { IfNone result.0 (result.1 ≡ []) }
        ensures lowest { IfSome result.0 (λ run. run.first ≤ run.last) }
        ensures others { All (λ run. run.first ≤ run.last) result.1 }
    {
        let mut runs = self.runs.iter_between(first.into(), u64::MAX);
        match lowest_run(&mut runs) {
            Some(run) => {
                let cut = Run {
                    first: run.first.max(first),
                    last: run.last,
                };
                (Some(cut), runs)
            }
            None => (None, runs),
        }
    }

    /// Returns the highest run of the ids up to `last`, and an iterator over the other runs of these ids. It descends
    /// one path of the tree for each end, and does not allocate.
    pub fn runs_to(&self, last: u32) -> (Iter<'_, Run>, Option<Run>)
        ensures ids { flat_map ids_of_run (result.0 ++ option_to_list result.1) ≡ filter (λ i. nat_le i last) self.now.keys }
        ensures none { IfNone result.1 (result.0 ≡ []) }
        ensures highest { IfSome result.1 (λ run. run.first ≤ run.last) }
        ensures others { All (λ run. run.first ≤ run.last) result.0 }
    {
        let mut runs = self.runs.iter_between(0, last.into());
        match run_from(&self.runs, last) {
            Some(run) if run.first <= last && last < run.last => {
                let cut = Run {
                    first: run.first,
                    last,
                };
                (runs, Some(cut))
            }
            _ => {
                let highest = highest_run(&mut runs);
                (runs, highest)
            }
        }
    }

    /// Returns `true` if both sets have the same ids. It stops at the first difference, and does not allocate.
    pub fn equals(&self, other: &Self) -> bool
        ensures same { IsTrue result ↔ (self.now.keys ≡ other.now.keys) }
        ensures order { IsOrdered nat_cmp self.now × IsOrdered nat_cmp other.now }
    {
        self.count == other.count && same_runs(self.runs.iter(), other.runs.iter())
    }

    /// Adds an id, and returns `true`. Returns `false` if the set has it already. An error changes nothing.
    pub fn insert(&mut self, id: u32) -> Result<bool, AllocError>
        ensures added { OnOk result (Adds id self.old self.new) }
        ensures new { IfOk result (λ is_new. is_new ≡ not (contains nat_cmp self.old id)) }
        ensures same { IfOk result (λ is_new. is_new ≡ false → self.new ≡ self.old) }
        ensures unchanged { OnErr result (self.new ≡ self.old) }
        ensures memory { OnErr result (contains nat_cmp self.old id ≡ false) }
    {
        let is_new = add(&mut self.runs, self.alloc, id)?;
        self.count += u64::from(is_new);
        Ok(is_new)
    }

    /// Removes an id, and returns `true`. Returns `false` if the set does not have it. An error changes nothing.
    ///
    /// It allocates only if the set has the ids right below and right above.
    pub fn remove(&mut self, id: u32) -> Result<bool, AllocError>
        ensures removed { OnOk result (Removes id self.old self.new) }
        ensures had { IfOk result (λ had. had ≡ contains nat_cmp self.old id) }
        ensures same { IfOk result (λ had. had ≡ false → self.new ≡ self.old) }
        ensures unchanged { OnErr result (self.new ≡ self.old) }
        ensures memory { OnErr result (IsInside id self.old) }
    {
        let Some(run) = run_of(&self.runs, id) else {
            return Ok(false);
        };
        cut(&mut self.runs, self.alloc, id, run)?;
        self.count -= 1;
        Ok(true)
    }

    /// Removes and returns the lowest id. It does not allocate.
    #[inline(always)]
    pub fn pop_first(&mut self) -> Option<u32>
        ensures lowest { IfSome result (λ id. IsLowestFrom 0 self.old id × Removes id self.old self.new) }
        ensures none { IfNone result (IsEmpty self.old × (self.new ≡ self.old)) }
    {
        let id = self.runs.pop()?;
        self.count -= 1;
        Some(id)
    }

    /// Adds the ids from `first` to `last`, both included, which are above all ids of the set. An error changes nothing.
    pub fn add_above(&mut self, first: u32, last: u32) -> Result<(), AllocError>
        requires order { first ≤ last }
        requires above { (i : ℕ) → IsTrue (contains nat_cmp self.old i) → i < first }
        ensures added { OnOk result (self.new.keys ≡ self.old.keys ++ range_with_len first (last + 1 - first)) }
        ensures unchanged { OnErr result (self.new ≡ self.old) }
    {
        add_run(&mut self.runs, self.alloc, first, last)?;
        self.count += u64::from(last) + 1 - u64::from(first);
        Ok(())
    }
}

/// Takes the lowest run that is left.
fn lowest_run(runs: &mut Iter<'_, Run>) -> Option<Run>
    ensures { YieldsFirst (λ r. r) runs.old result runs.new }
{
    runs.next().copied()
}

/// Takes the highest run that is left.
fn highest_run(runs: &mut Iter<'_, Run>) -> Option<Run>
    ensures { YieldsLast (λ r. r) runs.old result runs.new }
{
    runs.next_back().copied()
}

/// Returns the lowest run that ends at an id or above it, if there is one.
fn run_from(runs: &KeyedList<Run>, id: u32) -> Option<Run>
    ensures { result ≡ at_or_above last_of id runs.now }
{
    runs.at_or_above(id.into()).copied()
}

/// Returns the highest run that ends below an id, if there is one.
fn run_below(runs: &KeyedList<Run>, id: u32) -> Option<Run>
    ensures { result ≡ highest_below last_of id runs.now }
{
    runs.highest_below(id.into()).copied()
}

/// Returns the highest run, if there is one. All runs are below an id.
fn highest(runs: &KeyedList<Run>, id: u32) -> Option<Run>
    requires { AreRuns (id + 1) runs.now }
    ensures { MatchOption result (runs.now ≡ []) (λ e. (others : List Run) × (runs.now ≡ e ∷ others)) }
{
    run_below(runs, id)
}

/// Puts a run, which replaces the one with the same last id. An error changes nothing.
fn insert_run(runs: &mut KeyedList<Run>, alloc: Global, run: Run) -> Result<(), AllocError>
    ensures inserted { OnOk result (runs.new ≡ with_entry last_of run runs.old) }
    ensures unchanged { OnErr result (runs.new ≡ runs.old) }
{
    runs.insert(alloc, run)?;
    Ok(())
}

/// Adds an id, and returns `true`. Returns `false` if a run has it already. An error changes nothing.
fn add(runs: &mut KeyedList<Run>, alloc: Global, id: u32) -> Result<bool, AllocError>
    requires { AreRuns RUNS_END runs.old }
    ensures added { IfOk result (λ is_new. AddsId id is_new runs.old runs.new) }
    ensures lacks { OnErr result (LacksId id (at_or_above last_of id runs.old)) }
    ensures unchanged { OnErr result (runs.new ≡ runs.old) }
{
    if runs.add_alone(alloc, id)? {
        return Ok(true);
    }
    add_beside(runs, alloc, id)
}

/// Adds an id that can be next to a run, as [`add`] does.
fn add_beside(runs: &mut KeyedList<Run>, alloc: Global, id: u32) -> Result<bool, AllocError>
    requires { AreRuns RUNS_END runs.old }
    ensures added { IfOk result (λ is_new. AddsId id is_new runs.old runs.new) }
    ensures lacks { OnErr result (LacksId id (at_or_above last_of id runs.old)) }
    ensures unchanged { OnErr result (runs.new ≡ runs.old) }
{
    let above = run_from(runs, id);
    let below = run_below(runs, id);
    let Some(run) = joined(above, below, id) else {
        return Ok(false);
    };
    insert_run(runs, alloc, run)?;
    if run.first < id {
        runs.remove(u64::from(id) - 1);
    }
    Ok(true)
}

/// Returns the run of an id and of the runs next to it. Returns `None` if the run above has the id.
fn joined(above: Option<Run>, below: Option<Run>, id: u32) -> Option<Run>
    requires { IfSome below (λ run. run.last < id) }
    ensures none { IfNone result (HasId id above) }
    ensures some { IfSome result (λ run. LacksId id above × (run ≡ joined_run id above below)) }
{
    let last = match above {
        Some(run) if run.first <= id => return None,
        Some(run) if run.first - 1 == id => run.last,
        _ => id,
    };
    let first = match below {
        Some(run) if run.last + 1 == id => run.first,
        _ => id,
    };
    Some(Run { first, last })
}

/// Returns `true` if both iterators return the same runs.
fn same_runs(mut a: Iter<'_, Run>, mut b: Iter<'_, Run>) -> bool
    ensures { IsTrue result ↔ (a.entry ≡ b.entry) }
{
    while let Some(x) = a.next() {
        let Some(y) = b.next() else {
            return false;
        };
        if *x != *y {
            return false;
        }
    }
    b.next().is_none()
}

/// Returns the run that has an id, if there is one.
fn run_of(runs: &KeyedList<Run>, id: u32) -> Option<Run>
    requires { AreRuns RUNS_END runs.now }
    ensures none { IfNone result (contains nat_cmp (record { keys = ids_of_runs runs.now }) id ≡ false) }
    ensures some { IfSome result (λ run. HasRun id runs.now run) }
{
    match run_from(runs, id) {
        Some(run) if run.first <= id => Some(run),
        _ => None,
    }
}

/// Takes an id out of the run that has it. An error changes nothing.
fn cut(runs: &mut KeyedList<Run>, alloc: Global, id: u32, run: Run) -> Result<(), AllocError>
    requires order { AreRuns RUNS_END runs.old }
    requires run { HasRun id runs.old run }
    ensures cut { OnOk result (Cuts id runs.old runs.new) }
    ensures unchanged { OnErr result (runs.new ≡ runs.old) }
    ensures memory { OnErr result (run.first < id × id < run.last) }
{
    if id == run.last {
        if run.first == id {
            runs.remove(id.into());
        } else {
            let lower = Run {
                first: run.first,
                last: id - 1,
            };
            runs.lower_key(id.into(), lower);
        }
        return Ok(());
    }
    if run.first < id {
        let lower = Run {
            first: run.first,
            last: id - 1,
        };
        insert_run(runs, alloc, lower)?;
    }
    runs.set(Run {
        first: id + 1,
        last: run.last,
    });
    Ok(())
}

/// Adds the ids from `first` to `last`, which are above all runs. An error changes nothing.
fn add_run(
    runs: &mut KeyedList<Run>,
    alloc: Global,
    first: u32,
    last: u32,
) -> Result<(), AllocError>
    requires order { first ≤ last }
    requires runs { AreRuns (first + 1) runs.old }
    ensures runs { OnOk result (AreRuns RUNS_END runs.new) }
    ensures ids { OnOk result (ids_of_runs runs.new ≡ ids_of_runs runs.old ++ range_with_len first (last + 1 - first)) }
    ensures unchanged { OnErr result (runs.new ≡ runs.old) }
{
    let start = start_above(runs, first);
    insert_run(runs, alloc, Run { first: start, last })?;
    if start < first {
        runs.remove(u64::from(first) - 1);
    }
    Ok(())
}

/// Returns the first id of the run that ends right below an id, which is above all runs. Returns the id if there is none.
fn start_above(runs: &KeyedList<Run>, id: u32) -> u32
    requires { AreRuns (id + 1) runs.now }
    ensures { StartsAbove id runs.now result }
{
    match highest(runs, id) {
        Some(run) if run.last.checked_add(1) == Some(id) => run.first,
        _ => id,
    }
}
