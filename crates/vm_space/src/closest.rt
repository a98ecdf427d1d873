//! The allocation of the lowest or of the highest place, as a search of a tree.
ghost use Rattle.std.specs.Prelude.{◌≡◌, ◌≢◌, ◌+◌, ◌-◌, ◌≤◌, min, List, Err, OnErr};
ghost use Rattle.vm_ranges.specs.Range.{MAX};
ghost use Rattle.vm_tree.specs.Sought.{nodes};
ghost use Rattle.vm_space.specs.Allocation.{window_of, IsSearch, AllocatesFit, FindsFit};
ghost use Rattle.vm_space.specs.NodeCounts.{IsSearchCount};
ghost use Rattle.vm_space.specs.Shape.{blocks};
ghost use Rattle.vm_space.specs.Spaces.{AreSpace};
ghost use Rattle.vm_space.specs.Closest.{IsValid, seeking};
ghost use Rattle.vm_space.specs.Fitting.{RefusesClosest, EditsClosest, SplitsClosest, NeedsClosest, IsFitTree, answer_of};

use crate::fit::{Fitting, fit_in, fit_in_leaf, place_in, split_fit};
use crate::search::{Refusal, Search, Taken};
use std::alloc::{AllocError, Global};
use vm_leaf::Leaf;
use vm_ranges::RangeInclusive;
use vm_tree::{Change, End, Entry, Seek, Tree};

/// The allocation of the place of a search that is closest to an end.
#[derive(Drop)]
pub(crate) struct Closest {
    pub(crate) end: End,
    pub(crate) search: Search,
    /// What became of it.
    pub(crate) fitting: Fitting,
    ghost valid: { IsValid search },
}

impl Closest {
    /// Returns what became of the search.
    pub(crate) fn answer(&self) -> Result<Taken, Refusal>
        ensures { result ≡ answer_of self.now.fitting }
    {
        match self.fitting {
            Fitting::Taken(taken) => Ok(taken),
            Fitting::Refused(refusal) => Err(refusal),
            Fitting::Absent | Fitting::Full(_) => Err(Refusal::NoPlace),
        }
    }
}

impl Seek<Leaf> for Closest {
    ghost seeking = { λ self. seeking self.end self.search };

    ghost refuses = { λ self bs seek. RefusesClosest self.end self.search bs seek.fitting };

    ghost edits = { λ self bs seek ls. EditsClosest self.end self.search bs seek.fitting ls };

    ghost can_split = { λ self bs. SplitsClosest self.end self.search bs self.fitting };

    ghost needs_memory = { λ self bs. NeedsClosest self.end self.search bs };

    #[inline(always)]
    #[tactic(auto, using(crate::proofs::Seekings::lawful_valid))]
    fn end(&self) -> End {
        self.end
    }

    #[inline(always)]
    fn low(&self) -> u64 {
        self.search.low
    }

    #[inline(always)]
    fn high(&self) -> u64 {
        self.search.high
    }

    #[inline(always)]
    fn fits(&self, entry: &Entry) -> bool {
        self.search.size <= entry.longest
            && self.search.alignment.trailing_zeros() < entry.alignments
    }

    #[tactic(auto, using(crate::proofs::Seekings::is_search, crate::proofs::Looks::has_place))]
    #[inline(always)]
    fn has(&self, leaf: &Leaf) -> bool {
        fit_in(leaf, self.end, &self.search).is_some()
    }

    #[tactic(auto, using(crate::proofs::Seekings::is_search))]
    #[inline(always)]
    fn seek(&mut self, leaf: &mut Leaf, was: Entry) -> Option<Change> {
        let (fitting, kept) = fit_in_leaf(leaf, self.end, &self.search, &was);
        let change = match fitting {
            Fitting::Absent => return None,
            Fitting::Refused(_) => Change::Refused,
            Fitting::Full(_) => Change::Full,
            Fitting::Taken(_) if kept => Change::Same,
            Fitting::Taken(_) => Change::Changed,
        };
        self.fitting = fitting;
        Some(change)
    }

    #[inline(never)]
    fn split(&mut self, leaf: &mut Leaf, alloc: Global) -> Result<Box<Leaf>, AllocError> {
        let Fitting::Full(place) = self.fitting else {
            unreachable!()
        };
        let (upper, taken) = split_fit(leaf, self.end, &self.search, &place, alloc)?;
        self.fitting = Fitting::Taken(taken);
        Ok(upper)
    }
}

/// Returns the range of the place of a search that is closest to an end, in the tree of a space, or `None` if there is
/// no place.
#[tactic(auto, using(crate::proofs::Seekings::is_valid))]
pub(crate) fn look_in_space(tree: &Tree<Leaf>, end: End, search: &Search) -> Option<RangeInclusive>
    requires space { AreSpace tree.now.leaves }
    requires search { IsSearch search.now }
    ensures { FindsFit end search.now (blocks tree.now) result }
{
    if search.high < search.low {
        return None;
    }
    let closest = Closest {
        end,
        search: *search,
        fitting: Fitting::Absent,
    };
    let leaf = tree.look(&closest)?;
    let place = place_in(leaf, end, search)?;
    Some(place.range)
}

/// Allocates the place of a search that is closest to an end, in a tree.
#[tactic(auto, using(crate::proofs::Seekings::is_valid))]
fn fit_in_tree(
    tree: &mut Tree<Leaf>,
    end: End,
    search: &Search,
    alloc: Global,
    count: &mut u64,
) -> Result<Taken, Refusal>
    requires space { AreSpace tree.old.leaves }
    requires search { IsSearch search.now }
    ensures { IsFitTree end search.now tree.old tree.new count.old count.new result }
{
    if search.high < search.low {
        return Err(Refusal::NoPlace);
    }
    let mut closest = Closest {
        end,
        search: *search,
        fitting: Fitting::Absent,
    };
    match tree.seek(&mut closest, alloc, count)? {
        Some(_done) => closest.answer(),
        None => Err(Refusal::NoPlace),
    }
}

/// Allocates the place of a search that is closest to an end, in the tree of a space.
pub(crate) fn fit_in_space(
    tree: &mut Tree<Leaf>,
    end: End,
    search: &Search,
    alloc: Global,
    count: &mut u64,
) -> Result<Taken, Refusal>
    requires space { AreSpace tree.old.leaves }
    requires search { IsSearch search.now }
    ensures answer { AllocatesFit end search.now (blocks tree.old) (blocks tree.new) result }
    ensures space { AreSpace tree.new.leaves }
    ensures unchanged { OnErr result (tree.new ≡ tree.old) }
    ensures height { (tree.old.height ≤ tree.new.height) × (tree.new.height ≤ tree.old.height + 1) }
    ensures count { IsSearchCount (window_of search.now) search.now.size search.now.alignment tree.old.height (nodes tree.old) (blocks tree.old) (count.new - count.old) }
    ensures path { result ≢ Err Refusal.NoPlace → min (count.old + tree.old.height) MAX ≤ count.new }
{
    fit_in_tree(tree, end, search, alloc, count)
}
