//! The allocation of a range that starts at a given address, in its leaf.
ghost use Rattle.std.specs.Prelude.{◌≡◌, ◌≢◌, ◌+◌, ◌<◌, ◌≤◌, IfErr, IfSome, OnErr, None};
ghost use Rattle.vm_space.specs.Exact.{IsExactSearch, IsFullAt, RefusesExact, EditsExact};
ghost use Rattle.vm_space.specs.Allocation.{AllocatesExact, IsOutOfMemory};
ghost use Rattle.vm_space.specs.Placing.{IsStartIn, RefusesIn, FindsExactPlace};

use crate::place::{Place, has_room, refusal_of, take_place};
use crate::search::{Refusal, Search, Taken};
use std::alloc::{AllocError, Global};
use vm_leaf::{Block, Leaf, Rest};
use vm_ranges::{NodeState, RangeInclusive};
use vm_tree::{Change, Edit, Entry};

/// Returns the reason why the range of a search cannot be allocated in the block that contains its start.
/// Returns `None` if the range lies in a gap and in the window.
#[inline(always)]
#[tactic(auto, using(crate::proofs::Allocating::refusing))]
fn refusal_in(block: &Block, range: &RangeInclusive, search: &Search) -> Option<Refusal>
    requires { range.now.end + 1 ≡ range.now.start + search.now.size }
    ensures refuses { RefusesIn search.now range.now.start block.now result }
    ensures memory { IfSome result (λ refusal. ¬ IsOutOfMemory refusal) }
{
    let end = range.end();
    match block.state {
        NodeState::Allocated => {
            if block.key.start() != range.start() || block.key.end() != end {
                return Some(Refusal::NoPlace);
            }
            Some(Refusal::Held)
        }
        NodeState::Free => {
            if block.key.end() < end || search.high < end {
                return Some(Refusal::NoPlace);
            }
            None
        }
    }
}

/// Returns the place of the range of a search that starts at `start` in a leaf, or the reason why the range
/// cannot be allocated.
#[inline(always)]
#[tactic(auto, using(crate::proofs::Allocating::finding_exact))]
fn exact_place(leaf: &Leaf, start: u64, search: &Search) -> Result<Place, Refusal>
    requires sized { 0 < search.now.size }
    requires start { IsStartIn search.now start leaf.now }
    ensures place { FindsExactPlace search.now start leaf.now result }
    ensures memory { IfErr result (λ refusal. ¬ IsOutOfMemory refusal) }
{
    // Proof: `len` gives the facts of a leaf.
    let _len = leaf.len();
    let index = leaf.index_of(start);
    let block = leaf.block_at(index);
    let range = RangeInclusive::between(start, start + (search.size - 1));
    match refusal_in(&block, &range, search) {
        Some(refusal) => Err(refusal),
        None => Ok(Place::new(index, block.key, range)),
    }
}

/// Takes the spare leaf, or allocates one.
fn spare_leaf(
    spare: &mut Option<Box<Leaf>>,
    block: Block,
    alloc: Global,
) -> Result<Box<Leaf>, AllocError>
    ensures { OnErr result ((spare.old ≡ None) × (spare.new ≡ None)) }
{
    match spare.take() {
        Some(leaf) => Ok(leaf),
        None => Ok(Box::new(alloc, Leaf::single(block))?),
    }
}

/// The allocation of the range of a search that starts at `start`.
#[derive(Drop)]
pub(crate) struct Exact {
    pub(crate) start: u64,
    pub(crate) search: Search,
    /// What became of it.
    pub(crate) answer: Result<Taken, Refusal>,
    /// A leaf that is used, and not allocated, if the leaf is split.
    pub(crate) spare: Option<Box<Leaf>>,
    ghost valid: { IsExactSearch search start },
}

impl Edit<Leaf> for Exact {
    ghost refuses = { λ self bs edit. RefusesExact self.search self.start bs edit.answer };

    ghost edits = { λ self bs edit ls. EditsExact self.search self.start bs edit.answer ls };

    ghost can_change = { λ self bs. Unit };

    ghost can_split = { λ self bs. IsFullAt self.search self.start bs };

    ghost needs_memory = { λ self bs. IsFullAt self.search self.start bs };

    ghost lacks = { λ self bs. IsFullAt self.search self.start bs × (self.spare ≡ None) };

    #[inline(always)]
    fn change(&mut self, leaf: &mut Leaf, was: Entry) -> Change {
        // Proof: `len` gives the facts of a leaf.
        let _len = leaf.len();
        if self.start < leaf.start() || leaf.end() < self.start {
            return Change::Refused;
        }
        let place = match exact_place(leaf, self.start, &self.search) {
            Ok(place) => place,
            Err(refusal) => {
                self.answer = Err(refusal);
                return Change::Refused;
            }
        };
        if let Some(refusal) = refusal_of(&place, &self.search) {
            self.answer = Err(refusal);
            return Change::Refused;
        }
        if !has_room(leaf, place.rest) {
            return Change::Full;
        }
        let kept = take_place(leaf, &place, &was);
        self.answer = Ok(Taken {
            range: place.range,
            added: place.rest.added(),
        });
        if kept {
            return Change::Same;
        }
        Change::Changed
    }

    #[tactic(auto, using(crate::proofs::Taking::splitting))]
    #[inline(never)]
    fn split(&mut self, leaf: &mut Leaf, alloc: Global) -> Result<Box<Leaf>, AllocError> {
        // Proof: `len` gives the facts of a leaf.
        let _len = leaf.len();
        let index = leaf.index_of(self.start);
        let gap = leaf.key_at(index);
        let range = RangeInclusive::between(self.start, self.start + (self.search.size - 1));
        let rest = Rest::of(&gap, &range);
        let block = Block {
            key: range,
            state: NodeState::Allocated,
        };
        let mut upper = spare_leaf(&mut self.spare, block, alloc)?;
        let high: &mut Leaf = &mut upper;
        leaf.split_full(index, range, rest, high);
        self.answer = Ok(Taken {
            range,
            added: rest.added(),
        });
        Ok(upper)
    }
}
