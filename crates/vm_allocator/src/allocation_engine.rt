//! Alignment of addresses, the states of blocks, and the tree of the blocks of a space.
ghost use Rattle.std.specs.Prelude.{◌≡◌, ◌↔◌, IsTrue, Some, OnErr, IfOk};
ghost use Rattle.std.proofs.Common.{rules};
ghost use Rattle.std.specs.Cmp.Rules.{comparing};
ghost use Rattle.std.specs.Ordering.{on, eq_by_cmp, as_partial_cmp};
ghost use Rattle.std.specs.declared.cmp.Ordering.TheVariants.{Equal};
ghost use Rattle.std.proofs.lemmas.Cmp.{on_total};
ghost use Rattle.vm_ranges.specs.Address.{IsAddressState};
ghost use Rattle.vm_addresses.specs.Allocator.{MakesTree, state_of};
ghost use Rattle.vm_ranges.specs.Answer.{Allocates, Frees};
ghost use Rattle.vm_addresses.specs.Comparison.{layout_cmp, layout_cmp-total, AreEqual};

use std::alloc::Global;
use std::cmp::Ordering;
use std::marker::Model;
use vm_addresses::{AddressAllocator, Constraint, RangeInclusive, Result};
pub use vm_ranges::{NodeState, align_down, align_up};

/// The tree of the blocks of a space: an address allocator under the calls of `vm-allocator`.
#[derive(Debug, Drop)]
pub struct IntervalTree {
    allocator: AddressAllocator,
}

impl Model for IntervalTree {
    ghost use Rattle.vm_space.specs.Shape.{Shape};
    ghost use Rattle.vm_space.specs.Shape.{shape_code};

    ghost Value = { Shape };

    ghost coded = { shape_code };

    ghost view = { λ t. t.allocator };
}

impl IntervalTree {
    /// Creates the tree of the space `key`. The whole space is free.
    ///
    /// # Errors
    ///
    /// - `OutOfMemory` if the allocation of the leaf fails.
    pub fn new(alloc: Global, key: RangeInclusive) -> Result<Self>
        ensures answer { MakesTree key result }
        ensures state { IfOk result (λ tree. IsAddressState (state_of tree)) }
    {
        Ok(IntervalTree {
            allocator: AddressAllocator::over(alloc, key)?,
        })
    }

    /// Allocates a range like [`AddressAllocator::allocate_constraint`], with the same errors.
    pub fn allocate(&mut self, alloc: Global, constraint: Constraint) -> Result<RangeInclusive>
        ensures answer { Allocates (state_of self.old) constraint result (state_of self.new) }
        ensures unchanged { OnErr result (self.new ≡ self.old) }
    {
        self.allocator.allocate_constraint(alloc, constraint)
    }

    /// Frees a range like [`AddressAllocator::free`], with the same error.
    pub fn free(&mut self, key: &RangeInclusive) -> Result<()>
        ensures answer { Frees (state_of self.old) key.now result (state_of self.new) }
        ensures unchanged { OnErr result (self.new ≡ self.old) }
    {
        self.allocator.free(key)
    }
}

impl PartialEq for IntervalTree {
    ghost eq = { eq_by_cmp (on state_of layout_cmp) };

    ghost laws = { Prim.search (comparing, layout_cmp-total, rules) };

    /// Returns `true` if both trees have the same blocks.
    fn eq(&self, other: &IntervalTree) -> bool
        ensures equal { IsTrue result ↔ AreEqual (state_of self.now) (state_of other.now) }
        ensures order { result ≡ eq_by_cmp layout_cmp (state_of self.now) (state_of other.now) }
    {
        self.cmp(other) == Ordering::Equal
    }
}

impl Eq for IntervalTree {
    ghost laws = { Prim.search (comparing, layout_cmp-total, rules) };
}

impl PartialOrd for IntervalTree {
    ghost partial_cmp = { as_partial_cmp (on state_of layout_cmp) };

    ghost laws = { Prim.search (comparing, layout_cmp-total, rules) };

    /// Compares like `cmp`.
    fn partial_cmp(&self, other: &IntervalTree) -> Option<Ordering>
        ensures { result ≡ Some (layout_cmp (state_of self.now) (state_of other.now)) }
    {
        Some(self.cmp(other))
    }
}

impl Ord for IntervalTree {
    ghost cmp = { on state_of layout_cmp };

    ghost total = { on_total state_of layout_cmp-total };

    ghost matches_partial_cmp = { Prim.search (comparing, rules) };

    ghost matches_eq = { Prim.search (comparing, rules) };

    /// Compares the first blocks that differ, by start, then by end, then by state. If the blocks
    /// of one tree are a prefix of the other's, the tree with fewer blocks is less.
    fn cmp(&self, other: &IntervalTree) -> Ordering
        ensures order { result ≡ layout_cmp (state_of self.now) (state_of other.now) }
        ensures equal { (result ≡ Equal) ↔ AreEqual (state_of self.now) (state_of other.now) }
    {
        self.allocator.cmp_blocks(&other.allocator)
    }
}
