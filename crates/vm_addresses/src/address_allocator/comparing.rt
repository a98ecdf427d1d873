//! Equality and order of allocators.
//!
//! Both compare states, so the shapes of the trees do not matter.
ghost use Rattle.std.specs.Prelude.{◌≡◌, ◌↔◌, IsTrue, Some};
ghost use Rattle.std.proofs.Common.{rules};
ghost use Rattle.std.specs.Cmp.Rules.{comparing};
ghost use Rattle.std.specs.Ordering.{on, eq_by_cmp, as_partial_cmp};
ghost use Rattle.std.specs.declared.cmp.Ordering.TheVariants.{Equal};
ghost use Rattle.std.proofs.lemmas.Cmp.{on_total};
ghost use Rattle.vm_addresses.specs.Allocator.{state_of};
ghost use Rattle.vm_addresses.specs.Comparison.{blocks_cmp, layout_cmp, state_cmp, state_cmp-total, AreEqual};

use super::AddressAllocator;
use std::cmp::Ordering;
use vm_space::Walk;

impl PartialEq for AddressAllocator {
    ghost eq = { eq_by_cmp (on state_of state_cmp) };

    ghost laws = { Prim.search (comparing, state_cmp-total, rules) };

    /// Returns `true` if both allocators have the same space and the same allocated ranges.
    ///
    /// It stops at the first difference and does not allocate.
    #[tactic(auto, using(crate::proofs::Comparing::StateOrders::allocators_compared))]
    fn eq(&self, other: &AddressAllocator) -> bool
        ensures equal { IsTrue result ↔ AreEqual (state_of self.now) (state_of other.now) }
        ensures order { result ≡ eq_by_cmp state_cmp (state_of self.now) (state_of other.now) }
    {
        self.cmp(other) == Ordering::Equal
    }
}

impl Eq for AddressAllocator {
    ghost laws = { Prim.search (comparing, state_cmp-total, rules) };
}

impl PartialOrd for AddressAllocator {
    ghost partial_cmp = { as_partial_cmp (on state_of state_cmp) };

    ghost laws = { Prim.search (comparing, state_cmp-total, rules) };

    /// Compares like `cmp`.
    fn partial_cmp(&self, other: &AddressAllocator) -> Option<Ordering>
        ensures { result ≡ Some (state_cmp (state_of self.now) (state_of other.now)) }
    {
        Some(self.cmp(other))
    }
}

impl Ord for AddressAllocator {
    ghost cmp = { on state_of state_cmp };

    ghost total = { on_total state_of state_cmp-total };

    ghost matches_partial_cmp = { Prim.search (comparing, rules) };

    ghost matches_eq = { Prim.search (comparing, rules) };

    /// Compares the spaces, then the first blocks that differ.
    ///
    /// Blocks are compared by start, then by end, then by state, where `Free` is less than
    /// `Allocated`. If the blocks of one allocator are a prefix of the blocks of the other, it is
    /// less. It stops at the first difference and does not allocate.
    #[tactic(auto, using(crate::proofs::Comparing::StateOrders::allocators_compared))]
    fn cmp(&self, other: &AddressAllocator) -> Ordering
        ensures order { result ≡ state_cmp (state_of self.now) (state_of other.now) }
        ensures equal { (result ≡ Equal) ↔ AreEqual (state_of self.now) (state_of other.now) }
    {
        match self.space.cmp(&other.space) {
            Ordering::Equal => self.cmp_blocks(other),
            unequal => unequal,
        }
    }
}

impl AddressAllocator {
    /// Compares the first blocks that differ, by start, then by end, then by state. If the blocks of one
    /// allocator are a prefix of the blocks of the other, it is less.
    #[tactic(auto, using(crate::proofs::Comparing::StateOrders::blocks_compared))]
    pub fn cmp_blocks(&self, other: &AddressAllocator) -> Ordering
        ensures order { result ≡ layout_cmp (state_of self.now) (state_of other.now) }
        ensures equal { (result ≡ Equal) ↔ AreEqual (state_of self.now) (state_of other.now) }
    {
        compare_blocks(self.walk(), other.walk())
    }
}

/// Compares two walks by the first blocks that differ. If the blocks of one walk are a prefix of the
/// other's, the walk with fewer blocks is less.
fn compare_blocks(left: Walk<'_>, right: Walk<'_>) -> Ordering
    ensures { result ≡ blocks_cmp left.entry right.entry }
{
    left.cmp(right)
}
