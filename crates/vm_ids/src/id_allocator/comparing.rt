//! Equality of id allocators.
ghost use Rattle.std.specs.Prelude.{◌≡◌, ◌↔◌, IsTrue};
ghost use Rattle.std.specs.BTreeSet.{IsOrdered};
ghost use Rattle.std.proofs.Common.{rules};
ghost use Rattle.std.specs.Cmp.Rules.{comparing};
ghost use Rattle.std.specs.Ordering.{eq_by_cmp, nat_cmp};
ghost use Rattle.vm_ids.specs.Checks.IdQueries.{HaveSameBounds};
ghost use Rattle.vm_ids.specs.IdOrder.{id_state_cmp, id_state_cmp-total};

use super::IdAllocator;

impl PartialEq for IdAllocator {
    ghost eq = { eq_by_cmp id_state_cmp };

    ghost laws = { Prim.search (comparing, id_state_cmp-total, rules) };

    /// Returns `true` if both allocators have the same range, the same allocated ids and the same ids
    /// that were allocated at some time.
    ///
    /// It stops at the first difference and does not allocate memory.
    fn eq(&self, other: &IdAllocator) -> bool
        ensures equal { IsTrue result ↔ (self.now ≡ other.now) }
        ensures order { result ≡ eq_by_cmp id_state_cmp self.now other.now }
    {
        self.has_bounds_of(other) && self.freed_ids.equals(&other.freed_ids)
    }
}

impl Eq for IdAllocator {
    ghost laws = { Prim.search (comparing, id_state_cmp-total, rules) };
}

impl IdAllocator {
    /// Returns `true` if both allocators have the same range and the same ids that were allocated at
    /// some time.
    #[tactic(auto, using(crate::proofs::Ids::ComparedIds::same_next), unfolding(crate::specs::Ids::ids_of))]
    fn has_bounds_of(&self, other: &IdAllocator) -> bool
        ensures { IsTrue result ↔ HaveSameBounds self.now other.now }
    {
        self.range_base == other.range_base
            && self.range_end == other.range_end
            && self.next_id == other.next_id
    }
}
