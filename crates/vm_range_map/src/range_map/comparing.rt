//! Equality of maps.
ghost use Rattle.std.specs.Prelude.{◌≡◌};
ghost use Rattle.std.specs.Ordering.{on};
ghost use Rattle.std.specs.Cmp.{on_per, on_equiv};
ghost use Rattle.vm_range_map.specs.Trees.{map_state};
ghost use Rattle.vm_range_map.specs.Queries.{same_maps, same_maps-partial, same_maps-equivalence};

use super::RangeMap;

impl<T: PartialEq + Drop> PartialEq for RangeMap<T> {
    ghost eq = { on map_state (same_maps T.eq) };

    ghost laws = { on_per map_state (same_maps-partial T.laws) };

    /// Returns `true` if both maps have the same space and the same allocated ranges with equal values.
    ///
    /// It stops at the first difference and does not allocate.
    fn eq(&self, other: &RangeMap<T>) -> bool {
        self.addresses == other.addresses && self.iter().eq(other.iter())
    }
}

impl<T: Eq + Drop> Eq for RangeMap<T> {
    ghost laws = { on_equiv map_state (same_maps-equivalence T.Eq.laws) };
}
