//! The runs of ids of a leaf.
ghost use Rattle.std.specs.Prelude.{◌≡◌, IfSome};
ghost use Rattle.vm_list.specs.Entries.{IsMissingAt};
ghost use Rattle.vm_list.specs.Runs.{IsAlone, TakesLowest, last_of};

use super::Chunk;
use crate::find;
use crate::id_set::Run;

impl Chunk<Run> {
    /// Removes and returns the lowest id. It does not allocate.
    pub(crate) fn pop(&mut self) -> Option<u32>
        ensures { TakesLowest result self.old self.new }
    {
        let at = self.entries.len().checked_sub(1)?;
        let Run { first, last } = self.entries[at];
        let has_more = first < last;
        self.entries[at] = Run {
            first: first + u32::from(has_more),
            last,
        };
        self.entries.truncate(at + usize::from(has_more));
        Some(first)
    }

    /// Returns the index at which the run of an id belongs, if a run is above it, and none is next to it.
    pub(crate) fn alone_at(&self, id: u32) -> Option<usize>
        ensures { IfSome result (λ at. IsAlone id self.now × IsMissingAt last_of id at self.now) }
    {
        let runs = self.entries.as_slice();
        let Err(at) = find(runs, id.into()) else {
            return None;
        };
        if at == 0 || u64::from(runs[at - 1].first) <= u64::from(id) + 1 {
            return None;
        }
        if at < runs.len() && u64::from(runs[at].last) + 1 >= u64::from(id) {
            return None;
        }
        Some(at)
    }
}
