//! The runs of ids of a list.
ghost use Rattle.std.specs.Prelude.{◌≡◌, ◌<◌, [], length, None, true, false, IfOk, OnErr};
ghost use Rattle.vm_list.specs.Leaves.{items_of};
ghost use Rattle.vm_list.specs.Entries.{IsDescendingBy, at_or_above};
ghost use Rattle.vm_list.specs.Runs.{AddsId, LacksId, IsAlone, TakesLowest, last_of, one_id};
ghost use Rattle.vm_list.specs.Puts.{IsAddedAlone, IsCrowdedAlone, IsPopped};

use super::KeyedList;
use crate::chunk::{Chunk, MAX_ENTRIES, may_join};
use crate::id_set::Run;
use std::alloc::{AllocError, Global};
use vm_tree::{Change, Cut, Cutting, Edit, Entry, Tree};

/// Takes the lowest id out of a leaf.
#[derive(Drop)]
struct Pop {
    taken: Option<u32>,
}

impl Cut<Chunk<Run>> for Pop {
    ghost refuses = { λ s c t. (t.taken ≡ None) × (c ≡ []) };

    ghost edits = { λ s c t cs. IsPopped t.taken c cs };

    ghost shrinks = { λ s. Unit {0} };

    fn cut(&mut self, leaf: &mut Chunk<Run>, _was: Entry) -> Cutting {
        let before = leaf.len();
        self.taken = leaf.pop();
        if self.taken.is_none() {
            return Cutting::Refused;
        }
        let len = leaf.len();
        if len < before && may_join(len) {
            return Cutting::Small(vm_tree::Leaf::entry(leaf));
        }
        Cutting::Changed(vm_tree::Leaf::entry(leaf))
    }
}

/// Adds an id that has a run above it in a leaf, and is next to none.
#[derive(Drop)]
struct AddAlone {
    id: u32,
}

impl AddAlone {
    /// Returns the run of the id.
    fn run(&self) -> Run
        ensures { result ≡ one_id self.now.id }
    {
        Run {
            first: self.id,
            last: self.id,
        }
    }
}

impl Edit<Chunk<Run>> for AddAlone {
    ghost refuses = { λ s c t. Unit {0} };

    ghost edits = { λ s c t cs. IsAddedAlone s.id c cs };

    ghost can_change = { λ s c. Unit {0} };

    ghost can_split = { λ s c. IsCrowdedAlone s.id c };

    ghost needs_memory = { λ s c. IsAlone s.id c };

    ghost lacks = { λ s c. Unit {0} };

    fn change(&mut self, leaf: &mut Chunk<Run>, _was: Entry) -> Change {
        let Some(at) = leaf.alone_at(self.id) else {
            return Change::Refused;
        };
        if leaf.len() >= MAX_ENTRIES {
            return Change::Full;
        }
        match leaf.insert_at(at, self.run()) {
            Ok(()) => Change::Changed,
            Err(_) => Change::OutOfMemory,
        }
    }

    fn split(
        &mut self,
        leaf: &mut Chunk<Run>,
        alloc: Global,
    ) -> Result<Box<Chunk<Run>>, AllocError> {
        match leaf.split(alloc, self.run()) {
            Ok(upper) => Ok(upper),
            Err(_) => Err(AllocError),
        }
    }
}

/// Adds an id that has a run above it in its leaf and is next to none, and returns true. Returns false, and changes
/// nothing, for any other id. An error changes nothing.
fn add_alone(tree: &mut Tree<Chunk<Run>>, alloc: Global, id: u32) -> Result<bool, AllocError>
    requires some { 0 < length tree.old.leaves }
    requires order { IsDescendingBy last_of (items_of tree.old.leaves) }
    ensures added { IfOk result (λ done. done ≡ true → AddsId id true (items_of tree.old.leaves) (items_of tree.new.leaves)) }
    ensures refused { IfOk result (λ done. done ≡ false → tree.new ≡ tree.old) }
    ensures lacks { OnErr result (LacksId id (at_or_above last_of id (items_of tree.old.leaves))) }
    ensures unchanged { OnErr result (tree.new ≡ tree.old) }
    ensures order { IsDescendingBy last_of (items_of tree.new.leaves) }
{
    tree.facts();
    let mut add = AddAlone { id };
    match tree.edit(id.into(), &mut add, alloc, &mut 0) {
        Ok(true) => Ok(true),
        Ok(false) => Ok(false),
        Err(error) => Err(error),
    }
}

impl KeyedList<Run> {
    /// Adds an id that has a run above it in its leaf and is next to none, and returns true. It descends once. Returns
    /// false, and changes nothing, for any other id. An error changes nothing.
    pub(crate) fn add_alone(&mut self, alloc: Global, id: u32) -> Result<bool, AllocError>
        ensures added { IfOk result (λ done. done ≡ true → AddsId id true self.old self.new) }
        ensures refused { IfOk result (λ done. done ≡ false → self.new ≡ self.old) }
        ensures lacks { OnErr result (LacksId id (at_or_above last_of id self.old)) }
        ensures unchanged { OnErr result (self.new ≡ self.old) }
    {
        if self.tree.is_empty() {
            return Ok(false);
        }
        add_alone(&mut self.tree, alloc, id)
    }

    /// Removes and returns the lowest id. It does not allocate.
    pub(crate) fn pop(&mut self) -> Option<u32>
        ensures { TakesLowest result self.old self.new }
    {
        if self.tree.is_empty() {
            return None;
        }
        self.tree.facts();
        let mut edit = Pop { taken: None };
        if !self.tree.cut(0, &mut edit, &mut 0) {
            return None;
        }
        edit.taken
    }
}
