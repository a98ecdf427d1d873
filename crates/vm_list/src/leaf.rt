//! A list of entries as a leaf of a tree, and its changes.
ghost use Rattle.std.specs.Prelude.{◌≡◌, None};
ghost use Rattle.vm_list.specs.Leaves.{leaf_entry, IsEnough};
ghost use Rattle.vm_list.specs.Puts.{IsPut, IsCrowded, IsTaken, IsLowered, IsNotLowered, Meets, Joins};
ghost use Rattle.vm_list.specs.Entries.{entry_at};

use crate::Keyed;
use crate::chunk::{Chunk, MAX_ENTRIES, MIN_ENTRIES};
use std::alloc::{AllocError, Global};
use vm_tree::{Change, CopyLeaf, Cut, Cutting, Edit, Entry, Leaf};

impl<E: Keyed> Leaf for Chunk<E> {
    ghost entry = { leaf_entry E.key_of };

    ghost enough = { IsEnough };

    ghost meets = { Meets E.key_of };

    ghost joins = { Joins };

    fn entry(&self) -> Entry {
        Entry {
            at: self.lowest(),
            longest: 0,
            alignments: 0,
        }
    }

    fn join(&mut self, next: &mut Chunk<E>) -> bool {
        self.join_next(next)
    }
}

impl<E: Keyed + Copy> CopyLeaf for Chunk<E> {
    fn try_copy(&self, alloc: Global) -> Result<Box<Self>, AllocError> {
        Ok(Box::new(alloc, self.try_clone(alloc)?)?)
    }
}

/// Puts an entry into a leaf. An entry with the same key is replaced, and is `old` then.
#[derive(Drop)]
pub(crate) struct Put<E: Keyed> {
    pub(crate) entry: Option<E>,
    pub(crate) old: Option<E>,
}

impl<E: Keyed> Edit<Chunk<E>> for Put<E> {
    ghost refuses = { λ s c t. s.entry ≡ None };

    ghost edits = { λ s c t cs. IsPut E.key_of s.entry t.entry t.old c cs };

    ghost can_change = { λ s c. Unit {0} };

    ghost can_split = { λ s c. IsCrowded E.key_of s.entry c };

    ghost needs_memory = { λ s c. Unit {0} };

    ghost lacks = { λ s c. Unit {0} };

    fn change(&mut self, leaf: &mut Chunk<E>, _was: Entry) -> Change {
        let Some(entry) = self.entry.take() else {
            return Change::Refused;
        };
        match leaf.find(entry.key()) {
            Ok(at) => {
                self.old = Some(leaf.replace_at(at, entry));
                Change::Changed
            }
            Err(_) if leaf.len() >= MAX_ENTRIES => {
                self.entry = Some(entry);
                Change::Full
            }
            Err(at) => match leaf.insert_at(at, entry) {
                Ok(()) => {
                    self.old = None;
                    Change::Changed
                }
                Err(failed) => {
                    self.entry = Some(failed.value);
                    Change::OutOfMemory
                }
            },
        }
    }

    fn split(&mut self, leaf: &mut Chunk<E>, alloc: Global) -> Result<Box<Chunk<E>>, AllocError> {
        let Some(entry) = self.entry.take() else {
            unreachable!()
        };
        match leaf.split(alloc, entry) {
            Ok(upper) => {
                self.old = None;
                Ok(upper)
            }
            Err(failed) => {
                self.entry = Some(failed.value);
                Err(AllocError)
            }
        }
    }
}

/// Takes the entry with a key out of a leaf.
#[derive(Drop)]
pub(crate) struct TakeOut<E: Keyed> {
    pub(crate) key: u64,
    pub(crate) taken: Option<E>,
}

impl<E: Keyed> Cut<Chunk<E>> for TakeOut<E> {
    ghost refuses = { λ s c t. (t.taken ≡ None) × (entry_at E.key_of s.key c ≡ None) };

    ghost edits = { λ s c t cs. IsTaken E.key_of s.key t.taken c cs };

    ghost shrinks = { λ s. Unit {0} };

    fn cut(&mut self, leaf: &mut Chunk<E>, _was: Entry) -> Cutting {
        match leaf.remove(self.key) {
            Some(entry) => {
                self.taken = Some(entry);
                if leaf.len() < MIN_ENTRIES {
                    Cutting::Small(leaf.entry())
                } else {
                    Cutting::Changed(leaf.entry())
                }
            }
            None => {
                self.taken = None;
                Cutting::Refused
            }
        }
    }
}

/// Replaces the entry with a key by one with a lower key.
#[derive(Drop)]
pub(crate) struct Lower<E: Keyed> {
    pub(crate) key: u64,
    pub(crate) entry: Option<E>,
}

impl<E: Keyed> Cut<Chunk<E>> for Lower<E> {
    ghost refuses = { λ s c t. IsNotLowered E.key_of s.key s.entry c };

    ghost edits = { λ s c t cs. IsLowered E.key_of s.key s.entry c cs };

    ghost shrinks = { λ s. ⊥ };

    fn cut(&mut self, leaf: &mut Chunk<E>, _was: Entry) -> Cutting {
        let Some(entry) = self.entry.take() else {
            return Cutting::Refused;
        };
        match leaf.lower(self.key, entry) {
            Ok(_) => Cutting::Changed(leaf.entry()),
            Err(_) => Cutting::Refused,
        }
    }
}
