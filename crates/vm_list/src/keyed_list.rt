//! A descending list of entries, in the leaves of a tree.
ghost use Rattle.std.specs.Prelude.{
  ◌≡◌,
  ◌<◌,
  ◌≤◌,
  [],
  length,
  None,
  IsSome,
  reverse,
  IfOk,
  IfErr,
  OnOk,
  OnErr,
  option_copied,
};
ghost use Rattle.vm_list.specs.Entries.{
  IsDescendingBy,
  below,
  with_entry,
  without,
  entry_at,
  at_or_above,
  highest_below,
  between,
};
ghost use Rattle.std.specs.List.{All};
ghost use Rattle.vm_list.specs.Leaves.{items_of, IsEnough};
ghost use Rattle.vm_tree.specs.Subtree.{AllOf};
ghost use Rattle.vm_list.specs.Puts.{CanLower};

mod runs;

use crate::Keyed;
use crate::chunk::Chunk;
use crate::iter::Iter;
use crate::leaf::{Lower, Put, TakeOut};
use std::alloc::{AllocError, AllocFailed, Global};
use std::fmt::{Debug, Formatter, Write};
use std::marker::Model;
use vm_tree::{LeafIter, Tree};

/// Entries in descending order of their keys.
///
/// Its model is the list of its entries.
#[derive(Drop)]
pub struct KeyedList<E: Keyed> {
    tree: Tree<Chunk<E>>,
}

impl<E: Keyed> Model for KeyedList<E> {
    ghost use Rattle.std.specs.Prelude.{List};
    ghost use Rattle.vm_list.specs.Entries.{IsDescendingBy};
    ghost use Rattle.vm_list.specs.Leaves.{items_of};

    ghost Value = { List E };

    ghost view = { λ l. items_of l.tree.leaves };

    ghost invariant = { λ l. IsDescendingBy E.key_of (items_of l.tree.leaves) };
}

/// Gives a tree without leaves one, which has no entry.
fn begin<E: Keyed>(tree: &mut Tree<Chunk<E>>, alloc: Global) -> Result<(), AllocError>
    ensures same { items_of tree.new.leaves ≡ items_of tree.old.leaves }
    ensures some { OnOk result (0 < length tree.new.leaves) }
{
    if tree.is_empty() {
        *tree = Tree::single(Box::new(alloc, Chunk::new(alloc))?);
    }
    Ok(())
}

/// Puts an entry, and returns the one that had its key. An error changes nothing and returns the entry.
fn put<E: Keyed>(
    tree: &mut Tree<Chunk<E>>,
    alloc: Global,
    entry: E,
) -> Result<Option<E>, AllocFailed<E>>
    requires some { 0 < length tree.old.leaves }
    requires order { IsDescendingBy E.key_of (items_of tree.old.leaves) }
    ensures put { OnOk result (items_of tree.new.leaves ≡ with_entry E.key_of entry (items_of tree.old.leaves)) }
    ensures old { IfOk result (λ old. old ≡ entry_at E.key_of (E.key_of entry) (items_of tree.old.leaves)) }
    ensures order { IsDescendingBy E.key_of (items_of tree.new.leaves) }
    ensures unchanged { OnErr result (tree.new ≡ tree.old) }
    ensures returned { IfErr result (λ e. e.value ≡ entry) }
{
    tree.facts();
    let key = entry.key();
    let mut put = Put {
        entry: Some(entry),
        old: None,
    };
    let done = tree.edit(key, &mut put, alloc, &mut 0);
    let Put { entry, old } = put;
    match done {
        Ok(true) => Ok(old),
        Ok(false) => unreachable!(),
        Err(_) => match entry {
            Some(value) => Err(AllocFailed { value }),
            None => unreachable!(),
        },
    }
}

/// Replaces the entry with this key by one with a lower key.
fn lower<E: Keyed>(tree: &mut Tree<Chunk<E>>, key: u64, entry: E)
    requires order { IsDescendingBy E.key_of (items_of tree.old.leaves) }
    requires can { CanLower E.key_of key entry (items_of tree.old.leaves) }
    ensures { items_of tree.new.leaves ≡ with_entry E.key_of entry (without E.key_of key (items_of tree.old.leaves)) }
{
    if tree.is_empty() {
        unreachable!()
    }
    tree.facts();
    let mut edit = Lower {
        key,
        entry: Some(entry),
    };
    if !tree.cut(key, &mut edit, &mut 0) {
        unreachable!()
    }
}

impl<E: Keyed> KeyedList<E> {
    /// Creates an empty list. It does not allocate.
    pub fn new() -> Self
        ensures { result ≡ [] }
    {
        KeyedList {
            tree: Tree::empty(),
        }
    }

    /// Returns the entry with this key, if there is one. It takes logarithmic time.
    pub fn get(&self, key: u64) -> Option<&E>
        ensures { option_copied result ≡ entry_at E.key_of key self.now }
    {
        self.tree.facts();
        match self.tree.leaf_from(key) {
            Some((leaf, _)) => leaf.get(key),
            None => None,
        }
    }

    /// Returns the entry with the lowest key that is at least this one, if there is one.
    pub fn at_or_above(&self, key: u64) -> Option<&E>
        ensures { option_copied result ≡ at_or_above E.key_of key self.now }
    {
        self.tree.facts();
        let Some((leaf, next)) = self.tree.leaf_from(key) else {
            return None;
        };
        match leaf.at_or_above(key) {
            Some(entry) => Some(entry),
            None => match next {
                Some(lowest) => self.get(lowest),
                None => None,
            },
        }
    }

    /// Returns the entry with the highest key below this one, if there is one.
    pub fn highest_below(&self, key: u64) -> Option<&E>
        ensures { option_copied result ≡ highest_below E.key_of key self.now }
    {
        if key == 0 {
            return None;
        }
        self.tree.facts();
        match self.tree.leaf_from(key - 1) {
            Some((leaf, _)) => leaf.highest_below(key),
            None => None,
        }
    }

    /// Puts an entry into the list, and returns the one that had its key. An error changes nothing and returns the
    /// entry.
    pub fn insert(&mut self, alloc: Global, entry: E) -> Result<Option<E>, AllocFailed<E>>
        ensures inserted { OnOk result (self.new ≡ with_entry E.key_of entry self.old) }
        ensures old { IfOk result (λ old. old ≡ entry_at E.key_of (E.key_of entry) self.old) }
        ensures unchanged { OnErr result (self.new ≡ self.old) }
        ensures returned { IfErr result (λ e. e.value ≡ entry) }
    {
        if begin(&mut self.tree, alloc).is_err() {
            return Err(AllocFailed { value: entry });
        }
        put(&mut self.tree, alloc, entry)
    }

    /// Removes the entry with this key, and returns it. It does not allocate.
    pub fn remove(&mut self, key: u64) -> Option<E>
        ensures entry { result ≡ entry_at E.key_of key self.old }
        ensures rest { self.new ≡ without E.key_of key self.old }
    {
        if self.tree.is_empty() {
            return None;
        }
        self.tree.facts();
        let mut edit = TakeOut { key, taken: None };
        if !self.tree.cut(key, &mut edit, &mut 0) {
            return None;
        }
        edit.taken
    }

    /// Replaces the entry with this key by one with a lower key, which is above the keys of the entries below. It does
    /// not allocate.
    pub fn lower_key(&mut self, key: u64, entry: E)
        requires known { IsSome (entry_at E.key_of key self.old) }
        requires lower { E.key_of entry ≤ key }
        requires apart { All (λ e. E.key_of e < E.key_of entry) (below E.key_of key self.old) }
        ensures { self.new ≡ with_entry E.key_of entry (without E.key_of key self.old) }
    {
        lower(&mut self.tree, key, entry);
    }

    /// Replaces the entry with the key of this one. It does not allocate.
    pub fn set(&mut self, entry: E)
        requires { IsSome (entry_at E.key_of (E.key_of entry) self.old) }
        ensures { self.new ≡ with_entry E.key_of entry self.old }
    {
        lower(&mut self.tree, entry.key(), entry);
    }

    /// Returns an iterator over the entries in ascending order of their keys. It does not allocate.
    pub fn iter(&self) -> Iter<'_, E>
        ensures entries { result ≡ reverse self.now }
        ensures order { IsDescendingBy E.key_of self.now }
    {
        self.tree.facts();
        iter_of(self.tree.leaves())
    }

    /// Returns an iterator over the entries with keys from `low` to `high`, in ascending order of their keys. It
    /// descends one path of the tree for each of these keys, and does not allocate.
    pub fn iter_between(&self, low: u64, high: u64) -> Iter<'_, E>
        ensures entries { result ≡ between E.key_of low high (reverse self.now) }
        ensures order { IsDescendingBy E.key_of self.now }
    {
        self.tree.facts();
        let mut leaves = self.tree.leaves_between(low, high);
        let Some(first) = leaves.next_leaf() else {
            return Iter::of_leaves(leaves);
        };
        let lowest = first.between(low, high);
        match leaves.last_leaf() {
            Some(last) => Iter::within(lowest, leaves, last.between(low, high)),
            None => Iter::within(lowest, leaves, &[]),
        }
    }
}

impl<E: Keyed + Copy> KeyedList<E> {
    /// Returns a copy. It allocates for each leaf and each node.
    pub fn try_clone(&self, alloc: Global) -> Result<Self, AllocError>
        ensures { IfOk result (λ copy. copy ≡ self.now) }
    {
        Ok(KeyedList {
            tree: self.tree.copy(alloc)?,
        })
    }
}

impl<E: Keyed + Debug> Debug for KeyedList<E> {
    fn fmt<W: Write>(&self, f: &mut Formatter<W>) -> std::fmt::Result {
        f.debug_list().entries(self.iter()).finish()
    }
}

/// Returns an iterator over the entries of leaves. A leaf that is alone may be empty.
fn iter_of<'a, E: Keyed>(leaves: LeafIter<'a, Chunk<E>>) -> Iter<'a, E>
    requires { 2 ≤ length leaves → AllOf IsEnough leaves }
    ensures { result ≡ reverse (items_of leaves.entry) }
{
    let mut rest = leaves;
    match rest.next_leaf() {
        Some(leaf) => Iter::after(leaf, rest),
        None => Iter::of_leaves(rest),
    }
}
