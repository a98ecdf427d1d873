//! A leaf: entries in one vector.
ghost use Rattle.std.specs.Prelude.{
  ◌≡◌,
  ◌≤◌,
  ◌<◌,
  ◌++◌,
  ◌+◌,
  vec_capacity,
  [],
  length,
  take,
  drop,
  IfOk,
  None,
  true,
  false,
  OnOk,
  OnErr,
  IfErr,
  IfSome,
  IfNone,
  Some,
  option_copied,
};
ghost use Rattle.vm_list.specs.Entries.{IsDescendingBy, with_entry, without, entry_at, at_or_above, highest_below, between, IsFoundAt, IsMissingAt};
ghost use Rattle.vm_list.specs.Leaves.{lowest_key};
ghost use Rattle.vm_list.specs.Puts.{CanLower};

mod runs;

use crate::{Keyed, find, place, place_from};
use std::alloc::{AllocError, AllocFailed, Global};
use std::marker::Model;
use std::mem;

/// The number of entries from which on a leaf is split.
pub(crate) const MAX_ENTRIES: usize = 64;

/// The maximum number of entries of a leaf after a join.
const MAX_JOINED: usize = 48;

/// The number of entries below which a leaf is joined with one next to it, if both fit in one.
pub(crate) const MIN_ENTRIES: usize = 16;

/// The minimum number of entries of both parts of a leaf that is split.
const FEW_ENTRIES: usize = 4;

/// Returns true for a few numbers below `MIN_ENTRIES`. So a leaf whose lowest ids are taken one after the other seldom
/// tries to be joined.
pub(crate) fn may_join(len: usize) -> bool
    ensures { result ≡ false → 0 < len }
{
    matches!(len, 0 | 1 | 3 | 7 | 15)
}

/// Entries in descending order of their keys.
///
/// Its model is the list of its entries.
#[derive(Drop)]
pub struct Chunk<E: Keyed> {
    entries: Vec<E>,
}

impl<E: Keyed> Model for Chunk<E> {
    ghost use Rattle.std.specs.Prelude.{List};
    ghost use Rattle.vm_list.specs.Entries.{IsDescendingBy};

    ghost Value = { List E };

    ghost view = { λ c. c.entries.items };

    ghost invariant = { λ c. IsDescendingBy E.key_of c.entries.items };
}

/// Inserts an entry with a new key. An error changes nothing and returns the entry.
fn insert_in<E: Keyed>(entries: &mut Vec<E>, entry: E) -> Result<(), AllocFailed<E>>
    requires order { IsDescendingBy E.key_of entries.old.items }
    requires new { entry_at E.key_of (E.key_of entry) entries.old.items ≡ None }
    ensures inserted { OnOk result (entries.new.items ≡ with_entry E.key_of entry entries.old.items) }
    ensures longer { OnOk result (length entries.new.items ≡ length entries.old.items + 1) }
    ensures order { IsDescendingBy E.key_of entries.new.items }
    ensures unchanged { OnErr result (entries.new.items ≡ entries.old.items) }
    ensures returned { IfErr result (λ e. e.value ≡ entry) }
    ensures capacity { vec_capacity entries.old ≤ vec_capacity entries.new }
{
    let Err(at) = find(entries.as_slice(), entry.key()) else {
        unreachable!()
    };
    if let Err(failed) = entries.insert(at, entry) {
        return Err(failed);
    }
    Ok(())
}

/// Returns the number of entries that stay in the upper part if an entry with this key is put into a full leaf: half
/// of them, but few or almost all if keys come in order.
fn upper_for<E: Keyed>(entries: &[E], key: u64) -> usize
    requires order { IsDescendingBy E.key_of entries.now }
    requires full { MAX_ENTRIES ≤ length entries.now }
    ensures upper { FEW_ENTRIES ≤ result }
    ensures lower { result + FEW_ENTRIES ≤ length entries.now }
{
    let at = place(entries, key);
    if at == 0 {
        return FEW_ENTRIES;
    }
    if at == entries.len() {
        return entries.len() - FEW_ENTRIES;
    }
    entries.len() / 2
}

/// Returns the index of the entry with this key, if it may be replaced by an entry with a lower key.
fn lower_place<E: Keyed>(entries: &[E], key: u64, entry: &E) -> Option<usize>
    requires { IsDescendingBy E.key_of entries.now }
    ensures some { IfSome result (λ at. IsFoundAt E.key_of key at entries.now) }
    ensures can { IfSome result (λ _. CanLower E.key_of key entry.now entries.now) }
    ensures none { IfNone result (CanLower E.key_of key entry.now entries.now → ⊥) }
{
    let Ok(at) = find(entries, key) else {
        return None;
    };
    let new = entry.key();
    if new > key {
        return None;
    }
    if at + 1 >= entries.len() {
        return Some(at);
    }
    if entries[at + 1].key() >= new {
        return None;
    }
    Some(at)
}

/// Inserts an entry with a new key into one of two parts. An error changes nothing and returns the entry.
fn insert_part<E: Keyed>(
    upper: &mut Vec<E>,
    lower: &mut Vec<E>,
    entry: E,
) -> Result<(), AllocFailed<E>>
    requires order { IsDescendingBy E.key_of (upper.old.items ++ lower.old.items) }
    requires new { entry_at E.key_of (E.key_of entry) (upper.old.items ++ lower.old.items) ≡ None }
    requires some { 0 < length lower.old.items }
    ensures put { OnOk result (upper.new.items ++ lower.new.items ≡ with_entry E.key_of entry (upper.old.items ++ lower.old.items)) }
    ensures upper { length upper.old.items ≤ length upper.new.items }
    ensures lower { length lower.old.items ≤ length lower.new.items }
    ensures order { IsDescendingBy E.key_of upper.new.items × IsDescendingBy E.key_of lower.new.items }
    ensures unchanged { OnErr result ((upper.new.items ≡ upper.old.items) × (lower.new.items ≡ lower.old.items)) }
    ensures returned { IfErr result (λ e. e.value ≡ entry) }
    ensures capacity { vec_capacity upper.old ≤ vec_capacity upper.new }
{
    if lower[0].key() < entry.key() {
        insert_in(upper, entry)
    } else {
        insert_in(lower, entry)
    }
}

/// Inserts an entry with a new key into a full leaf, and moves the lower part to the vector that is returned. An error
/// changes nothing and returns the entry.
fn divide<E: Keyed>(entries: &mut Vec<E>, entry: E) -> Result<Vec<E>, AllocFailed<E>>
    requires order { IsDescendingBy E.key_of entries.old.items }
    requires new { entry_at E.key_of (E.key_of entry) entries.old.items ≡ None }
    requires full { MAX_ENTRIES ≤ length entries.old.items }
    ensures put { IfOk result (λ lower. entries.new.items ++ lower.items ≡ with_entry E.key_of entry entries.old.items) }
    ensures upper { OnOk result (FEW_ENTRIES ≤ length entries.new.items) }
    ensures lower { IfOk result (λ lower. FEW_ENTRIES ≤ length lower.items) }
    ensures order { IsDescendingBy E.key_of entries.new.items }
    ensures order_lower { IfOk result (λ lower. IsDescendingBy E.key_of lower.items) }
    ensures unchanged { OnErr result (entries.new.items ≡ entries.old.items) }
    ensures returned { IfErr result (λ e. e.value ≡ entry) }
{
    let at = upper_for(entries.as_slice(), entry.key());
    let Ok(mut lower) = entries.split_off(at) else {
        return Err(AllocFailed { value: entry });
    };
    if let Err(failed) = insert_part(entries, &mut lower, entry) {
        let Ok(()) = entries.append(&mut lower) else {
            unreachable!()
        };
        return Err(failed);
    }
    Ok(lower)
}

impl<E: Keyed> Chunk<E> {
    /// Creates an empty chunk. It does not allocate.
    pub fn new(alloc: Global) -> Self
        ensures { result ≡ [] }
    {
        Chunk {
            entries: Vec::new(alloc),
        }
    }

    /// Returns the number of entries.
    pub fn len(&self) -> usize
        ensures value { result ≡ length self.now }
    {
        self.entries.len()
    }

    /// Returns the entries.
    pub fn as_slice(&self) -> &[E]
        ensures value { result.now ≡ self.now }
    {
        self.entries.as_slice()
    }

    /// Returns the lowest key, or 0.
    pub fn lowest(&self) -> u64
        ensures { result ≡ lowest_key E.key_of self.now }
    {
        match self.entries.as_slice().split_last() {
            Some((entry, _)) => entry.key(),
            None => 0,
        }
    }

    /// Returns the entry with this key, if there is one.
    pub fn get(&self, key: u64) -> Option<&E>
        ensures { option_copied result ≡ entry_at E.key_of key self.now }
    {
        match find(self.entries.as_slice(), key) {
            Ok(at) => Some(&self.entries[at]),
            Err(_) => None,
        }
    }

    /// Returns the entry with the lowest key that is at least this one, if there is one.
    pub fn at_or_above(&self, key: u64) -> Option<&E>
        ensures { option_copied result ≡ at_or_above E.key_of key self.now }
    {
        let at = place_from(self.entries.as_slice(), key);
        if at == 0 {
            return None;
        }
        Some(&self.entries[at - 1])
    }

    /// Returns the entries with keys from `low` to `high`.
    pub fn between(&self, low: u64, high: u64) -> &[E]
        ensures { result.now ≡ between E.key_of low high self.now }
    {
        let entries = self.entries.as_slice();
        let end = place_from(entries, low);
        let start = place(entries, high).min(end);
        &entries[start..end]
    }

    /// Returns the entry with the highest key below this one, if there is one.
    pub fn highest_below(&self, key: u64) -> Option<&E>
        ensures { option_copied result ≡ highest_below E.key_of key self.now }
    {
        let at = place_from(self.entries.as_slice(), key);
        if at >= self.entries.len() {
            return None;
        }
        Some(&self.entries[at])
    }

    /// Returns the index of the entry with this key, or the index at which such an entry belongs.
    pub(crate) fn find(&self, key: u64) -> Result<usize, usize>
        ensures found { IfOk result (λ at. IsFoundAt E.key_of key at self.now) }
        ensures missing { IfErr result (λ at. IsMissingAt E.key_of key at self.now) }
    {
        find(self.entries.as_slice(), key)
    }

    /// Replaces the entry with the key of this one, which is at this index, and returns it.
    pub(crate) fn replace_at(&mut self, at: usize, entry: E) -> E
        requires { IsFoundAt E.key_of (E.key_of entry) at self.old }
        ensures old { entry_at E.key_of (E.key_of entry) self.old ≡ Some result }
        ensures replaced { self.new ≡ with_entry E.key_of entry self.old }
        ensures longer { length self.old ≤ length self.new }
    {
        mem::replace(&mut self.entries[at], entry)
    }

    /// Replaces the entry with this key by one with a lower key, and returns it. Returns the new entry if that would
    /// not be in order.
    pub(crate) fn lower(&mut self, key: u64, entry: E) -> Result<E, E>
        ensures lowered { IfOk result (λ old. (CanLower E.key_of key entry self.old) × (self.new ≡ with_entry E.key_of entry (without E.key_of key self.old))) }
        ensures refused { IfErr result (λ e. (e ≡ entry) × (self.new ≡ self.old) × (CanLower E.key_of key entry self.old → ⊥)) }
        ensures longer { length self.old ≤ length self.new }
    {
        match lower_place(self.entries.as_slice(), key, &entry) {
            Some(at) => Ok(mem::replace(&mut self.entries[at], entry)),
            None => Err(entry),
        }
    }

    /// Inserts an entry with a new key at the index at which it belongs. An error changes nothing and returns the entry.
    pub(crate) fn insert_at(&mut self, at: usize, entry: E) -> Result<(), AllocFailed<E>>
        requires { IsMissingAt E.key_of (E.key_of entry) at self.old }
        ensures inserted { OnOk result (self.new ≡ with_entry E.key_of entry self.old) }
        ensures unchanged { OnErr result (self.new ≡ self.old) }
        ensures returned { IfErr result (λ e. e.value ≡ entry) }
        ensures longer { length self.old ≤ length self.new }
    {
        if let Err(failed) = self.entries.insert(at, entry) {
            return Err(failed);
        }
        Ok(())
    }

    /// Inserts an entry with a new key, and moves the upper part to a new leaf. An error changes nothing and returns
    /// the entry.
    pub(crate) fn split(&mut self, alloc: Global, entry: E) -> Result<Box<Chunk<E>>, AllocFailed<E>>
        requires new { entry_at E.key_of (E.key_of entry) self.old ≡ None }
        requires full { MAX_ENTRIES ≤ length self.old }
        ensures put { IfOk result (λ upper. upper.value ++ self.new ≡ with_entry E.key_of entry self.old) }
        ensures upper { IfOk result (λ upper. FEW_ENTRIES ≤ length upper.value) }
        ensures lower { OnOk result (FEW_ENTRIES ≤ length self.new) }
        ensures unchanged { OnErr result (self.new ≡ self.old) }
        ensures returned { IfErr result (λ e. e.value ≡ entry) }
    {
        let Ok(mut upper) = Box::new(alloc, Chunk::new(alloc)) else {
            return Err(AllocFailed { value: entry });
        };
        match divide(&mut self.entries, entry) {
            Ok(lower) => {
                let chunk: &mut Chunk<E> = &mut upper;
                chunk.entries = mem::replace(&mut self.entries, lower);
                Ok(upper)
            }
            Err(failed) => Err(failed),
        }
    }

    /// Removes the entry with this key, and returns it. It does not allocate.
    pub fn remove(&mut self, key: u64) -> Option<E>
        ensures entry { result ≡ entry_at E.key_of key self.old }
        ensures rest { self.new ≡ without E.key_of key self.old }
        ensures same { IfNone result ((self.new ≡ self.old) × (entry_at E.key_of key self.old ≡ None)) }
    {
        match find(self.entries.as_slice(), key) {
            Ok(at) => Some(self.entries.remove(at)),
            Err(_) => None,
        }
    }

    /// Appends the entries of the next leaf if there is memory for all, and returns true. It does not allocate.
    pub(crate) fn join_next(&mut self, next: &mut Self) -> bool
        requires meets { IsDescendingBy E.key_of (next.old ++ self.old) }
        ensures one { result ≡ true → self.new ≡ next.old ++ self.old }
        ensures two { result ≡ false → (self.new ≡ self.old) × (next.new ≡ next.old) × (0 < length self.new) × (0 < length next.new) }
    {
        if self.entries.is_empty() {
            mem::swap(&mut self.entries, &mut next.entries);
            return true;
        }
        if next.entries.is_empty() {
            return true;
        }
        let capacity = next.entries.capacity().min(MAX_JOINED);
        if capacity.saturating_sub(next.entries.len()) < self.entries.len() {
            return false;
        }
        let Ok(()) = next.entries.append(&mut self.entries) else {
            unreachable!()
        };
        mem::swap(&mut self.entries, &mut next.entries);
        true
    }
}

impl<E: Keyed + Copy> Chunk<E> {
    /// Returns a copy. It allocates once.
    pub(crate) fn try_clone(&self, alloc: Global) -> Result<Self, AllocError>
        ensures { IfOk result (λ copy. copy ≡ self.now) }
    {
        let mut entries = Vec::with_capacity(alloc, self.entries.len())?;
        entries.extend_from_slice(self.entries.as_slice())?;
        Ok(Chunk { entries })
    }
}
