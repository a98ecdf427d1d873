//! Lists of entries in descending order of their keys, in leaves of at most 64 entries, and sets of ids.
//!
//! The leaves are those of a B+ tree (`vm_tree`). A call descends to the leaf of a key, and then finds the entry in
//! the leaf, so it takes logarithmic time. An insertion into a full leaf splits it: in half, or so that the leaf stays
//! nearly full if keys come in order. A leaf that has fewer than 16 entries after a removal is joined with one next to
//! it if both fit in one. If the lowest id was removed, that is tried only at a few of these numbers. The lowest entry
//! is at the end of its leaf, so removing it moves nothing.
//!
//! # How a list is stated
//!
//! - The value of [`KeyedList`] is the list of its entries. A type has a key if it is [`Keyed`], and `key_of` is its
//!   key. Entries can be of any type.
//! - `with_entry`, `without`, `entry_at`, `at_or_above` and `highest_below` (`Entries`) are about such a list, and
//!   name no leaf.
//! - An [`IdSet`] is a set of ids. It keeps a [`Run`] for all ids that follow each other, so its value is that of a
//!   set, and its runs are hidden (`Runs`).
//! - Only private functions cite `Leaves` and `Puts` of `specs`. `items_of` has the entries of all leaves, and
//!   `IsMid` is all that a list knows of its tree: the entries before the leaf of a key have higher keys, and those
//!   after it have lower keys.
//!
//! # What is proved
//!
//! - The exact result of each call, and the list after it. Keys are different and descend.
//! - An error changes nothing, and only `insert` and `try_clone` of a list have one. `insert` returns the entry then.
//! - An iterator returns each entry once, in order, from both ends.
//! - The number of ids of a set, which is stored.
//! - The list after a call is the map with the changed key (`EntriesAreByKey`).
//! - A set has the ids that were added and not removed since (`Adds`, `Removes`), also if they are added as a run.
//!   Removing an id allocates only if the ids next to it are in the set.
//!
//! # What is only tested
//!
//! - How long a call takes, and how much memory the leaves take.
#![tactic(auto)]

ghost use Rattle.std.specs.Prelude.{◌≡◌, ℕ, IfOk, IfErr};
ghost use Rattle.vm_list.specs.EntryLaws.{EntriesAreByKey};
ghost use Rattle.vm_list.specs.Entries.{IsDescendingBy, IsPlace, IsPlaceFrom, IsFoundAt, IsMissingAt};

mod chunk;
mod id_set;
mod iter;
mod keyed_list;
mod leaf;

pub use id_set::{IdSet, Run};
pub use iter::Iter;
pub use keyed_list::KeyedList;

/// An entry with a key.
pub trait Keyed: Drop {
    ghost key_of: { Self → ℕ };

    /// Returns the key of the entry.
    fn key(&self) -> u64
        ensures { result ≡ key_of self.now };
}

/// Returns the number of entries with keys above this one.
fn place<E: Keyed>(entries: &[E], key: u64) -> usize
    requires { IsDescendingBy E.key_of entries.now }
    ensures { IsPlace E.key_of key result entries.now }
{
    entries.partition_point(|entry| entry.key() > key)
}

/// Returns the number of entries whose keys are at least this one.
fn place_from<E: Keyed>(entries: &[E], key: u64) -> usize
    requires { IsDescendingBy E.key_of entries.now }
    ensures { IsPlaceFrom E.key_of key result entries.now }
{
    entries.partition_point(|entry| entry.key() >= key)
}

/// Returns the index of the entry with this key, or the index at which such an entry belongs.
fn find<E: Keyed>(entries: &[E], key: u64) -> Result<usize, usize>
    requires { IsDescendingBy E.key_of entries.now }
    ensures found { IfOk result (λ at. IsFoundAt E.key_of key at entries.now) }
    ensures missing { IfErr result (λ at. IsMissingAt E.key_of key at entries.now) }
{
    let at = place(entries, key);
    if at < entries.len() && entries[at].key() == key {
        Ok(at)
    } else {
        Err(at)
    }
}

/// Proves that a list is a map from the keys of its entries: a search finds the entry that was put last with a
/// key, and none with a key that was taken out. The keys descend.
#[tactic(auto, using(crate::proofs::EntryLaws::entries_are_by_key))]
fn entries_are_by_key<E: Keyed>()
    ensures { EntriesAreByKey E.key_of }
{}
