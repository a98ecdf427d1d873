//! The search for a leaf.
ghost use Rattle.std.specs.Prelude.{◌≡◌, ◌∷◌, [], List, IfOk, OnErr, IfSome, IfNone, None, Some, MatchBool};
ghost use Rattle.vm_tree.specs.Seeking.{Seeking, IsSeeking};

use crate::end::End;
use crate::entries::Entry;
use crate::leaf::{Change, Leaf};
use std::alloc::{AllocError, Global};

/// A search for the leaf that has the place closest to an end, and a change of this leaf.
pub trait Seek<L: Leaf> {
    ghost seeking: { Self → Seeking L };

    ghost refuses: { Self → L → Self → Type 0 };

    ghost edits: { Self → L → Self → List L → Type 0 };

    ghost can_split: { Self → L → Type 0 };

    ghost needs_memory: { Self → L → Type 0 };

    /// Returns the end to which the place is closest.
    fn end(&self) -> End
        ensures end { result ≡ (seeking self.now).end }
        ensures lawful { IsSeeking L.entry (seeking self.now) };

    /// Returns the lowest address of the window.
    fn low(&self) -> u64
        ensures { result ≡ (seeking self.now).low };

    /// Returns the highest address of the window.
    fn high(&self) -> u64
        ensures { result ≡ (seeking self.now).high };

    /// Returns true if the summary of leaves does not exclude a place.
    fn fits(&self, entry: &Entry) -> bool
        ensures { result ≡ (seeking self.now).fits entry.now };

    /// Returns true if a leaf has a place.
    fn has(&self, leaf: &L) -> bool
        ensures { MatchBool result ((seeking self.now).lacks leaf.now → ⊥) ((seeking self.now).lacks leaf.now) };

    /// Changes the leaf, beside which `was` is stored, if it has a place. Returns `None` if it has none.
    /// If the leaf is a root, then `was` is not its entry.
    fn seek(&mut self, leaf: &mut L, was: Entry) -> Option<Change>
        ensures none { IfNone result ((leaf.new ≡ leaf.old) × (self.new ≡ self.old) × (seeking self.old).lacks leaf.old) }
        ensures refused { result ≡ Some Change.Refused → (leaf.new ≡ leaf.old) × refuses self.old leaf.old self.new }
        ensures full { result ≡ Some Change.Full → (leaf.new ≡ leaf.old) × can_split self.new leaf.old × needs_memory self.old leaf.old
            × ((e : Self) (ls : List L) → edits self.new leaf.old e ls → edits self.old leaf.old e ls) }
        ensures memory { result ≡ Some Change.OutOfMemory → (leaf.new ≡ leaf.old) × needs_memory self.old leaf.old }
        ensures same { result ≡ Some Change.Same → (was ≡ L.entry leaf.old → L.entry leaf.new ≡ L.entry leaf.old) × edits self.old leaf.old self.new (leaf.new ∷ []) }
        ensures changed { result ≡ Some Change.Changed → edits self.old leaf.old self.new (leaf.new ∷ []) }
        ensures enough { L.enough leaf.old → L.enough leaf.new };

    /// Changes a leaf that has no room: its upper part is moved to another leaf. An error does not change the leaf.
    fn split(&mut self, leaf: &mut L, alloc: Global) -> Result<Box<L>, AllocError>
        requires { can_split self.old leaf.old }
        ensures edited { IfOk result (λ upper. edits self.old leaf.old self.new (leaf.new ∷ upper.value ∷ [])) }
        ensures enough { IfOk result (λ upper. L.enough leaf.new × L.enough upper.value) }
        ensures unchanged { OnErr result (leaf.new ≡ leaf.old) };
}
