//! The leaves of a tree, and the change of a leaf.
ghost use Rattle.std.specs.Prelude.{◌≡◌, [], ◌∷◌, List, true, false, ◌⊎◌, IfOk, OnErr};
ghost use Rattle.vm_tree.specs.Entry.{Entry};

use crate::entries::Entry;
use std::alloc::{AllocError, Global};

/// A leaf.
pub trait Leaf: Drop {
    ghost entry: { Self → Entry };

    ghost enough: { Self → Type 0 };

    ghost meets: { Self → Self → Type 0 };

    ghost joins: { Self → Self → List Self → Type 0 };

    /// Returns what is stored beside this leaf.
    fn entry(&self) -> Entry
        ensures { result ≡ entry self.now };

    /// Appends the items of the next leaf if there is room for all, and returns true. Otherwise it moves items
    /// between both, so that both have enough.
    fn join(&mut self, next: &mut Self) -> bool
        requires meets { meets self.old next.old }
        requires enough { enough self.old ⊎ enough next.old }
        ensures one { result ≡ true → joins self.old next.old (self.new ∷ []) × enough self.new }
        ensures two { result ≡ false → joins self.old next.old (self.new ∷ next.new ∷ []) × enough self.new × enough next.new };
}

/// The result of a change of a leaf.
pub enum Change {
    /// It refused, and the leaf is as before.
    Refused,
    /// It changed the leaf, but not what is stored beside it.
    Same,
    /// It changed the leaf.
    Changed,
    /// It has no room, and the leaf is as before.
    Full,
    /// There is no memory, and the leaf is as before.
    OutOfMemory,
}

/// A change of one leaf.
pub trait Edit<L: Leaf> {
    ghost refuses: { Self → L → Self → Type 0 };

    ghost edits: { Self → L → Self → List L → Type 0 };

    ghost can_change: { Self → L → Type 0 };

    ghost can_split: { Self → L → Type 0 };

    ghost needs_memory: { Self → L → Type 0 };

    ghost lacks: { Self → L → Type 0 };

    /// Changes a leaf, beside which `was` is stored. If the leaf is a root, then `was` is not its entry.
    fn change(&mut self, leaf: &mut L, was: Entry) -> Change
        requires can { can_change self.old leaf.old }
        ensures refused { result ≡ Change.Refused → (leaf.new ≡ leaf.old) × refuses self.old leaf.old self.new }
        ensures full { result ≡ Change.Full → (leaf.new ≡ leaf.old) × (self.new ≡ self.old) × can_split self.old leaf.old }
        ensures memory { result ≡ Change.OutOfMemory → (leaf.new ≡ leaf.old) × (self.new ≡ self.old) × needs_memory self.old leaf.old × lacks self.old leaf.old }
        ensures needs { result ≡ Change.Full → needs_memory self.old leaf.old }
        ensures same { result ≡ Change.Same → (was ≡ L.entry leaf.old → L.entry leaf.new ≡ L.entry leaf.old) × edits self.old leaf.old self.new (leaf.new ∷ []) }
        ensures changed { result ≡ Change.Changed → edits self.old leaf.old self.new (leaf.new ∷ []) }
        ensures enough { L.enough leaf.old → L.enough leaf.new };

    /// Changes a leaf that has no room: its upper part is moved to another leaf. An error changes nothing.
    fn split(&mut self, leaf: &mut L, alloc: Global) -> Result<Box<L>, AllocError>
        requires { can_split self.old leaf.old }
        ensures edited { IfOk result (λ upper. edits self.old leaf.old self.new (leaf.new ∷ upper.value ∷ [])) }
        ensures enough { IfOk result (λ upper. L.enough leaf.new × L.enough upper.value) }
        ensures unchanged { OnErr result ((leaf.new ≡ leaf.old) × (self.new ≡ self.old)) }
        ensures lacks { OnErr result (lacks self.old leaf.old) };
}
