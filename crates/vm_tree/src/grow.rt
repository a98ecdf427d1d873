//! A child is added to a node, which is split if it is full.
ghost use Rattle.std.specs.Prelude.{◌≡◌, ◌+◌, ◌<◌, ◌≤◌, ◌++◌, [], length, true, false};
ghost use Rattle.std.specs.List.{insert};
ghost use Rattle.vm_tree.specs.Slots.{held, IsDense};
ghost use Rattle.vm_tree.specs.Outcomes.{IsGrown, IsNoted, IsSettled};

use crate::entries::{Entries, Entry, FANOUT, MIN_CHILDREN};
use crate::outcome::{Halves, Outcome, Settled, Upper};
use crate::slots::{insert_slot, no_slots, split_slots};

/// Returns the number of children that a full node keeps when it is split to insert a child at the index `i`.
///
/// A child behind all others is likely to be split next, so the upper node gets few children then. If it is behind the
/// first one, the lower node keeps few.
fn kept(i: usize) -> usize
    requires { i ≤ FANOUT }
    ensures below { i ≤ result → (MIN_CHILDREN ≤ result + 1) × (result + MIN_CHILDREN ≤ FANOUT) }
    ensures above { result < i → (MIN_CHILDREN ≤ result) × (result + MIN_CHILDREN ≤ FANOUT + 1) }
{
    if i == FANOUT {
        return FANOUT + 1 - MIN_CHILDREN;
    }
    if i == 1 {
        return MIN_CHILDREN - 1;
    }
    FANOUT / 2
}

/// Inserts a child at the index `i`. Returns true if the node was full: then its upper half is moved to
/// `upper` and `upper_slots`.
#[tactic(auto, using(crate::proofs::Grown::in_one, crate::proofs::Grown::length_in, crate::proofs::Grown::length_low, crate::proofs::Grown::length_up))]
fn add_child<C: Drop>(
    entries: &mut Entries,
    slots: &mut [Option<Box<C>>; FANOUT],
    i: usize,
    entry: Entry,
    child: Box<C>,
    upper: &mut Entries,
    upper_slots: &mut [Option<Box<C>>; FANOUT],
) -> bool
    requires dense { IsDense slots.old × IsDense upper_slots.old }
    requires same { length entries.old ≡ length (held slots.old) }
    requires within { i ≤ length entries.old }
    requires upper { (upper.old ≡ []) × (held upper_slots.old ≡ []) }
    ensures dense { IsDense slots.new × IsDense upper_slots.new }
    ensures entries { entries.new ++ upper.new ≡ insert entries.old i entry }
    ensures held { held slots.new ++ held upper_slots.new ≡ insert (held slots.old) i child }
    ensures same { (length entries.new ≡ length (held slots.new)) × (length upper.new ≡ length (held upper_slots.new)) }
    ensures whole { result ≡ false → upper.new ≡ [] }
    ensures halves { result ≡ true → (5 ≤ length entries.new) × (5 ≤ length upper.new) × (16 ≤ length entries.old) }
    ensures some { 0 < length entries.new }
{
    let len = entries.len();
    if len < FANOUT {
        entries.insert(i, entry);
        insert_slot(slots, len, i, child);
        return false;
    }
    let at = kept(i);
    entries.split_off(at, upper);
    split_slots(slots, len, at, upper_slots);
    if i <= at {
        entries.insert(i, entry);
        insert_slot(slots, at, i, child);
    } else {
        upper.insert(i - at, entry);
        insert_slot(upper_slots, len - at, i - at, child);
    }
    true
}

/// Inserts a child at the index `i`. If the node is full, then the upper half of the children is returned.
fn grow<C: Drop>(
    entries: &mut Entries,
    slots: &mut [Option<Box<C>>; FANOUT],
    i: usize,
    entry: Entry,
    child: Box<C>,
) -> Settled<C>
    requires dense { IsDense slots.old }
    requires same { length entries.old ≡ length (held slots.old) }
    requires some { 0 < length entries.old }
    requires within { i ≤ length entries.old }
    ensures dense { IsDense slots.new }
    ensures grown { IsGrown entries.old (held slots.old) i entry child entries.new (held slots.new) result }
{
    let mut upper = Entries::empty();
    let mut upper_slots = no_slots();
    if add_child(
        entries,
        slots,
        i,
        entry,
        child,
        &mut upper,
        &mut upper_slots,
    ) {
        Settled::Split(Upper {
            low: entries.sum(),
            high: upper.sum(),
            entries: upper,
            slots: upper_slots,
        })
    } else {
        Settled::Changed(entries.sum())
    }
}

/// Returns true if two entries are equal.
#[inline(always)]
pub(crate) fn is_same(a: &Entry, b: &Entry) -> bool
    ensures { result ≡ true → a.now ≡ b.now }
{
    a.at == b.at && a.longest == b.longest && a.alignments == b.alignments
}

/// Writes the entry of the child `i`. Returns the sum of all, or `None` if the entry is as before.
#[inline(always)]
pub(crate) fn note(entries: &mut Entries, i: usize, entry: Entry) -> Option<Entry>
    requires { i < length entries.old }
    ensures { IsNoted i entries.old entry entries.new result }
{
    if is_same(&entries.entry(i), &entry) {
        return None;
    }
    entries.set_entry(i, entry);
    Some(entries.sum())
}

/// Writes what was done with the child `i` into the node above it.
pub(crate) fn settle<C: Drop>(
    entries: &mut Entries,
    slots: &mut [Option<Box<C>>; FANOUT],
    i: usize,
    outcome: Outcome<C>,
) -> Settled<C>
    requires dense { IsDense slots.old }
    requires same { length entries.old ≡ length (held slots.old) }
    requires within { i < length entries.old }
    ensures dense { IsDense slots.new }
    ensures settled { IsSettled i entries.old (held slots.old) entries.new (held slots.new) outcome result }
{
    match outcome {
        Outcome::Refused => Settled::Refused,
        Outcome::Same => Settled::Same,
        Outcome::Changed(entry) => match note(entries, i, entry) {
            None => Settled::Same,
            Some(sum) => Settled::Changed(sum),
        },
        Outcome::Split(halves) => {
            let Halves { low, high, upper } = halves;
            entries.set_entry(i, low);
            grow(entries, slots, i + 1, high, upper)
        }
    }
}
