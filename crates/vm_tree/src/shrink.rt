//! A child is dropped from a node, and children move between two nodes.
ghost use Rattle.std.specs.Prelude.{◌≡◌, ◌+◌, ◌<◌, ◌≤◌, ◌++◌, [], length, get_or, true, false};
ghost use Rattle.std.specs.List.{remove};
ghost use Rattle.vm_tree.specs.Slots.{held, IsDense};

use crate::entries::{Entries, FANOUT};
use crate::slots::{append_slots, no_slots, remove_slot, split_slots};
use std::mem;

/// Takes the child `i` out.
#[tactic(auto, using(crate::proofs::Evened::one_less))]
pub fn drop_child<C: Drop>(
    entries: &mut Entries,
    slots: &mut [Option<Box<C>>; FANOUT],
    i: usize,
) -> Box<C>
    requires dense { IsDense slots.old }
    requires same { length entries.old ≡ length (held slots.old) }
    requires within { i < length entries.old }
    ensures dense { IsDense slots.new }
    ensures taken { get_or (held slots.old) i result ≡ result }
    ensures entries { entries.new ≡ remove entries.old i }
    ensures held { held slots.new ≡ remove (held slots.old) i }
    ensures same { length entries.new ≡ length (held slots.new) }
{
    let len = entries.len();
    entries.remove(i);
    remove_slot(slots, len, i)
}

/// Appends the children of another node, which has none then.
#[tactic(auto, using(crate::proofs::Evened::length_sum))]
pub fn append_children<C: Drop>(
    entries: &mut Entries,
    slots: &mut [Option<Box<C>>; FANOUT],
    other: &mut Entries,
    other_slots: &mut [Option<Box<C>>; FANOUT],
)
    requires dense { IsDense slots.old × IsDense other_slots.old }
    requires same { length entries.old ≡ length (held slots.old) }
    requires other { length other.old ≡ length (held other_slots.old) }
    requires fits { length entries.old + length other.old ≤ FANOUT }
    ensures dense { IsDense slots.new × IsDense other_slots.new }
    ensures entries { entries.new ≡ entries.old ++ other.old }
    ensures held { held slots.new ≡ held slots.old ++ held other_slots.old }
    ensures other { (other.new ≡ []) × (held other_slots.new ≡ []) }
{
    let (len, more) = (entries.len(), other.len());
    entries.append(other);
    append_slots(slots, len, other_slots, more);
    *other = Entries::empty();
}

/// Moves children between two neighbours, which have more than fit in one, so that both have half of them.
#[tactic(auto, using(crate::proofs::Evened::down, crate::proofs::Evened::up, crate::proofs::Evened::length_down, crate::proofs::Evened::length_rest, crate::proofs::Evened::length_up, crate::proofs::Evened::length_left))]
pub fn even_children<C: Drop>(
    low: &mut Entries,
    low_slots: &mut [Option<Box<C>>; FANOUT],
    high: &mut Entries,
    high_slots: &mut [Option<Box<C>>; FANOUT],
)
    requires dense { IsDense low_slots.old × IsDense high_slots.old }
    requires low { length low.old ≡ length (held low_slots.old) }
    requires high { length high.old ≡ length (held high_slots.old) }
    requires many { FANOUT < length low.old + length high.old }
    ensures dense { IsDense low_slots.new × IsDense high_slots.new }
    ensures entries { low.new ++ high.new ≡ low.old ++ high.old }
    ensures held { held low_slots.new ++ held high_slots.new ≡ held low_slots.old ++ held high_slots.old }
    ensures low { length low.new ≡ length (held low_slots.new) }
    ensures high { length high.new ≡ length (held high_slots.new) }
    ensures halves { (8 ≤ length low.new) × (8 ≤ length high.new) }
{
    let (a, b) = (low.len(), high.len());
    let half = (a + b) / 2;
    let mut rest = Entries::empty();
    let mut rest_slots = no_slots();
    if half < a {
        low.split_off(half, &mut rest);
        split_slots(low_slots, a, half, &mut rest_slots);
        append_children(&mut rest, &mut rest_slots, high, high_slots);
    } else {
        high.split_off(half - a, &mut rest);
        split_slots(high_slots, b, half - a, &mut rest_slots);
        append_children(low, low_slots, high, high_slots);
    }
    mem::swap(high, &mut rest);
    mem::swap(high_slots, &mut rest_slots);
}

/// Appends the children of the next node if there is room for all, and returns true: then it has none.
/// Otherwise children are moved, so that both have half of them.
#[tactic(auto, using(crate::proofs::Evened::whole, crate::proofs::Evened::length_sum))]
pub(crate) fn join_children<C: Drop>(
    low: &mut Entries,
    low_slots: &mut [Option<Box<C>>; FANOUT],
    high: &mut Entries,
    high_slots: &mut [Option<Box<C>>; FANOUT],
) -> bool
    requires dense { IsDense low_slots.old × IsDense high_slots.old }
    requires low { length low.old ≡ length (held low_slots.old) }
    requires high { length high.old ≡ length (held high_slots.old) }
    ensures dense { IsDense low_slots.new × IsDense high_slots.new }
    ensures entries { low.new ++ high.new ≡ low.old ++ high.old }
    ensures held { held low_slots.new ++ held high_slots.new ≡ held low_slots.old ++ held high_slots.old }
    ensures low { length low.new ≡ length (held low_slots.new) }
    ensures high { length high.new ≡ length (held high_slots.new) }
    ensures one { result ≡ true → high.new ≡ [] }
    ensures two { result ≡ false → (8 ≤ length low.new) × (8 ≤ length high.new) }
{
    if low.len() + high.len() <= FANOUT {
        append_children(low, low_slots, high, high_slots);
        true
    } else {
        even_children(low, low_slots, high, high_slots);
        false
    }
}
