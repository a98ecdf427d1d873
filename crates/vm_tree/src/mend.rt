//! Two neighbours among the children of a node are joined.
ghost use Rattle.std.specs.Prelude.{◌≡◌, ◌+◌, ◌<◌, ◌≤◌, length, map, set, suc, false, ◌⊎◌, if◌then◌else◌};
ghost use Rattle.std.specs.List.{remove};
ghost use Rattle.vm_tree.specs.Slots.{held, IsDense};
ghost use Rattle.vm_tree.specs.Subtree.{kids, entry_of, nth_tree};
ghost use Rattle.vm_tree.specs.Nodes.{leaf_tree, node_tree};
ghost use Rattle.vm_tree.specs.Mends.{AtPair, ArePaired, IsMended, NoJoin, with_two, without_next};

use crate::entries::{Entries, Entry, FANOUT};
use crate::leaf::Leaf;
use crate::node::Node;
use crate::shrink::drop_child;

/// Joins the leaves `i` and `i + 1`. Returns true if all is in the first one, and the entries of both.
#[tactic(auto, using(crate::proofs::Pairs::pair_within))]
fn join_leaves<L: Leaf>(slots: &mut [Option<Box<L>>; FANOUT], i: usize) -> (bool, Entry, Entry)
    requires dense { IsDense slots.old }
    requires pair { AtPair (λ a b. L.meets a.value b.value × (L.enough a.value ⊎ L.enough b.value)) i (held slots.old) }
    ensures dense { IsDense slots.new }
    ensures paired { ArePaired L.entry L.enough L.joins 1 i (map leaf_tree (held slots.old)) (map leaf_tree (held slots.new)) result.0 result.1 result.2 }
{
    let (from, to) = slots.split_at_mut(i + 1);
    let Some(low) = &mut from[i] else {
        unreachable!()
    };
    let Some(high) = &mut to[0] else {
        unreachable!()
    };
    let low: &mut L = low;
    let high: &mut L = high;
    let one = low.join(high);
    (one, low.entry(), high.entry())
}

/// Returns what is stored beside the second of two nodes that were joined, if it has children.
fn second_entry<L: Leaf>(one: bool, first: Entry, high: &Node<L>) -> Entry
    requires { one ≡ false → 0 < kids high.now }
    ensures { one ≡ false → result ≡ entry_of L.entry high.now }
{
    if one { first } else { high.entry() }
}

/// Joins the nodes `i` and `i + 1`. Returns true if all is in the first one, and the entries of both.
fn join_nodes<L: Leaf>(slots: &mut [Option<Box<Node<L>>>; FANOUT], i: usize) -> (bool, Entry, Entry)
    requires dense { IsDense slots.old }
    requires pair { AtPair (λ a b. (a.value.height ≡ b.value.height) × (0 < kids a.value) × (0 < kids b.value) × (5 ≤ kids a.value + kids b.value)) i (held slots.old) }
    ensures dense { IsDense slots.new }
    ensures paired { ArePaired L.entry L.enough NoJoin (nth_tree (map node_tree (held slots.old)) i).height i (map node_tree (held slots.old)) (map node_tree (held slots.new)) result.0 result.1 result.2 }
{
    let (from, to) = slots.split_at_mut(i + 1);
    let Some(low) = &mut from[i] else {
        unreachable!()
    };
    let Some(high) = &mut to[0] else {
        unreachable!()
    };
    let low: &mut Node<L> = low;
    let high: &mut Node<L> = high;
    // Proof: the number of children gives the facts of a node.
    let _len = low.len();
    let one = low.join(high);
    let first = low.entry();
    let second = second_entry(one, first, high);
    (one, first, second)
}

/// Writes the entries of two neighbours that were joined. If all is in the first one, the other is dropped.
fn settle_pair<C: Drop>(
    entries: &mut Entries,
    slots: &mut [Option<Box<C>>; FANOUT],
    i: usize,
    one: bool,
    low: Entry,
    high: Entry,
)
    requires dense { IsDense slots.old }
    requires same { length entries.old ≡ length (held slots.old) }
    requires within { i + 1 < length entries.old }
    ensures dense { IsDense slots.new }
    ensures entries { entries.new ≡ with_two i one low high entries.old }
    ensures held { held slots.new ≡ without_next i one (held slots.old) }
{
    let _len = entries.len();
    entries.set_entry(i, low);
    if one {
        drop_child(entries, slots, i + 1);
    } else {
        entries.set_entry(i + 1, high);
    }
}

/// Joins the leaves `i` and `i + 1` of a node.
pub(crate) fn mend_leaves<L: Leaf>(
    entries: &mut Entries,
    slots: &mut [Option<Box<L>>; FANOUT],
    i: usize,
)
    requires dense { IsDense slots.old }
    requires entries { entries.old ≡ map (entry_of L.entry) (map leaf_tree (held slots.old)) }
    requires pair { AtPair (λ a b. L.meets a.value b.value × (L.enough a.value ⊎ L.enough b.value)) i (held slots.old) }
    ensures dense { IsDense slots.new }
    ensures entries { entries.new ≡ map (entry_of L.entry) (map leaf_tree (held slots.new)) }
    ensures mended { IsMended L.enough L.joins 1 i (map leaf_tree (held slots.old)) (map leaf_tree (held slots.new)) }
{
    let (one, low, high) = join_leaves(slots, i);
    settle_pair(entries, slots, i, one, low, high);
}

/// Joins the nodes `i` and `i + 1` of a node.
pub(crate) fn mend_nodes<L: Leaf>(
    entries: &mut Entries,
    slots: &mut [Option<Box<Node<L>>>; FANOUT],
    i: usize,
)
    requires dense { IsDense slots.old }
    requires entries { entries.old ≡ map (entry_of L.entry) (map node_tree (held slots.old)) }
    requires pair { AtPair (λ a b. (a.value.height ≡ b.value.height) × (0 < kids a.value) × (0 < kids b.value) × (5 ≤ kids a.value + kids b.value)) i (held slots.old) }
    ensures dense { IsDense slots.new }
    ensures entries { entries.new ≡ map (entry_of L.entry) (map node_tree (held slots.new)) }
    ensures mended { IsMended L.enough NoJoin (nth_tree (map node_tree (held slots.old)) i).height i (map node_tree (held slots.old)) (map node_tree (held slots.new)) }
{
    let (one, low, high) = join_nodes(slots, i);
    settle_pair(entries, slots, i, one, low, high);
}
