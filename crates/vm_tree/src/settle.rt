//! The result of a change of a child is written into its node, which is split if it is full.
ghost use Rattle.std.specs.Prelude.{◌≡◌, ◌<◌, length};
ghost use Rattle.vm_tree.specs.Grew.{CanFinish, CanSettle, IsFinished, IsSettledIn};
ghost use Rattle.vm_tree.specs.Nodes.{leaf_tree, node_tree};
ghost use Rattle.vm_tree.specs.Slots.{held, IsDense};

use crate::entries::{Entries, FANOUT};
use crate::grow::{note, settle};
use crate::leaf::Leaf;
use crate::node::{Kids, Node};
use crate::outcome::{Halves, Outcome, Settled, Upper};

/// Takes a node for the upper half of the children, which are leaves.
#[tactic(auto, using(crate::proofs::Results::none_left))]
fn finish_leaves<L: Leaf>(settled: Settled<L>, spares: &mut Vec<Box<Node<L>>>) -> Outcome<Node<L>>
    requires { CanFinish L.entry L.enough 0 leaf_tree (length spares.old.items) settled }
    ensures { IsFinished leaf_tree node_tree (length spares.old.items) (length spares.new.items) settled result }
{
    match settled {
        Settled::Refused => Outcome::Refused,
        Settled::Same => Outcome::Same,
        Settled::Changed(entry) => Outcome::Changed(entry),
        Settled::Split(half) => {
            let Upper {
                low,
                high,
                entries,
                slots,
            } = half;
            let Some(mut upper) = spares.pop() else {
                unreachable!()
            };
            *upper = Node {
                entries,
                kids: Kids::Leaves(slots),
            };
            Outcome::Split(Halves { low, high, upper })
        }
    }
}

/// Takes a node for the upper half of the children, which are nodes.
#[tactic(auto, using(crate::proofs::Results::none_left))]
fn finish_nodes<L: Leaf>(
    settled: Settled<Node<L>>,
    spares: &mut Vec<Box<Node<L>>>,
) -> Outcome<Node<L>>
    requires { CanFinish L.entry L.enough 2 node_tree (length spares.old.items) settled }
    ensures { IsFinished node_tree node_tree (length spares.old.items) (length spares.new.items) settled result }
{
    match settled {
        Settled::Refused => Outcome::Refused,
        Settled::Same => Outcome::Same,
        Settled::Changed(entry) => Outcome::Changed(entry),
        Settled::Split(half) => {
            let Upper {
                low,
                high,
                entries,
                slots,
            } = half;
            let Some(mut upper) = spares.pop() else {
                unreachable!()
            };
            *upper = Node {
                entries,
                kids: Kids::Nodes(slots),
            };
            Outcome::Split(Halves { low, high, upper })
        }
    }
}

/// Splits a node whose child `i`, a leaf, was split, if it is full.
#[inline(never)]
fn split_leaves<L: Leaf>(
    entries: &mut Entries,
    slots: &mut [Option<Box<L>>; FANOUT],
    i: usize,
    halves: Halves<L>,
    spares: &mut Vec<Box<Node<L>>>,
) -> Outcome<Node<L>>
    requires dense { IsDense slots.old }
    requires same { length entries.old ≡ length (held slots.old) }
    requires within { i < length entries.old }
    requires can { CanSettle L.entry L.enough 0 leaf_tree (length spares.old.items) i entries.old (held slots.old) (Outcome.Split halves) }
    ensures dense { IsDense slots.new }
    ensures settled { IsSettledIn leaf_tree node_tree (length spares.old.items) (length spares.new.items) i entries.old (held slots.old) entries.new (held slots.new) (Outcome.Split halves) result }
{
    let settled = settle(entries, slots, i, Outcome::Split(halves));
    finish_leaves(settled, spares)
}

/// Writes what was done with the child `i`, a leaf, into the node above it.
#[inline(always)]
pub(crate) fn settle_leaves<L: Leaf>(
    entries: &mut Entries,
    slots: &mut [Option<Box<L>>; FANOUT],
    i: usize,
    outcome: Outcome<L>,
    spares: &mut Vec<Box<Node<L>>>,
) -> Outcome<Node<L>>
    requires dense { IsDense slots.old }
    requires same { length entries.old ≡ length (held slots.old) }
    requires within { i < length entries.old }
    requires can { CanSettle L.entry L.enough 0 leaf_tree (length spares.old.items) i entries.old (held slots.old) outcome }
    ensures dense { IsDense slots.new }
    ensures settled { IsSettledIn leaf_tree node_tree (length spares.old.items) (length spares.new.items) i entries.old (held slots.old) entries.new (held slots.new) outcome result }
{
    match outcome {
        Outcome::Refused => Outcome::Refused,
        Outcome::Same => Outcome::Same,
        Outcome::Changed(entry) => match note(entries, i, entry) {
            None => Outcome::Same,
            Some(sum) => Outcome::Changed(sum),
        },
        Outcome::Split(halves) => split_leaves(entries, slots, i, halves, spares),
    }
}

/// Splits a node whose child `i`, a node, was split, if it is full.
#[inline(never)]
fn split_nodes<L: Leaf>(
    entries: &mut Entries,
    slots: &mut [Option<Box<Node<L>>>; FANOUT],
    i: usize,
    halves: Halves<Node<L>>,
    spares: &mut Vec<Box<Node<L>>>,
) -> Outcome<Node<L>>
    requires dense { IsDense slots.old }
    requires same { length entries.old ≡ length (held slots.old) }
    requires within { i < length entries.old }
    requires can { CanSettle L.entry L.enough 2 node_tree (length spares.old.items) i entries.old (held slots.old) (Outcome.Split halves) }
    ensures dense { IsDense slots.new }
    ensures settled { IsSettledIn node_tree node_tree (length spares.old.items) (length spares.new.items) i entries.old (held slots.old) entries.new (held slots.new) (Outcome.Split halves) result }
{
    let settled = settle(entries, slots, i, Outcome::Split(halves));
    finish_nodes(settled, spares)
}

/// Writes what was done with the child `i`, a node, into the node above it.
#[inline(always)]
pub(crate) fn settle_nodes<L: Leaf>(
    entries: &mut Entries,
    slots: &mut [Option<Box<Node<L>>>; FANOUT],
    i: usize,
    outcome: Outcome<Node<L>>,
    spares: &mut Vec<Box<Node<L>>>,
) -> Outcome<Node<L>>
    requires dense { IsDense slots.old }
    requires same { length entries.old ≡ length (held slots.old) }
    requires within { i < length entries.old }
    requires can { CanSettle L.entry L.enough 2 node_tree (length spares.old.items) i entries.old (held slots.old) outcome }
    ensures dense { IsDense slots.new }
    ensures settled { IsSettledIn node_tree node_tree (length spares.old.items) (length spares.new.items) i entries.old (held slots.old) entries.new (held slots.new) outcome result }
{
    match outcome {
        Outcome::Refused => Outcome::Refused,
        Outcome::Same => Outcome::Same,
        Outcome::Changed(entry) => match note(entries, i, entry) {
            None => Outcome::Same,
            Some(sum) => Outcome::Changed(sum),
        },
        Outcome::Split(halves) => split_nodes(entries, slots, i, halves, spares),
    }
}
