//! Slots for the children of a node.
ghost use Rattle.std.specs.Prelude.{◌≡◌, ◌+◌, ◌<◌, ◌≤◌, ◌++◌, [], take, drop, length, set, Some, None, get_or};
ghost use Rattle.std.specs.List.{insert, remove};
ghost use Rattle.vm_tree.specs.Slots.{held, IsDense};

use crate::entries::FANOUT;

/// Returns slots without children.
#[tactic(auto, using(crate::proofs::Dense::none_held, crate::proofs::Dense::none_dense))]
pub fn no_slots<C>() -> [Option<Box<C>>; FANOUT]
    ensures held { held result ≡ [] }
    ensures dense { IsDense result }
{
    [const { None }; FANOUT]
}

/// Inserts a child.
#[tactic(auto, using(crate::proofs::Dense::inserted, crate::proofs::Dense::inserted_dense))]
pub fn insert_slot<C: Drop>(slots: &mut [Option<Box<C>>; FANOUT], len: usize, i: usize, x: Box<C>)
    requires dense { IsDense slots.old }
    requires len { len ≡ length (held slots.old) }
    requires within { i ≤ len }
    requires room { len < FANOUT }
    ensures held { held slots.new ≡ insert (held slots.old) i x }
    ensures dense { IsDense slots.new }
{
    let whole = &mut slots[..];
    whole[len] = Some(x);
    whole[i..len + 1].rotate_right(1);
}

/// Moves the children from `at` on to slots that are empty.
#[tactic(auto, using(crate::proofs::Splits::upper_held, crate::proofs::Splits::upper_dense, crate::proofs::Splits::lower_held, crate::proofs::Splits::lower_dense))]
pub fn split_slots<C: Drop>(
    slots: &mut [Option<Box<C>>; FANOUT],
    len: usize,
    at: usize,
    upper: &mut [Option<Box<C>>; FANOUT],
)
    requires dense { IsDense slots.old }
    requires len { len ≡ length (held slots.old) }
    requires within { at ≤ len }
    requires fits { len ≤ FANOUT }
    requires upper { held upper.old ≡ [] }
    requires upper_dense { IsDense upper.old }
    ensures lower { held slots.new ≡ take at (held slots.old) }
    ensures lower_dense { IsDense slots.new }
    ensures upper { held upper.new ≡ drop at (held slots.old) }
    ensures upper_dense { IsDense upper.new }
{
    let from = &mut slots[..];
    let to = &mut upper[..];
    to[0..len - at].swap_with_slice(&mut from[at..len]);
}

/// Takes a child out.
#[tactic(auto, using(crate::proofs::Dense::not_empty, crate::proofs::Dense::kid_at, crate::proofs::Removed::removed, crate::proofs::Removed::removed_dense))]
pub fn remove_slot<C: Drop>(slots: &mut [Option<Box<C>>; FANOUT], len: usize, i: usize) -> Box<C>
    requires dense { IsDense slots.old }
    requires len { len ≡ length (held slots.old) }
    requires within { i < len }
    requires fits { len ≤ FANOUT }
    ensures taken { get_or (held slots.old) i result ≡ result }
    ensures held { held slots.new ≡ remove (held slots.old) i }
    ensures dense { IsDense slots.new }
{
    match slots[i].take() {
        Some(child) => {
            let whole = &mut slots[..];
            whole[i..len].rotate_left(1);
            child
        }
        None => unreachable!(),
    }
}

/// Appends the children of other slots, which are empty then.
#[tactic(auto, using(crate::proofs::Removed::appended, crate::proofs::Removed::appended_dense, crate::proofs::Removed::emptied, crate::proofs::Removed::emptied_dense))]
pub fn append_slots<C: Drop>(
    slots: &mut [Option<Box<C>>; FANOUT],
    len: usize,
    other: &mut [Option<Box<C>>; FANOUT],
    more: usize,
)
    requires dense { IsDense slots.old × IsDense other.old }
    requires len { len ≡ length (held slots.old) }
    requires more { more ≡ length (held other.old) }
    requires fits { len + more ≤ FANOUT }
    ensures held { held slots.new ≡ held slots.old ++ held other.old }
    ensures dense { IsDense slots.new }
    ensures other { held other.new ≡ [] }
    ensures other_dense { IsDense other.new }
{
    let to = &mut slots[..];
    let from = &mut other[..];
    to[len..len + more].swap_with_slice(&mut from[0..more]);
}
