//! The saved value of an id allocator.
ghost use Rattle.std.specs.Prelude.{◌≡◌, List, ℕ, IfOk, IfSome, IfNone, MatchResult, IsSome, Some, option_map, option_and_then};
ghost use Rattle.std.specs.List.Sorted.{IsStrictlySortedBy};
ghost use Rattle.std.specs.Ordering.{nat_cmp};
ghost use Rattle.serde_json.specs.View.{view, items_view};
ghost use Rattle.serde_json.specs.Find.{get};
ghost use Rattle.vm_ranges.specs.declared.saved.SavedError.TheVariants.{OutOfMemory};
ghost use Rattle.vm_ids.specs.Ids.{IdState, IsIdState};
ghost use Rattle.vm_ids.specs.Values.IdValues.{EncodesNext, EncodesNumbers, EncodesIds};
ghost use Rattle.vm_ids.specs.Checks.FreedChecks.{ends_of};
ghost use Rattle.vm_ids.specs.Checks.IdChecks.{ids_from, decoded_next, AreDecoded, IdParts};
ghost use Rattle.vm_ranges.specs.Saving.{Saves, Reads};

use super::read_ids::{Ends, ReadIds, check_parts, ends_with};
use crate::id_allocator::{FreedIds, IdAllocator};
use serde_json::{Value, json};
use std::alloc::{AllocError, Global};
use vm_ranges::{Result, SavedError, ValueError, has_fields, list_in, u32_from, u32_in};

impl IdAllocator {
    /// Encodes the allocator as a value: its range, the next id and the freed ids.
    ///
    /// # Errors
    ///
    /// - `OutOfMemory` if an allocation of memory fails.
    #[tactic(auto, using(crate::proofs::Ids::ReadIdStates::written))]
    pub fn to_value(&self, alloc: Global) -> Result<Value>
        ensures { Saves (λ d. EncodesIds d self.now) result }
    {
        let next = encode_next(self.next_id);
        let freed = encode_ids(alloc, self.freed_ids())?;
        Ok(ids_object(alloc, self.range_base, next, self.range_end, freed)?)
    }

    /// Decodes an allocator from a value: its range, the ids that were allocated at some time, and
    /// the ids that are allocated now.
    ///
    /// The value can be untrusted input. All of it is checked before memory is allocated.
    ///
    /// # Errors
    ///
    /// In this order:
    /// - `NotAState` if the value does not encode an allocator.
    /// - `OutOfMemory` if an allocation of memory fails.
    pub fn from_value(alloc: Global, value: &Value) -> std::result::Result<Self, ValueError>
        ensures answer { Reads (EncodesIds (view value.now)) result }
        ensures state { IfOk result (λ ids. IsIdState ids) }
    {
        let Some(ids) = check_ids(value) else {
            return Err(ValueError::NotAState);
        };
        let freed = collect_ids(alloc, ids.freed)?;
        Ok(IdAllocator::from_ids(ids.base, ids.next, ids.end, freed)?)
    }
}

/// Encodes the next id as a number, or as null if there is none.
fn encode_next(next: Option<u32>) -> Value
    ensures { EncodesNext (view result) next }
{
    match next {
        None => Value::Null,
        Some(next) => Value::from(next),
    }
}

/// Encodes the freed ids as a list, in ascending order.
fn encode_ids(alloc: Global, ids: FreedIds<'_>) -> std::result::Result<Value, AllocError>
    ensures { IfOk result (λ list. EncodesNumbers (view list) ids.entry) }
{
    let mut list = Vec::new(alloc);
    for id in ids {
        list.push(Value::from(id))?;
    }
    Ok(Value::from(list))
}

/// Builds the object with the fields of an id allocator.
fn ids_object(
    alloc: Global,
    base: u32,
    next: Value,
    end: u32,
    freed: Value,
) -> std::result::Result<Value, AllocError>
    ensures { IfOk result (λ value. IdParts (view value) base (view next) end (view freed)) }
{
    // The numbers are last: if an allocation for them fails, only the object has to be dropped.
    json!(in alloc; {"next_id": next, "freed_ids": freed, "range_base": base, "range_end": end})
}

/// The decoded fields of an id allocator's value. All of them are checked.
#[derive(Drop)]
struct CheckedIds<'a> {
    base: u32,
    next: Option<u32>,
    end: u32,
    freed: &'a Vec<Value>,
}

/// Decodes and checks the fields of a value. Returns `None` if it does not encode an id allocator.
fn check_ids(value: &Value) -> Option<CheckedIds<'_>>
    ensures found { IfSome result (λ c. (ids : List ℕ) × AreDecoded (view value.now)
        (record { range_base = c.base; next_id = c.next; range_end = c.end; freed_ids = ids }) (items_view c.freed.now.items)) }
    ensures none { IfNone result (¬ ((state : IdState) × EncodesIds (view value.now) state)) }
{
    if !has_fields(value, 4) {
        return None;
    }
    let base = u32_in(value, "range_base")?;
    let end = u32_in(value, "range_end")?;
    let next = next_in(value, "next_id")?;
    let freed = list_in(value, "freed_ids")?;
    let ends = ends_in(freed)?;
    check_parts(base, next, end, ends).ok()?;
    Some(CheckedIds {
        base,
        next,
        end,
        freed,
    })
}

/// Decodes a next id. Returns `Some(None)` for null, and `None` if the value is not a 32-bit
/// number.
fn decode_next(value: &Value) -> Option<Option<u32>>
    ensures { result ≡ decoded_next (view value.now) }
{
    if value.is_null() {
        return Some(None);
    }
    Some(Some(u32_from(value.as_u64()?)?))
}

/// Decodes the next id in the field `name`.
fn next_in(value: &Value, name: &str) -> Option<Option<u32>>
    ensures { result ≡ option_and_then decoded_next (get name.now (view value.now)) }
{
    decode_next(value.get(name)?)
}

/// Returns the first and the last of the items. Returns `None` if they are not 32-bit numbers in
/// strictly ascending order.
fn ends_in(list: &[Value]) -> Option<Option<Ends>>
    ensures { result ≡ option_map ends_of (ids_from 0 (items_view list.now)) }
{
    let mut ends = None;
    for item in list {
        let id = u32_from(item.as_u64()?)?;
        ends = Some(ends_with(ends, id)?);
    }
    Some(ends)
}

/// Collects the items, which are 32-bit numbers in strictly ascending order.
fn collect_ids(alloc: Global, list: &[Value]) -> std::result::Result<ReadIds, SavedError>
    requires { IsSome (ids_from 0 (items_view list.now)) }
    ensures { MatchResult result (λ ids. ids_from 0 (items_view list.now) ≡ Some ids)
        (λ e. e ≡ OutOfMemory) }
{
    let mut ids = ReadIds::new(alloc);
    for item in list {
        let id = item.as_u64().unwrap();
        ids.push(id as u32)?;
    }
    Ok(ids)
}
