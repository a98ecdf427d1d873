//! The fields of an object: their number, and a list in one of them.
//!
//! If the number is right and each expected field is found, there are no other fields.
ghost use Rattle.std.specs.Prelude.{◌≡◌, option_map, option_and_then};
ghost use Rattle.serde_json.specs.View.{view, items_view};
ghost use Rattle.serde_json.specs.Find.{get, as_array};
ghost use Rattle.vm_ranges.specs.Fields.{field_count, is_count};

use serde_json::Value;

/// Returns `true` if the value is an object with exactly `count` fields.
#[tactic(auto, using(crate::proofs::FieldSteps::counts))]
pub fn has_fields(value: &Value, count: usize) -> bool
    ensures { result ≡ is_count count (field_count (view value.now)) }
{
    match value.as_object() {
        Some(fields) => fields.len() == count,
        None => false,
    }
}

/// Returns the list in the field `name`, or `None` if there is no list.
pub fn list_in<'v>(value: &'v Value, name: &str) -> Option<&'v Vec<Value>>
    ensures { option_map (λ list. items_view list.now.items) result
        ≡ option_and_then as_array (get name.now (view value.now)) }
{
    value.get(name)?.as_array()
}
