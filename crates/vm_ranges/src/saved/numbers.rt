//! Whole numbers of 64 and of 32 bits in the fields of a value.
ghost use Rattle.std.specs.Prelude.{◌≡◌};
ghost use Rattle.serde_json.specs.View.{view};
ghost use Rattle.vm_ranges.specs.Numbers.{number_in, u32_from, u32_in};

use serde_json::Value;

/// Returns the whole number in the field `name`, or `None` if there is no whole number of 64 bits.
pub fn number_in(value: &Value, name: &str) -> Option<u64>
    ensures { result ≡ number_in name.now (view value.now) }
{
    value.get(name).and_then(Value::as_u64)
}

/// Returns the number, or `None` if it does not fit into 32 bits.
pub fn u32_from(number: u64) -> Option<u32>
    ensures { result ≡ u32_from number }
{
    u32::try_from(number).ok()
}

/// Returns the whole number in the field `name`, or `None` if there is no whole number of 32 bits.
pub fn u32_in(value: &Value, name: &str) -> Option<u32>
    ensures { result ≡ u32_in name.now (view value.now) }
{
    u32_from(number_in(value, name)?)
}
