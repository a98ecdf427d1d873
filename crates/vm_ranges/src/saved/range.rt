//! The saved value of a range.
ghost use Rattle.std.specs.Prelude.{◌≡◌, ◌≢◌, IfErr, option_and_then};
ghost use Rattle.serde_json.specs.View.{view};
ghost use Rattle.serde_json.specs.Find.{get};
ghost use Rattle.vm_ranges.specs.RangeValues.{EncodesRange, decoded_range};
ghost use Rattle.vm_ranges.specs.Saving.{Saves, Reads};

use crate::error::Result;
use crate::range::RangeInclusive;
use crate::saved::ValueError;
use crate::saved::fields::has_fields;
use crate::saved::numbers::number_in;
use serde_json::{Value, json};
use std::alloc::Global;

impl RangeInclusive {
    /// Encodes the range as a value: an object with the fields `start` and `end`.
    ///
    /// # Errors
    ///
    /// - `OutOfMemory` if an allocation of memory fails.
    #[tactic(auto)]
    pub fn to_value(&self, alloc: Global) -> Result<Value>
        ensures { Saves (λ d. EncodesRange d self.now) result }
    {
        Ok(json!(in alloc; {"start": self.start(), "end": self.end()})?)
    }

    /// Decodes a range from a value. It does not allocate.
    ///
    /// # Errors
    ///
    /// - `NotAState` if the value does not encode a range.
    #[tactic(auto, using(crate::proofs::ReadRanges::read))]
    pub fn from_value(_alloc: Global, value: &Value) -> std::result::Result<Self, ValueError>
        ensures answer { Reads (EncodesRange (view value.now)) result }
        ensures no_memory { IfErr result (λ error. error ≢ ValueError.OutOfMemory) }
    {
        RangeInclusive::decode(value).ok_or(ValueError::NotAState)
    }

    /// Decodes a range. Returns `None` if the value does not encode a range.
    #[tactic(auto, using(crate::proofs::ReadRanges::made))]
    fn decode(value: &Value) -> Option<RangeInclusive>
        ensures { result ≡ decoded_range (view value.now) }
    {
        if !has_fields(value, 2) {
            return None;
        }
        let start = number_in(value, "start")?;
        let end = number_in(value, "end")?;
        RangeInclusive::new(start, end).ok()
    }
}

/// Decodes the range in the field `name`. Returns `None` if there is no range.
pub fn range_in(value: &Value, name: &str) -> Option<RangeInclusive>
    ensures { result ≡ option_and_then decoded_range (get name.now (view value.now)) }
{
    RangeInclusive::decode(value.get(name)?)
}
