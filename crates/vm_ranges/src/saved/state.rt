//! The saved value of a state.
ghost use Rattle.std.specs.Prelude.{◌≡◌, ◌≢◌, IfErr, option_and_then};
ghost use Rattle.serde_json.specs.View.{view};
ghost use Rattle.serde_json.specs.Find.{get};
ghost use Rattle.vm_ranges.specs.RangeValues.{EncodesState, decoded_state};
ghost use Rattle.vm_ranges.specs.Saving.{Saves, Reads};

use super::ValueError;
use crate::error::Result;
use crate::state::NodeState;
use serde_json::Value;
use std::alloc::Global;

impl NodeState {
    /// Encodes the state as a value: the text `Free` or the text `Allocated`.
    ///
    /// # Errors
    ///
    /// - `OutOfMemory` if an allocation of memory fails.
    pub fn to_value(&self, alloc: Global) -> Result<Value>
        ensures { Saves (λ d. EncodesState d self.now) result }
    {
        let name = match self {
            NodeState::Free => "Free",
            NodeState::Allocated => "Allocated",
        };
        Ok(Value::try_from_str(alloc, name)?)
    }

    /// Decodes a state from a value. It does not allocate.
    ///
    /// # Errors
    ///
    /// - `NotAState` if the value does not encode a state.
    #[tactic(auto, using(crate::proofs::ReadStates::read))]
    pub fn from_value(_alloc: Global, value: &Value) -> std::result::Result<Self, ValueError>
        ensures answer { Reads (EncodesState (view value.now)) result }
        ensures no_memory { IfErr result (λ error. error ≢ ValueError.OutOfMemory) }
    {
        NodeState::decode(value).ok_or(ValueError::NotAState)
    }

    /// Decodes a state. Returns `None` if the value does not encode a state.
    fn decode(value: &Value) -> Option<NodeState>
        ensures { result ≡ decoded_state (view value.now) }
    {
        match value.as_str() {
            Some("Free") => Some(NodeState::Free),
            Some("Allocated") => Some(NodeState::Allocated),
            _ => None,
        }
    }
}

/// Decodes the state in the field `name`. Returns `None` if there is no state.
pub fn state_in(value: &Value, name: &str) -> Option<NodeState>
    ensures { result ≡ option_and_then decoded_state (get name.now (view value.now)) }
{
    NodeState::decode(value.get(name)?)
}
