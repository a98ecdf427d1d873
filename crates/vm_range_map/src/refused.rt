//! The errors of calls that were given values.
use crate::valued_list::ValuedList;
use vm_addresses::{Error, ListError};

/// The error of a call, and the value that it was given. Nothing else has this value.
#[derive(Debug, Drop)]
pub struct Refused<T> {
    pub error: Error,
    pub value: T,
}

/// The error of a call with a list, and the list that it was given.
#[derive(Debug, Drop)]
pub struct RefusedList<K, T> {
    pub error: ListError,
    pub list: ValuedList<K, T>,
}
