//! The list that is given to a call, with a value for each item.
ghost use Rattle.std.specs.Prelude.{◌≡◌, [], ◌∷◌, ◌++◌, OnOk, OnErr, IfErr, IfOk};

use std::alloc::{AllocError, AllocFailed, Global};
use std::marker::Model;

/// Ranges or requests, with a value for each.
///
/// Its model is the pair of both lists.
#[derive(Debug, Drop)]
pub struct ValuedList<K, T> {
    pub(crate) items: Vec<K>,
    pub(crate) values: Vec<T>,
}

impl<K, T> Model for ValuedList<K, T> {
    ghost use Rattle.std.specs.Prelude.{◌≡◌, List, length};

    ghost Value = { List K × List T };

    ghost view = { λ l. (l.items.items, l.values.items) };

    ghost invariant = { λ l. length l.items.items ≡ length l.values.items };
}

impl<K: Drop, T: Drop> ValuedList<K, T> {
    /// Creates an empty list with this capacity.
    ///
    /// # Errors
    ///
    /// - `AllocError` if an allocation fails.
    pub fn with_capacity(alloc: Global, capacity: usize) -> Result<Self, AllocError>
        ensures { IfOk result (λ list. list ≡ ([], [])) }
    {
        let items = Vec::with_capacity(alloc, capacity)?;
        let values = Vec::with_capacity(alloc, capacity)?;
        Ok(ValuedList { items, values })
    }

    /// Appends an item with its value.
    ///
    /// # Errors
    ///
    /// - `AllocFailed` with the value if an allocation fails. The list is unchanged.
    pub fn push(&mut self, item: K, value: T) -> Result<(), AllocFailed<T>>
        ensures pushed { OnOk result (self.new ≡ (self.old.0 ++ item ∷ [], self.old.1 ++ value ∷ [])) }
        ensures unchanged { OnErr result (self.new ≡ self.old) }
        ensures returned { IfErr result (λ failed. failed.value ≡ value) }
    {
        if self.items.push(item).is_err() {
            return Err(AllocFailed { value });
        }
        if let Err(failed) = self.values.push(value) {
            self.items.pop();
            return Err(failed);
        }
        Ok(())
    }

    /// Returns the items, and their values in the same order.
    pub fn into_lists(self) -> (Vec<K>, Vec<T>)
        ensures { (result.0.items, result.1.items) ≡ self }
    {
        (self.items, self.values)
    }
}
