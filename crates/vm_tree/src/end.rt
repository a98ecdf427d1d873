//! An end of some things in ascending order.

/// An end of some things in ascending order: places, leaves, or the children of a node.
#[derive(Clone, Copy)]
pub enum End {
    /// The lowest one.
    First,
    /// The highest one.
    Last,
}
