//! The errors of calls, with the texts of vm-allocator.
ghost use Rattle.std.specs.Prelude.{◌≡◌, None};
ghost use Rattle.vm_ranges.specs.declared.error.Error.TheVariants.{OutOfMemory};

use crate::range::RangeInclusive;
use crate::state::NodeState;
use std::alloc::{AllocError, AllocFailed};
use thiserror::Error;

/// The error of a call. A call that returns an error leaves the same ranges and ids allocated.
///
/// Errors are ordered by variant, then by fields.
#[derive(Clone, Debug, Drop, PartialEq, Eq, PartialOrd, Ord, Error)]
pub enum Error {
    /// A range would end at or past `u64::MAX`, too few ids of a range up to `u32::MAX` are free, or too
    /// many ranges are allocated for a split.
    #[error("Management operations on desired resource resulted in overflow.")]
    Overflow,
    /// The id is outside the range of the allocator.
    #[error("Specified id: {0} is not in the range.")]
    OutOfRange(u32),
    /// The id to free was freed and was not allocated since.
    #[error("Specified id: {0} is already released.")]
    AlreadyReleased(u32),
    /// The id to free was never allocated, or no device has the id to release.
    #[error("Specified id: {0} was never allocated, can't release it.")]
    NeverAllocated(u32),
    /// No range is free for the request, the range to free is not allocated, too few ids are free, or
    /// the requested id is already allocated.
    #[error("The requested resource is not available.")]
    ResourceNotAvailable,
    /// The start is past the end, or the range would contain all 2^64 addresses.
    #[error("The range specified: {0}-{1} is not valid.")]
    InvalidRange(u64, u64),
    /// The alignment is not a power of two.
    #[error("Alignment value is invalid.")]
    InvalidAlignment,
    /// The first range overlaps the second, which is already in a tree.
    #[error("Addresses are overlapping.{0:?} intersects with existing {1:?}")]
    Overlap(RangeInclusive, RangeInclusive),
    /// Exactly the requested range is already allocated.
    #[error("Invalid state transition for node {0:?} from {1:?} to NodeState::Free")]
    InvalidStateTransition(RangeInclusive, NodeState),
    /// The requested start is not a multiple of the alignment.
    #[error("The address is not aligned.")]
    UnalignedAddress,
    /// A space without addresses is requested.
    #[error("Management operations on desired resource resulted in underflow.")]
    Underflow,
    /// The requested size is 0.
    #[error("The specified size: {0} is not valid.")]
    InvalidSize(u64),
    /// An allocation of memory failed.
    #[error("There is not enough memory.")]
    OutOfMemory,
}

impl From<AllocError> for Error {
    ghost from_gives = { λ _ e. e ≡ OutOfMemory };

    fn from(_error: AllocError) -> Error {
        Error::OutOfMemory
    }
}

impl<T: Drop> From<AllocFailed<T>> for Error {
    ghost from_gives = { λ _ e. e ≡ OutOfMemory };

    fn from(_error: AllocFailed<T>) -> Error {
        Error::OutOfMemory
    }
}

/// The error of a call with a list. It names the item of the list that failed.
#[derive(Clone, Debug, Drop, PartialEq, Eq)]
pub struct ListError {
    /// The index of the item that failed, or `None` if no item is the cause.
    pub index: Option<usize>,
    /// The error.
    pub error: Error,
}

impl From<Error> for ListError {
    ghost from_gives = { λ error failure. failure ≡ record { index = None; error = error } };

    fn from(error: Error) -> ListError {
        ListError { index: None, error }
    }
}

impl From<AllocError> for ListError {
    ghost from_gives = { λ _ failure. failure ≡ record { index = None; error = OutOfMemory } };

    fn from(error: AllocError) -> ListError {
        ListError::from(Error::from(error))
    }
}

impl From<ListError> for Error {
    ghost from_gives = { λ failure error. error ≡ failure.error };

    fn from(failure: ListError) -> Error {
        failure.error
    }
}

/// The result of a call: a value or an [`Error`].
pub type Result<T> = std::result::Result<T, Error>;
