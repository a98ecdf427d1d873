//! The id that a request would allocate.
ghost use Rattle.std.specs.Prelude.{IfOk};
ghost use Rattle.vm_ids.specs.Ids.{IsNotHeld};
ghost use Rattle.vm_ids.specs.IdRequests.{Peeks};
ghost use Rattle.vm_ids.specs.declared.id_request.IdRequest.TheVariants.{LowestIn, Exact};

use super::IdAllocator;
use crate::id_request::IdRequest;
use vm_ranges::{Error, Result};

impl IdAllocator {
    /// Returns the id that the request would allocate if memory suffices, and does not allocate it.
    ///
    /// # Errors
    ///
    /// - Those of [`allocate_id`](Self::allocate_id), [`allocate_in`](Self::allocate_in) or
    ///   [`allocate_exact`](Self::allocate_exact), but never `OutOfMemory`.
    #[tactic(auto, using(crate::proofs::Ids::PeekedIds::peeks))]
    pub fn peek(&self, request: IdRequest) -> Result<u32>
        ensures answer { Peeks self.now request result }
        ensures free { IfOk result (λ id. IsNotHeld self.now id) }
    {
        match request {
            IdRequest::Lowest => self.peek_id(),
            IdRequest::LowestIn(first, last) => self.peek_in(first, last),
            IdRequest::Exact(id) => self.peek_exact(id),
        }
    }

    /// Returns the id that [`allocate_in`](Self::allocate_in) would allocate.
    #[tactic(auto, using(crate::proofs::Ids::PeekedIds::in_window))]
    pub(super) fn peek_in(&self, first: u32, last: u32) -> Result<u32>
        ensures { Peeks self.now (LowestIn first last) result }
    {
        if last < first {
            return Err(Error::InvalidRange(first.into(), last.into()));
        }
        self.lowest_in(first, last)
            .ok_or(Error::ResourceNotAvailable)
    }

    /// Returns the id if [`allocate_exact`](Self::allocate_exact) would allocate it.
    #[tactic(auto, using(crate::proofs::Ids::PeekedIds::given))]
    fn peek_exact(&self, id: u32) -> Result<u32>
        ensures { Peeks self.now (Exact id) result }
    {
        if !self.id_in_range(id) {
            return Err(Error::OutOfRange(id));
        }
        if self.is_allocated(id) {
            return Err(Error::ResourceNotAvailable);
        }
        Ok(id)
    }
}
