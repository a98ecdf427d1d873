//! Requests for a range of addresses. A `Constraint` is always valid.
ghost use Rattle.std.specs.Prelude.{◌≡◌, Some};
ghost use Rattle.vm_ranges.specs.Alignment.{IsAlignment};
ghost use Rattle.vm_ranges.specs.Cases.{IsTestOf};
ghost use Rattle.vm_ranges.specs.Request.{request_for, MakesConstraint, MakesLimits, IsStartAligned, IsRequest};

use crate::error::{Error, Result};
use crate::range::RangeInclusive;
use std::marker::Model;

/// The alignment for requests that need no particular alignment.
pub const DEFAULT_CONSTRAINT_ALIGN: u64 = 4;

/// The policy that chooses a free range for a request. The default is `FirstMatch`.
#[derive(Clone, Copy, Debug, Default, PartialEq, Eq, Hash)]
pub enum AllocPolicy {
    /// Chooses the lowest range.
    #[default]
    FirstMatch,
    /// Chooses the highest range.
    LastMatch,
    /// Chooses the range with this start.
    ExactMatch(u64),
}

/// Returns `true` if the start of `ExactMatch` is a multiple of the alignment. Returns `true` for the
/// other policies.
#[tactic(auto, unfolding(crate::specs::Request::IsStartAligned), using(crate::proofs::Power::low_bits, crate::proofs::Power::alignment_pos))]
const fn is_start_aligned(align: u64, policy: AllocPolicy) -> bool
    requires { IsAlignment align }
    ensures { IsTestOf result (IsStartAligned align policy) }
{
    match policy {
        AllocPolicy::ExactMatch(start) => start & (align - 1) == 0,
        AllocPolicy::FirstMatch => true,
        AllocPolicy::LastMatch => true,
    }
}

/// A valid request for a range of addresses.
///
/// Its size is at least 1, its alignment is a power of two, and the start of `ExactMatch` is a
/// multiple of the alignment. A request can have a window, in which its range must lie.
#[derive(Clone, Copy, Debug, PartialEq, Eq)]
pub struct Constraint {
    size: u64,
    align: u64,
    policy: AllocPolicy,
    window: Option<RangeInclusive>,
}

impl Model for Constraint {
    ghost use Rattle.vm_ranges.specs.Request.{Request, IsRequest};

    ghost Value = { Request };

    ghost view = { λ a. record { size = a.size; align = a.align; policy = a.policy; window = a.window } };

    ghost invariant = { λ a. IsRequest (record { size = a.size; align = a.align; policy = a.policy; window = a.window }) };

    ghost inverse = { λ d. record { size = d.size; align = d.align; policy = d.policy; window = d.window } };
}

/// If this many ranges are allocated, no gap is split. So no tree gets too high.
pub const SPLIT_LIMIT: u64 = 6_293_134_512;

impl Constraint {
    /// Creates a request for `size` addresses that start at a multiple of `align`.
    ///
    /// # Errors
    ///
    /// In this order:
    /// - `InvalidSize(0)` if `size` is 0.
    /// - `InvalidAlignment` if `align` is not a power of two.
    /// - `UnalignedAddress` if the start of `ExactMatch` is not a multiple of `align`.
    #[tactic(auto, using(crate::proofs::Requests::constrains, crate::proofs::Power::alignment_if_true))]
    pub const fn new(size: u64, align: u64, policy: AllocPolicy) -> Result<Self>
        ensures { MakesConstraint (request_for size align policy) result }
    {
        if size == 0 {
            return Err(Error::InvalidSize(0));
        }
        if !align.is_power_of_two() {
            return Err(Error::InvalidAlignment);
        }
        if !is_start_aligned(align, policy) {
            return Err(Error::UnalignedAddress);
        }
        Ok(Constraint {
            size,
            align,
            policy,
            window: None,
        })
    }

    /// Returns this request with a window: its range must lie in the window.
    ///
    /// `FirstMatch` then chooses the lowest range in the window, and `LastMatch` the highest.
    /// `ExactMatch` keeps its start. A window replaces the window that the request had.
    pub const fn within(self, window: RangeInclusive) -> Self
        ensures { result ≡ record self { window = Some window } }
    {
        Constraint {
            window: Some(window),
            ..self
        }
    }

    /// Returns this request with the window from `low` to `high`, both included. Its range must lie in
    /// the window.
    ///
    /// `low` 0 is no lower limit, and `high` `u64::MAX` is no upper limit. With neither limit the
    /// request has no window. These limits replace the window that the request had.
    ///
    /// # Errors
    ///
    /// - `InvalidRange(low, high)` if `high` is below `low`.
    pub const fn within_limits(self, low: u64, high: u64) -> Result<Self>
        ensures { MakesLimits self low high result }
    {
        if low == 0 && high == u64::MAX {
            return Ok(Constraint {
                window: None,
                ..self
            });
        }
        match RangeInclusive::new(low, high) {
            Ok(window) => Ok(self.within(window)),
            Err(error) => Err(error),
        }
    }

    /// Returns the alignment: the first address of the range is a multiple of it.
    pub const fn align(self) -> u64
        ensures { result ≡ self.align }
    {
        self.align
    }

    /// Returns the number of requested addresses.
    pub const fn size(self) -> u64
        ensures value { result ≡ self.size }
        ensures valid { IsRequest self }
    {
        self.size
    }

    /// Returns the window in which the range must lie, or `None` if there is none.
    pub const fn window(self) -> Option<RangeInclusive>
        ensures { result ≡ self.window }
    {
        self.window
    }

    /// Returns the policy that chooses the range.
    pub const fn policy(self) -> AllocPolicy
        ensures { result ≡ self.policy }
    {
        self.policy
    }
}
