//! Guards against a rounding that wraps, or that rounds a multiple to another one.
use crate::fixtures::expect_eq;
use vm_allocator::Error;
use vm_allocator::allocation_engine::{align_down, align_up};

const MAX: u64 = u64::MAX;

#[test]
fn test_range_align_up(rt: HostRuntime) {
    for (address, alignment, want) in [
        (2, 4, Ok(4)),
        (2, 1, Ok(2)),
        (2, 2, Ok(2)),
        (2, 3, Err(Error::InvalidAlignment)),
        (2, 0, Err(Error::InvalidAlignment)),
        (MAX - 2, 2, Ok(MAX - 1)),
        (MAX - 2, 4, Err(Error::Overflow)),
        (MAX, 3, Err(Error::Overflow)),
        (MAX, 0, Err(Error::InvalidAlignment)),
    ] {
        let answer = align_up(address, alignment);
        expect_eq(&rt, answer, want, (address, alignment));
    }
    expect_eq(&rt, align_down(7, 4), Ok(4), (7, 4));
}
