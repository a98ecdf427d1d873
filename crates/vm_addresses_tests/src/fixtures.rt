//! Functions that the tests share.
use serde_json::Value;
use std::alloc::Global;
use std::fmt::Debug;
use std::process::Abort;
use vm_allocator::{AddressAllocator, AllocPolicy, RangeInclusive, ValueError};

/// The number of bytes that `fail_from_here` allocates. Nothing else allocates this number.
/// tests/refused_memory reads it here.
const LAST_ALLOCATION: usize = 1_000_003;

/// The message if memory runs out.
pub(crate) const ENOUGH: &str = "there is enough memory";

/// Ends the test if a result is not the expected one. The message contains `of`.
pub(crate) fn expect_eq<T: PartialEq + Debug + Drop>(
    rt: &impl Abort,
    got: T,
    want: T,
    of: impl Debug + Drop,
) {
    assert!(rt; got == want, "{of:?}: {got:?} where {want:?} is due");
}

/// Ends the test if `is_true` is false. The message contains `of`.
pub(crate) fn expect_true(rt: &impl Abort, is_true: bool, of: impl Debug + Drop) {
    assert!(rt; is_true, "{of:?} is not so");
}

/// Returns the range from one address to another.
pub(crate) fn range(rt: &impl Abort, start: u64, end: u64) -> RangeInclusive {
    RangeInclusive::new(start, end).expect(rt, "it is a range")
}

/// Allocates, whether that fails or not. tests/refused_memory makes every later allocation fail.
pub(crate) fn fail_from_here(alloc: Global) {
    let _ = Vec::<u8>::with_capacity(alloc, LAST_ALLOCATION);
}

/// Creates the allocator of a space.
pub(crate) fn made(rt: &(impl Abort + AllocGlobal), base: u64, size: u64) -> AddressAllocator {
    AddressAllocator::new(rt.alloc(), base, size).expect(rt, ENOUGH)
}

/// Clones an allocator.
pub(crate) fn cloned(
    rt: &(impl Abort + AllocGlobal),
    space: &AddressAllocator,
) -> AddressAllocator {
    space.try_clone(rt.alloc()).expect(rt, ENOUGH)
}

/// Returns `true` if exactly these ranges are allocated.
pub(crate) fn holds_exactly(space: &AddressAllocator, ranges: &[(u64, u64)]) -> bool {
    let mut held = space.held_ranges();
    if held.len() != ranges.len() {
        return false;
    }
    for range in ranges {
        match held.next() {
            Some(next) if (next.start(), next.end()) == *range => {}
            _ => return false,
        }
    }
    held.next().is_none()
}

/// Returns `true` if exactly these ranges are the gaps.
pub(crate) fn gaps_exactly(space: &AddressAllocator, ranges: &[(u64, u64)]) -> bool {
    let mut gaps = space.gaps();
    if gaps.len() != ranges.len() {
        return false;
    }
    for range in ranges {
        match gaps.next() {
            Some(next) if (next.start(), next.end()) == *range => {}
            _ => return false,
        }
    }
    gaps.next().is_none()
}

/// Parses the value of a text.
pub(crate) fn parsed(rt: &(impl Abort + AllocGlobal), text: &str) -> Value {
    Value::from_str(rt.alloc(), text).expect(rt, ENOUGH)
}

/// Replaces the part at a path of a value.
pub(crate) fn put(rt: &impl Abort, value: &mut Value, place: &str, part: Value) {
    *value.pointer_mut(place).expect(rt, "it has the place") = part;
}

/// Returns the items of a list.
pub(crate) fn items<'a>(rt: &impl Abort, list: &'a Value) -> &'a [Value] {
    list.as_array().expect(rt, "it is a list").as_slice()
}

/// Returns the text of a value.
pub(crate) fn text_of(rt: &(impl Abort + AllocGlobal), value: &Value) -> String {
    value.to_string(rt.alloc()).expect(rt, ENOUGH)
}

/// Returns the saved value of an allocator, with one object for each block.
pub(crate) fn saved(rt: &(impl Abort + AllocGlobal), space: &AddressAllocator) -> Value {
    space.to_value(rt.alloc()).expect(rt, ENOUGH)
}

/// Allocates a range that is free.
pub(crate) fn hold(
    rt: &(impl Abort + AllocGlobal),
    space: &mut AddressAllocator,
    start: u64,
    size: u64,
) {
    let answer = space.allocate(rt.alloc(), size, 1, AllocPolicy::ExactMatch(start));
    assert!(rt; answer.is_ok());
}

/// Returns the allocator of [0, 4095] in which the even addresses up to 30 are allocated. Its 32 blocks
/// fill one leaf.
pub(crate) fn full_leaf(rt: &(impl Abort + AllocGlobal)) -> AddressAllocator {
    let mut space = made(rt, 0, 0x1000);
    for number in 0..16u64 {
        hold(rt, &mut space, number.saturating_mul(2), 1);
    }
    space
}

/// Returns the number of blocks in the tree of an allocator.
pub(crate) fn block_count(rt: &(impl Abort + AllocGlobal), space: &AddressAllocator) -> usize {
    let text = text_of(rt, &saved(rt, space));
    text.as_str().match_indices("node_state").count()
}

/// Checks that the result is an allocator that is equal to this one.
pub(crate) fn expect_space(
    rt: &impl Abort,
    answer: Result<AddressAllocator, ValueError>,
    want: &AddressAllocator,
    of: &str,
) {
    let is_equal = match &answer {
        Ok(space) => space == want && space.gap_count() == want.gap_count(),
        Err(_) => false,
    };
    assert!(rt; is_equal, "{of}");
}
