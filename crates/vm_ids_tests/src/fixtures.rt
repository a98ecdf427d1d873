//! Functions that the tests share.
use serde_json::Value;
use std::alloc::Global;
use std::fmt::Debug;
use std::process::Abort;
use vm_ids::IdAllocator;

/// The number of bytes that `fail_from_here` allocates. Nothing else allocates this number.
/// tests/refused_memory reads it here.
const LAST_ALLOCATION: usize = 1_000_003;

/// The message if memory runs out.
pub(crate) const ENOUGH: &str = "there is enough memory";

/// Ends the test if a result is not the expected one. The message contains `of`.
pub(crate) fn expect_eq<T: PartialEq + Debug + Drop>(
    rt: &impl Abort,
    got: T,
    want: T,
    of: impl Debug + Drop,
) {
    assert!(rt; got == want, "{of:?}: {got:?} where {want:?} is due");
}

/// Ends the test if `is_true` is false. The message contains `of`.
pub(crate) fn expect_true(rt: &impl Abort, is_true: bool, of: impl Debug + Drop) {
    assert!(rt; is_true, "{of:?} is not so");
}

/// Allocates, whether that fails or not. tests/refused_memory makes every later allocation fail.
pub(crate) fn fail_from_here(alloc: Global) {
    let _ = Vec::<u8>::with_capacity(alloc, LAST_ALLOCATION);
}

/// Parses the value of a text.
pub(crate) fn parsed(rt: &(impl Abort + AllocGlobal), text: &str) -> Value {
    Value::from_str(rt.alloc(), text).expect(rt, ENOUGH)
}

/// Returns the items of a list.
pub(crate) fn items<'a>(rt: &impl Abort, list: &'a Value) -> &'a [Value] {
    list.as_array().expect(rt, "it is a list").as_slice()
}

/// Returns the saved value of an id allocator.
pub(crate) fn saved_ids(rt: &(impl Abort + AllocGlobal), ids: &IdAllocator) -> Value {
    ids.to_value(rt.alloc()).expect(rt, ENOUGH)
}
