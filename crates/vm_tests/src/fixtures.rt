//! Functions that the tests share.
use serde_json::Value;
use std::alloc::Global;
use std::fmt::Debug;
use std::process::Abort;
use vm_allocator::allocation_engine::NodeState;
use vm_allocator::{AddressAllocator, IdAllocator, RangeInclusive, ValueError};
use vm_devices::DeviceManager;

/// The number of bytes that `fail_from_here` allocates. Nothing else allocates this number.
/// tests/refused_memory reads it here.
const LAST_ALLOCATION: usize = 1_000_003;

/// The message if memory runs out.
pub(crate) const ENOUGH: &str = "there is enough memory";

/// Ends the test if a result is not the expected one. The message contains `of`.
pub(crate) fn expect_eq<T: PartialEq + Debug + Drop>(
    rt: &impl Abort,
    got: T,
    want: T,
    of: impl Debug + Drop,
) {
    assert!(rt; got == want, "{of:?}: {got:?} where {want:?} is due");
}

/// Ends the test if `is_true` is false. The message contains `of`.
pub(crate) fn expect_true(rt: &impl Abort, is_true: bool, of: impl Debug + Drop) {
    assert!(rt; is_true, "{of:?} is not so");
}

/// Returns the range from one address to another.
pub(crate) fn range(rt: &impl Abort, start: u64, end: u64) -> RangeInclusive {
    RangeInclusive::new(start, end).expect(rt, "it is a range")
}

/// Allocates, whether that fails or not. tests/refused_memory makes every later allocation fail.
pub(crate) fn fail_from_here(alloc: Global) {
    let _ = Vec::<u8>::with_capacity(alloc, LAST_ALLOCATION);
}

/// Creates the allocator of a space.
pub(crate) fn made(rt: &(impl Abort + AllocGlobal), base: u64, size: u64) -> AddressAllocator {
    AddressAllocator::new(rt.alloc(), base, size).expect(rt, ENOUGH)
}

/// Parses the value of a text.
pub(crate) fn parsed(rt: &(impl Abort + AllocGlobal), text: &str) -> Value {
    Value::from_str(rt.alloc(), text).expect(rt, ENOUGH)
}

/// Returns the items of a list.
pub(crate) fn items<'a>(rt: &impl Abort, list: &'a Value) -> &'a [Value] {
    list.as_array().expect(rt, "it is a list").as_slice()
}

/// A reader of values.
#[derive(Clone, Copy, Debug)]
pub(crate) enum Reader {
    Range,
    State,
    Space,
    Repaired,
    Ids,
    Manager,
}

impl Reader {
    /// Returns the error of reading the value once.
    fn refusal(self, alloc: Global, value: &Value) -> Option<ValueError> {
        match self {
            Reader::Range => RangeInclusive::from_value(alloc, value).err(),
            Reader::State => NodeState::from_value(alloc, value).err(),
            Reader::Space => AddressAllocator::from_value(alloc, value).err(),
            Reader::Repaired => AddressAllocator::from_value_repaired(alloc, value).err(),
            Reader::Ids => IdAllocator::from_value(alloc, value).err(),
            Reader::Manager => DeviceManager::from_value(alloc, value).err(),
        }
    }
}

/// Checks that this reader rejects the value. The message contains `of`.
pub(crate) fn expect_refused(
    rt: &(impl Abort + AllocGlobal),
    reader: Reader,
    value: &Value,
    of: &impl Debug,
) {
    let refusal = reader.refusal(rt.alloc(), value);
    assert!(rt;
        refusal == Some(ValueError::NotAState),
        "{reader:?} of {of:?}"
    );
}

/// Replaces the part at a path of a value, and returns the old part.
pub(crate) fn put(rt: &impl Abort, value: &mut Value, place: &str, part: Value) -> Value {
    let there = value.pointer_mut(place).expect(rt, "it has the place");
    let old = there.take();
    *there = part;
    old
}

/// Returns nested copies of a node. Each has one address as its key and the copy before it at
/// `side`. The keys increase from 0, or decrease from `first`, the key of the innermost node.
pub(crate) fn chain(
    rt: &(impl Abort + AllocGlobal),
    node: &str,
    keys: u64,
    first: u64,
    side: &str,
) -> Value {
    let mut chain = Value::Null;
    for number in 0..keys {
        let mut outer = parsed(rt, node);
        let key = first.abs_diff(number);
        put(rt, &mut outer, "/key/start", Value::from(key));
        put(rt, &mut outer, "/key/end", Value::from(key));
        put(rt, &mut outer, side, chain);
        chain = outer;
    }
    chain
}
