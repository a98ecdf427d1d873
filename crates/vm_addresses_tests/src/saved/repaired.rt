//! Tests of address allocators that are read with repairs.
//!
//! They guard against a range that is lost or changed, and against a repair of what no bug of vm-allocator
//! led to.
use super::*;

/// The allocator that a value encodes with repairs: the base and the size of the space, and its
/// allocated ranges.
type Stated<'a> = Option<(u64, u64, &'a [(u64, u64)])>;

/// Returns the allocator of a space with these allocated ranges.
fn with_held(
    rt: &(impl Abort + AllocGlobal),
    base: u64,
    size: u64,
    held: &[(u64, u64)],
) -> AddressAllocator {
    let mut space = made(rt, base, size);
    for (start, end) in held {
        hold(rt, &mut space, *start, range(rt, *start, *end).len());
    }
    space
}

/// Checks that the value of the text is rejected without repairs, and encodes this with repairs.
pub(super) fn assert_repaired(rt: &(impl Abort + AllocGlobal), text: &str, want: Stated<'_>) {
    assert_refused(rt, text);
    let answer = AddressAllocator::from_value_repaired(rt.alloc(), &parsed(rt, text));
    match want {
        None => expect_no_state(rt, answer, &text),
        Some((base, size, held)) => {
            expect_space(rt, answer, &with_held(rt, base, size, held), text);
        }
    }
}

#[test]
fn repaired_as_encoded(rt: HostRuntime) {
    for (text, want) in [
        // A lost tree. Two free neighbours. A gap on each side of a key, and a wrong height.
        (
            r#"{"address_space":{"start":1,"end":16},"interval_tree":{"root":null}}"#,
            Some((1, 16, &[][..])),
        ),
        (
            r#"{"address_space":{"start":16,"end":19},"interval_tree":{"root":null}}"#,
            Some((16, 4, &[][..])),
        ),
        (
            r#"{"address_space":{"start":16,"end":19},"interval_tree":{"root":{
                "key":{"start":16,"end":17},"node_state":"Free","left":null,"right":{
                "key":{"start":18,"end":19},"node_state":"Free","left":null,"right":null,"height":1},
                "height":2}}}"#,
            Some((16, 4, &[][..])),
        ),
        (ONE_BETWEEN_GAPS, Some((16, 4, &[(17, 17)][..]))),
        // An address in two keys. A key that leaves the space, and a key outside it.
        (
            r#"{"address_space":{"start":16,"end":19},"interval_tree":{"root":{
                "key":{"start":16,"end":18},"node_state":"Free","left":null,"right":{
                "key":{"start":18,"end":19},"node_state":"Allocated","left":null,"right":null,
                "height":1},"height":2}}}"#,
            None,
        ),
        (
            r#"{"address_space":{"start":16,"end":19},"interval_tree":{"root":{
                "key":{"start":16,"end":20},"node_state":"Allocated","left":null,"right":null,
                "height":1}}}"#,
            None,
        ),
        (
            r#"{"address_space":{"start":1,"end":16},"interval_tree":{"root":{
                "key":{"start":100,"end":200},"node_state":"Free","left":null,"right":null,"height":1}}}"#,
            None,
        ),
        // The highest address, allocated and free.
        (
            r#"{"address_space":{"start":1,"end":18446744073709551615},"interval_tree":{"root":{
                "key":{"start":18446744073709551615,"end":18446744073709551615},
                "node_state":"Allocated","left":null,"right":null,"height":1}}}"#,
            None,
        ),
        (
            r#"{"address_space":{"start":1,"end":18446744073709551615},"interval_tree":{"root":{
                "key":{"start":18446744073709551615,"end":18446744073709551615},
                "node_state":"Free","left":null,"right":null,"height":1}}}"#,
            Some((1, u64::MAX, &[][..])),
        ),
    ] {
        assert_repaired(&rt, text, want);
    }
}

/// The space [16, 19] with [17, 17] allocated, without its neighbours and with a wrong height.
const ONE_BETWEEN_GAPS: &str = r#"{"address_space":{"start":16,"end":19},"interval_tree":{"root":{
    "key":{"start":17,"end":17},"node_state":"Allocated","left":null,"right":null,"height":7}}}"#;

#[test]
fn repaired_to_blocks(rt: HostRuntime) {
    let value = parsed(&rt, ONE_BETWEEN_GAPS);
    let space = AddressAllocator::from_value_repaired(rt.alloc(), &value);
    let space = space.expect(&rt, ONE_BETWEEN_GAPS);
    let counts = (block_count(&rt, &space), space.height());
    expect_eq(&rt, counts, (3, 1), "blocks and height");
}
