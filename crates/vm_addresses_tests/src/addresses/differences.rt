//! Guards against the bugs of vm-allocator: the smallest example of each of the first eight rows of
//! docs/DIFFERENCES.md, with the results of this port.
use super::*;

#[test]
fn departures(rt: HostRuntime) {
    let rows = &[
        // 1: DIFFERENCES.md: "`ExactMatch` allocates a part of an allocated range again |
        // `ResourceNotAvailable`"
        (Space(0, 2), Range(0, 1)),
        (First(2, 1), Range(0, 1)),
        (Exact(1, 1, 0), NotAvailable),
        // 2: DIFFERENCES.md: "`ExactMatch` fails for the last address of a block, and for a block of one
        // address | It succeeds. A range that ends at `u64::MAX` stays `Overflow`, even if another is
        // free"
        (Space(0, 1), Range(0, 0)),
        (Exact(1, 1, 0), Range(0, 0)),
        (Space(0, 2), Range(0, 1)),
        (Exact(1, 1, 1), Range(1, 1)),
        (Space(MAX, 1), Range(MAX, MAX)),
        (Exact(1, 1, MAX), Overflow),
        // 3: DIFFERENCES.md: "An allocated range of one address, requested again by its start, is
        // `ResourceNotAvailable` | `InvalidStateTransition`, as for any allocated range"
        (Space(0, 1), Range(0, 0)),
        (Exact(1, 1, 0), Range(0, 0)),
        (Exact(1, 1, 0), Held(0, 0)),
        // 4: DIFFERENCES.md: "`ExactMatch` at the last address of a block is `ResourceNotAvailable` if its
        // end would pass `u64::MAX` | `Overflow`"
        (Space(2, 1), Range(2, 2)),
        (Exact(MAX, 1, 2), Overflow),
        // 5: DIFFERENCES.md: "`LastMatch` does not fill a whole free block that starts at 0 | It does"
        (Space(0, 1), Range(0, 0)),
        (Last(1, 1), Range(0, 0)),
        // 6: DIFFERENCES.md: "`free` does not join a free neighbour of one address | It does"
        (Space(2, 2), Range(2, 3)),
        (First(1, 1), Range(2, 2)),
        (First(1, 1), Range(3, 3)),
        (Free(2, 2), Range(2, 2)),
        (Free(3, 3), Range(3, 3)),
        (First(2, 1), Range(2, 3)),
        // 7: DIFFERENCES.md: "Freeing a range from 1 is `Underflow`, and one to `u64::MAX - 1` is
        // `Overflow`. The range is lost | Both succeed"
        (Space(1, 1), Range(1, 1)),
        (First(1, 1), Range(1, 1)),
        (Free(1, 1), Range(1, 1)),
        (First(1, 1), Range(1, 1)),
        (Space(LAST, 1), Range(LAST, LAST)),
        (First(1, 1), Range(LAST, LAST)),
        (Free(LAST, LAST), Range(LAST, LAST)),
        (First(1, 1), Range(LAST, LAST)),
        // 8: DIFFERENCES.md: "A range that is exactly a gap can be freed, against the documentation |
        // `ResourceNotAvailable`"
        (Space(0, 1), Range(0, 0)),
        (Free(0, 0), NotAvailable),
    ];
    replay_in(&rt, 0, 1, rows);
}
