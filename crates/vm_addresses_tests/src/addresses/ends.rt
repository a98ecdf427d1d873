//! Guards against sums that wrap, in spaces at both ends of all addresses.
use super::*;

#[test]
fn ends_of_all_addresses(rt: HostRuntime) {
    let rows = &[
        (Last(1, 1), Overflow),
        (Last(1, 2), Range(LAST, LAST)),
        (Free(LAST, LAST), Range(LAST, LAST)),
        (First(MAX, 1), Overflow),
        (First(LAST, 1), Range(1, LAST)),
        (First(1, 1), Overflow),
        (Free(1, LAST), Range(1, LAST)),
        (First(1, HALF), Range(HALF, HALF)),
        (First(1, HALF), NotAvailable),
        (Free(HALF, HALF), Range(HALF, HALF)),
        (Exact(HALF, HALF, HALF), Overflow),
        (First(HALF, HALF), Overflow),
        (Space(1, MAX), Range(1, MAX)),
        // All addresses except the highest.
        (Space(0, MAX), Range(0, LAST)),
        (First(1, 1), Range(0, 0)),
        (Last(1, 1), Range(LAST, LAST)),
        (Free(0, 0), Range(0, 0)),
        (Free(LAST, LAST), Range(LAST, LAST)),
        (First(MAX, 1), Range(0, LAST)),
        (Free(0, LAST), Range(0, LAST)),
        // The largest alignment: 0 and its half are the only multiples.
        (Last(1, HALF), Range(HALF, HALF)),
        (First(1, HALF), Range(0, 0)),
        (First(1, HALF), NotAvailable),
        (Space(0, MAX), Range(0, LAST)),
        (Exact(HALF, HALF, HALF), NotAvailable),
        // Only the highest address.
        (Space(MAX, 1), Range(MAX, MAX)),
        (Space(MAX, 2), Overflow),
        (Space(1, 0), Underflow),
        (First(1, 1), Overflow),
        (Exact(1, 1, MAX), Overflow),
        (First(2, 1), NotAvailable),
        (Exact(1, 1, LAST), NotAvailable),
        (Free(MAX, MAX), NotAvailable),
        // An end past all addresses.
        (Space(0x1000, 0x1000), Range(0x1000, 0x1FFF)),
        (Exact(MAX, 1, 0x1FFF), Overflow),
    ];
    replay_in(&rt, 1, MAX, rows);
}
