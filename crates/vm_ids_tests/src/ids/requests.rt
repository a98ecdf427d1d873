//! Tests of the calls that allocate a given id, an id of a window, or several ids.
//!
//! They guard against a call that allocates memory without need.
use super::*;
use Request::{Exact, Left, Several, Window};

/// A request with its expected result.
#[derive(Clone, Copy)]
enum Request {
    Exact(u32, Expected),
    Window(u32, u32, Expected),
    /// Allocates as many ids as are listed, or none if the list is empty.
    Several(&'static [u32]),
    /// Checks the number of free ids.
    Left(u64),
}

/// Makes the requests in turn.
fn request_all(rt: &(impl Abort + AllocGlobal), ids: &mut IdAllocator, requests: &[Request]) {
    for request in requests {
        match *request {
            Exact(id, want) => expect_eq(rt, ids.allocate_exact(id), want.answer(), id),
            Window(first, last, want) => {
                let answer = ids.allocate_in(first, last);
                expect_eq(rt, answer, want.answer(), (first, last));
            }
            Several(want) => {
                let list = ids.allocate_ids(rt.alloc(), want.len()).expect(rt, ENOUGH);
                expect_true(rt, list.as_slice() == want, want);
            }
            Left(want) => expect_eq(rt, ids.free_count(), want, "free"),
        }
    }
}

#[test]
fn requests_without_memory(rt: HostRuntime) {
    let mut ids = made(&rt, 5, 90);
    replay(&rt, &mut ids, &[TakeAll(5, 8)]);
    let requests = &[
        Left(82),
        Exact(7, NotAvailable),
        Exact(4, OutOfRange(4)),
        Exact(9, Id(9)),
        Window(7, 9, NotAvailable),
        Window(0, 23, Id(10)),
        Left(80),
    ];
    fail_from_here(rt.alloc());
    request_all(&rt, &mut ids, requests);
    // The first freed ids allocate memory. The result shows whether the run is without memory.
    let answer = ids.allocate_exact(89);
    let is_true = match &answer {
        Ok(id) => *id == 89 && ids.free_count() == 79,
        Err(Error::OutOfMemory) => ids.free_count() == 80,
        Err(_) => false,
    };
    expect_true(&rt, is_true, answer);
}

#[test]
fn several_ids_without_memory(rt: HostRuntime) {
    let mut ids = made(&rt, 5, 11);
    let calls = &[TakeAll(5, 8), Free(6, Id(6)), Free(7, Id(7))];
    replay(&rt, &mut ids, calls);
    fail_from_here(rt.alloc());
    let too_many = ids.allocate_ids(rt.alloc(), 6).err();
    expect_eq(&rt, too_many, Some(Error::ResourceNotAvailable), "too many");
    let requests = &[Several(&[]), Exact(7, Id(7)), Window(5, 7, Id(6))];
    request_all(&rt, &mut ids, requests);
    let wrong = IdAllocator::with_held(rt.alloc(), 5, 9, &[7, 7]).err();
    expect_eq(&rt, wrong, Some(Error::ResourceNotAvailable), "a wrong id");
    // A list allocates memory. Its result shows whether the run is without memory.
    let is_true = match ids.allocate_ids(rt.alloc(), 2) {
        Ok(list) => list.as_slice() == [9, 10].as_slice() && ids.free_count() == 1,
        Err(Error::OutOfMemory) => ids.free_count() == 3,
        Err(_) => false,
    };
    expect_true(&rt, is_true, "all or none");
}
