// Calls of a fetcher over memory, in rows.
use collapse::{Fetcher, MemFetcher};
use std::alloc::Global;
use test_rows::fields;

// A call, and what comes of it: the answer, and what is left in a buffer of four bytes. The fetcher has eight bytes, gives
// pieces of three, and fails at calls 1 and 4.
const CALLS: &str = "\
next;Ok(0) ....
start;Err(Failed) ....
start;Ok(()) ....
next;Ok(3) abc.
next;Err(Failed) ....
next;Ok(3) def.
start;Ok(()) ....
next;Ok(3) abc.
next;Ok(3) def.
next;Ok(2) gh..
next;Ok(0) ....
next;Ok(0) ....";

/// A fetcher of eight bytes that gives pieces of three, and fails calls 1 and 4.
fn fetcher(alloc: Global) -> Option<MemFetcher> {
    let mut fail = Vec::new(alloc);
    fail.push(1).ok()?;
    fail.push(4).ok()?;
    Some(MemFetcher::new(b"abcdefgh".to_vec(alloc).ok()?, 3, fail))
}

/// What a call comes to.
fn told(alloc: Global, fetcher: &mut MemFetcher, call: &str) -> Option<String> {
    let mut buf = *b"....";
    if call == "start" {
        let answer = fetcher.start(b"http://a/b", 9);
        return format!(in alloc; "{answer:?} ....").ok();
    }
    let answer = fetcher.next(&mut buf);
    let left = str::from_utf8(&buf).ok()?;
    format!(in alloc; "{answer:?} {left}").ok()
}

/// Whether the next call comes to what its row says.
fn is_as_tabled(alloc: Global, fetcher: &mut MemFetcher, row: &str) -> Option<bool> {
    let (call, wanted) = fields(row)?;
    Some(told(alloc, fetcher, call)?.as_str() == wanted)
}

#[test]
fn mem_fetcher_gives_its_body_after_each_start(rt: HostRuntime) {
    assert_eq!(rt; CALLS.lines().count(), 12);
    let Some(mut fetcher) = fetcher(rt.alloc()) else {
        assert!(rt; false, "no fetcher");
        return;
    };
    for row in CALLS.lines() {
        assert!(rt;
            is_as_tabled(rt.alloc(), &mut fetcher, row) == Some(true),
            "{row}"
        );
    }
    assert_eq!(rt; fetcher.starts(), 2);
}
