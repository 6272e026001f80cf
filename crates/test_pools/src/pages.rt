// Pages that are taken and given back: by one seat, by two, and by two threads.
ghost use Rattle.std.specs.Prelude.{Contains, IfSome, ℕ};
ghost use Rattle.page_pool.specs.Ruled.{IsPage};
ghost use Rattle.page_pool.specs.Seats.{IsSeatOf, key, view};

use page_pool::{NoPage, Page, Pool, PoolSeat};
use std::alloc::Global;
use std::test::Fail;
use std::thread;
use std::thread::{Threads, join};
use test_rows::{fields, numbers, short};

/// Whether so many takes by this seat answer the pages in order, each of so many bytes, and the next one that there is none.
fn takes_in_order(pool: &Pool, seat: &mut PoolSeat, pages: u32, size: usize) -> bool
    requires { IsSeatOf pool.now seat.old }
{
    for number in 0..pages {
        let Ok(page) = pool.take(seat) else {
            return false;
        };
        if page.number() != number || page.bytes().len() != size {
            return false;
        }
    }
    pool.take(seat).is_err()
}

// How many pages a pool has, and how many bytes each page has.
const POOLS: &str = "\
1 1
1 512
2 512
3 0
64 512
288 33";

/// Whether the pages of such a pool are taken in order.
fn are_in_order(alloc: Global, row: &str) -> Option<bool> {
    let [pages, size] = numbers::<2>("", row)?;
    let (pages, size) = (short(pages), size as usize);
    if pages == 0 {
        return None;
    }
    let (pool, mut seat) = Pool::new(alloc, pages, size).ok()?;
    Some(takes_in_order(&pool, &mut seat, pages, size))
}

#[test]
fn pages_are_taken_in_order(rt: HostRuntime) {
    assert_eq!(rt; POOLS.lines().count(), 6);
    for row in POOLS.lines() {
        assert!(rt; are_in_order(rt.alloc(), row) == Some(true), "{row}");
    }
}

/// The number of the page that a take answers, which is then held to the end.
fn taken(pool: &Pool, seat: &mut PoolSeat) -> Result<u32, NoPage>
    requires { IsSeatOf pool.now seat.old }
    ensures own { IsSeatOf pool.now seat.new }
    ensures kept { (m : ℕ) → Contains (view seat.old).held m → Contains (view seat.new).held m }
{
    match pool.take(seat) {
        Ok(page) => Ok(page.number()),
        Err(NoPage) => Err(NoPage),
    }
}

/// What takes of one seat answer, by the numbers of the pages: two of them, a third, one more once a page was given back, and one
/// after that.
#[derive(Debug, Drop, PartialEq)]
struct Numbers {
    first: u32,
    second: u32,
    third: Result<u32, NoPage>,
    again: Result<u32, NoPage>,
    last: Result<u32, NoPage>,
}

/// A seat takes both pages of a pool, looks for a third one, and gives the first or the second back. What all takes answer.
fn takes_again(alloc: Global, gives_first: bool) -> Option<Numbers> {
    let (pool, mut seat) = Pool::new(alloc, 2, 8).ok()?;
    let Ok(first) = pool.take(&mut seat) else {
        return None;
    };
    let Ok(second) = pool.take(&mut seat) else {
        return None;
    };
    let numbers = (first.number(), second.number());
    let third = taken(&pool, &mut seat);
    let given = if gives_first { first } else { second };
    pool.give(&mut seat, given);
    Some(Numbers {
        first: numbers.0,
        second: numbers.1,
        third,
        again: taken(&pool, &mut seat),
        last: taken(&pool, &mut seat),
    })
}

#[test]
fn a_page_that_was_given_back_is_taken_next(rt: HostRuntime) {
    for (gives_first, number) in [(true, 0), (false, 1)] {
        let wanted = Numbers {
            first: 0,
            second: 1,
            third: Err(NoPage),
            again: Ok(number),
            last: Err(NoPage),
        };
        assert!(rt;
            takes_again(rt.alloc(), gives_first) == Some(wanted),
            "{number}"
        );
    }
}

/// A seat, and the page that it took.
#[derive(Drop)]
struct Hand {
    seat: PoolSeat,
    page: Option<Page>,
}

/// Takes a page, or gives the one back that was taken. Its number, or why there is none.
fn act(alloc: Global, pool: &Pool, hand: &mut Hand, action: &str) -> Option<String>
    requires own { IsSeatOf pool.now hand.old.seat }
    requires holds { IfSome hand.old.page (λ page. Contains (view hand.old.seat).held page.number × IsPage (key pool.now) page.number page) }
    ensures own { IsSeatOf pool.now hand.new.seat }
    ensures holds { IfSome hand.new.page (λ page. Contains (view hand.new.seat).held page.number × IsPage (key pool.now) page.number page) }
{
    match (action, hand.page.take()) {
        ("take", None) => match pool.take(&mut hand.seat) {
            Ok(page) => {
                let number = page.number();
                hand.page = Some(page);
                format!(in alloc; "{number}").ok()
            }
            Err(NoPage) => String::from_str(alloc, "none").ok(),
        },
        ("give", Some(page)) => {
            let number = page.number();
            pool.give(&mut hand.seat, page);
            format!(in alloc; "{number}").ok()
        }
        _ => None,
    }
}

// How many pages a pool has, and what two seats do in turn, each with what comes of it: the number of the page that is taken or
// given back, or that there was none.
const TURNS: &str = "\
1;a take 0,b take none,a give 0,b take 0,a take none,b give 0,a take 0
2;a take 0,b take 1,a give 0,a take 0,b give 1,a give 0,b take 0,a take 1
3;b take 0,a take 1,b give 0,b take 0,a give 1,a take 1";

/// Whether a turn of one of the two comes out as it says.
fn comes_out(alloc: Global, pool: &Pool, a: &mut Hand, b: &mut Hand, turn: &str) -> Option<bool>
    requires own { IsSeatOf pool.now a.old.seat × IsSeatOf pool.now b.old.seat }
    requires first { IfSome a.old.page (λ page. Contains (view a.old.seat).held page.number × IsPage (key pool.now) page.number page) }
    requires second { IfSome b.old.page (λ page. Contains (view b.old.seat).held page.number × IsPage (key pool.now) page.number page) }
    ensures own { IsSeatOf pool.now a.new.seat × IsSeatOf pool.now b.new.seat }
    ensures first { IfSome a.new.page (λ page. Contains (view a.new.seat).held page.number × IsPage (key pool.now) page.number page) }
    ensures second { IfSome b.new.page (λ page. Contains (view b.new.seat).held page.number × IsPage (key pool.now) page.number page) }
{
    let (who, rest) = turn.split_once(' ')?;
    let (action, wanted) = rest.split_once(' ')?;
    if who == "a" {
        Some(act(alloc, pool, a, action)?.as_str() == wanted)
    } else {
        Some(act(alloc, pool, b, action)?.as_str() == wanted)
    }
}

/// Whether two seats of a new pool do what a row says, with what comes of it.
fn is_as_tabled(alloc: Global, row: &str) -> Option<bool> {
    let (pages, turns) = fields(row)?;
    let pages = pages.parse().ok()?;
    if pages == 0 {
        return None;
    }
    let (pool, mut seat) = Pool::new(alloc, pages, 8).ok()?;
    let other = pool.split(&mut seat);
    let mut a = Hand { seat, page: None };
    let mut b = Hand {
        seat: other,
        page: None,
    };
    for turn in turns.split(',') {
        if !comes_out(alloc, &pool, &mut a, &mut b, turn)? {
            return Some(false);
        }
    }
    Some(true)
}

#[test]
fn two_seats_share_the_pages(rt: HostRuntime) {
    assert_eq!(rt; TURNS.lines().count(), 3);
    for row in TURNS.lines() {
        assert!(rt; is_as_tabled(rt.alloc(), row) == Some(true), "{row}");
    }
}

/// Two seats take the pages from this number on in turn, hold them all at once, and give them back: the last pair first, and of
/// each pair the lower page first. Whether each take answered the next number, and each page had the byte still that was written
/// into it.
fn take_turns(pool: &Pool, a: &mut PoolSeat, b: &mut PoolSeat, from: u32, pages: u32) -> bool
    requires own { IsSeatOf pool.now a.old × IsSeatOf pool.now b.old }
    ensures own { IsSeatOf pool.now a.new × IsSeatOf pool.now b.new }
    ensures first { (m : ℕ) → Contains (view a.old).held m → Contains (view a.new).held m }
    ensures second { (m : ℕ) → Contains (view b.old).held m → Contains (view b.new).held m }
{
    if from >= pages {
        return true;
    }
    let Ok(mut lower) = pool.take(a) else {
        return false;
    };
    let Ok(mut upper) = pool.take(b) else {
        return false;
    };
    let marks = ((from % 251) as u8, (from % 241) as u8);
    lower.bytes_mut().fill(marks.0);
    upper.bytes_mut().fill(marks.1);
    let are_right = take_turns(pool, a, b, from.saturating_add(2), pages);
    let are_next = lower.number() == from && upper.number() == from.saturating_add(1);
    let are_kept = are_all(lower.bytes(), marks.0) & are_all(upper.bytes(), marks.1);
    pool.give(a, lower);
    pool.give(b, upper);
    are_right && are_next && are_kept
}

/// Whether two seats share all pages of such a pool, and one of them takes them in order afterwards.
fn are_shared(alloc: Global, pages: u32) -> Option<bool> {
    if pages == 0 {
        return None;
    }
    let (pool, mut a) = Pool::new(alloc, pages, 33).ok()?;
    let mut b = pool.split(&mut a);
    let are_shared = take_turns(&pool, &mut a, &mut b, 0, pages);
    Some(are_shared && takes_in_order(&pool, &mut a, pages, 33))
}

#[test]
fn pages_are_given_back_in_another_order(rt: HostRuntime) {
    for pages in [2, 4, 288] {
        assert!(rt; are_shared(rt.alloc(), pages) == Some(true), "{pages}");
    }
}

/// Whether all of these bytes are this one.
fn are_all(bytes: &[u8], wanted: u8) -> bool {
    for byte in bytes {
        if *byte != wanted {
            return false;
        }
    }
    true
}

/// A seat takes both pages of a pool, fills each with another byte, and gives the second one back. Whether each has its bytes
/// while it is held, and the second is taken again.
fn fills_two(alloc: Global) -> Option<bool> {
    let (pool, mut seat) = Pool::new(alloc, 2, 512).ok()?;
    let Ok(mut first) = pool.take(&mut seat) else {
        return None;
    };
    let Ok(mut second) = pool.take(&mut seat) else {
        return None;
    };
    first.bytes_mut().fill(7);
    second.bytes_mut().fill(9);
    let are_filled = are_all(first.bytes(), 7) & are_all(second.bytes(), 9);
    pool.give(&mut seat, second);
    let Ok(again) = pool.take(&mut seat) else {
        return None;
    };
    Some(are_filled && again.number() == 1 && are_all(first.bytes(), 7))
}

#[test]
fn pages_have_what_was_written(rt: HostRuntime) {
    assert!(rt; fills_two(rt.alloc()) == Some(true));
}

/// Takes a page again and again, fills it with this byte, lets others run, and gives it back. How often it was found with
/// another byte, and how often a page was taken.
fn fill_and_look(pool: &Pool, mut seat: PoolSeat, mark: u8) -> (u32, u32)
    requires { IsSeatOf pool.now seat }
{
    let (mut others, mut taken) = (0u32, 0u32);
    for _turn in 0..100 {
        let Ok(mut page) = pool.take(&mut seat) else {
            thread::yield_now();
            continue;
        };
        page.bytes_mut().fill(mark);
        thread::yield_now();
        if !are_all(page.bytes(), mark) {
            others = others.saturating_add(1);
        }
        taken = taken.saturating_add(1);
        pool.give(&mut seat, page);
    }
    (others, taken)
}

/// Two threads share the pages of a pool. Whether each finds what it wrote itself, and some thread takes a page.
fn threads_share<R: Threads + Sync>(rt: &R, alloc: Global, pages: u32) -> Option<bool> {
    if pages == 0 {
        return None;
    }
    let (pool, mut seat) = Pool::new(alloc, pages, 64).ok()?;
    let other = pool.split(&mut seat);
    let pool = &pool;
    let ((first, some), (second, more)) = join(
        rt,
        move || fill_and_look(pool, seat, 1),
        move || fill_and_look(pool, other, 2),
    );
    Some(first == 0 && second == 0 && some.saturating_add(more) > 0)
}

#[test]
fn threads_find_what_they_wrote(rt: HostRuntime) {
    for pages in [1, 2] {
        assert!(rt;
            threads_share(&rt, rt.alloc(), pages) == Some(true),
            "{pages}"
        );
    }
}
