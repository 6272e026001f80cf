// Workers that search for a free slot at once, in orders of their steps.
use super::first_word;
use super::search_rows::SEARCHES;
use crate::player::play;
use core_state::Core;
use std::alloc::Global;
use std::process::Abort;
use test_core_kit::{blank_core, numbers, parted};

/// The word of the map that is `F` in an order.
const FULL: &str = "18446744073709551615";

/// What stands in front of the orders of a store, these, and what stands behind them.
#[derive(Clone, Copy)]
struct Searches<'a> {
    head: &'a str,
    rows: &'a str,
    orders: &'a str,
    end: &'a str,
}

/// The parts of a text of `SEARCHES`, and how many orders it says that it has.
fn searches_in(text: &str) -> Option<(Searches, usize)> {
    let (head, text) = parted(text, "\n")?;
    let (rows, text) = parted(text, "\norders ")?;
    let (count, text) = parted(text, "\n")?;
    let (orders, end) = parted(text, "\nend\n")?;
    let searches = Searches {
        head,
        rows,
        orders,
        end,
    };
    Some((searches, count.parse().ok()?))
}

/// The core `store SLOTS ANCHORS PASSES TAKEN`, and the rows by which so many of its slots are taken.
fn store_of(alloc: Global, head: &str) -> Option<(Core, String)> {
    let [slots, anchors, passes, taken] = numbers::<4>(head.strip_prefix("store ")?)?;
    let (slots, anchors) = (u32::try_from(slots).ok()?, u32::try_from(anchors).ok()?);
    let core = blank_core(alloc, slots, anchors, u32::try_from(passes).ok()?)?;
    Some((core, first_word(alloc, u32::try_from(taken).ok()?)?))
}

/// The pass of a worker, and what stands behind its letter.
fn worker_in(text: &str) -> Option<(u32, &str)> {
    let a = text.strip_prefix("A");
    let b = text.strip_prefix("B");
    match (a, b) {
        (Some(rest), _) => Some((5, rest)),
        (None, Some(rest)) => Some((6, rest)),
        (None, None) => Some((7, text.strip_prefix("C")?)),
    }
}

/// The rows of a step, and in front how far the search has come: there is none before a look at word 0, and the step
/// is at its place else.
fn step_rows(alloc: Global, step: &str, found: &str) -> Option<String> {
    let (pass, at) = worker_in(step)?;
    let at: u64 = at.parse().ok()?;
    let (kind, place) = match at {
        0 => (25, None),
        1 => (25, Some(64)),
        slot => (10, Some(slot)),
    };
    let found = if found == "F" { FULL } else { found };
    format!(in alloc; "claim {pass} 0 {place:?}\n{pass} 0 {kind} {at} 0 = {found}\n").ok()
}

/// The rows of a part of an order.
fn part_rows(alloc: Global, part: &str) -> Option<String> {
    if let Some((step, found)) = parted(part, "=") {
        return step_rows(alloc, step, found);
    }
    if let Some((worker, slot)) = parted(part, ":") {
        let (pass, _) = worker_in(worker)?;
        return format!(in alloc; "claim {pass} 0 None\nreserved {pass} 0 [{slot}]\n").ok();
    }
    let (worker, place) = parted(part, ">")?;
    let (pass, _) = worker_in(worker)?;
    format!(in alloc; "claim {pass} 0 Some({place})\nreserved {pass} 0 []\n").ok()
}

/// The rows of an order.
fn order_rows(alloc: Global, order: &str) -> Option<String> {
    let mut rows = format!(in alloc; "stage {order}\n").ok()?;
    let mut made = 0u32;
    for part in order.split(' ') {
        let of_part = part_rows(alloc, part)?;
        rows.push_str(&of_part).ok()?;
        if parted(part, "=").is_some() {
            made = made.saturating_add(1);
        }
    }
    let count = format!(in alloc; "made {made}\n").ok()?;
    rows.push_str(&count).ok()?;
    Some(rows)
}

/// Plays an order over a new core.
fn play_order<R: Abort>(rt: &R, alloc: Global, searches: &Searches, order: &str) {
    let (store, rows) = (store_of(alloc, searches.head), order_rows(alloc, order));
    let (Some((mut core, taken)), Some(rows)) = (store, rows) else {
        assert!(rt; false, "no order is {order}");
        return;
    };
    play(rt, alloc, &mut core, &taken);
    play(rt, alloc, &mut core, searches.rows);
    play(rt, alloc, &mut core, &rows);
    play(rt, alloc, &mut core, searches.end);
}

#[test]
fn workers_that_search_at_once_take_a_slot_each(rt: HostRuntime) {
    assert_eq!(rt; SEARCHES.split("\n\n").count(), 6);
    for text in SEARCHES.split("\n\n") {
        let Some((searches, count)) = searches_in(text) else {
            assert!(rt; false, "no searches are {text}");
            return;
        };
        assert_eq!(rt; searches.orders.lines().count(), count);
        let orders = searches.orders;
        for (order, next) in orders.lines().zip(orders.lines().skip(1)) {
            let ascends = order < next;
            assert!(rt; ascends);
        }
        for order in orders.lines() {
            play_order(&rt, rt.alloc(), &searches, order);
        }
    }
}
