// What a pass has at hand before its first step. Its buffers are pages of the pool of its store.
ghost use Rattle.std.specs.Prelude.{◌+◌, ◌*◌, ◌<◌, ◌≤◌, ◌≡◌, IfOk, OnOk, length, vec_len};
ghost use Rattle.page_pool.specs.Seats.{IsSeatOf, key, view};
ghost use Rattle.tab_states.specs.Hands.{AreAllHands, AreDesks, AreHands, TakesInOrder, held_count};

use crate::desks::{Desk, Desks, NO_DRAFT};
use crate::tabs::At;
use core_model::{Row, TABS};
use page_pool::{Pool, PoolSeat, lone_seats_hold_what_is_taken};
use std::alloc::{AllocError, Global};

/// What a pass has at hand before it has a seat.
#[derive(Drop)]
pub struct Hands {
    pub tabs: Row<At>,
    pub left: Row<u64>,
    pub desks: Desks,
}

/// A desk with the next page of a pool, which a seat takes that is alone.
fn new_desk(pool: &Pool, seat: &mut PoolSeat) -> Desk
    requires own { IsSeatOf pool.now seat.old }
    requires order { TakesInOrder (view seat.old) }
    requires some { held_count (view seat.old) < (key pool.now).pages }
    ensures own { IsSeatOf pool.now seat.new }
    ensures order { TakesInOrder (view seat.new) }
    ensures took { held_count (view seat.new) ≡ held_count (view seat.old) + 1 }
    ensures page { result.page.number ≡ held_count (view seat.old) }
    ensures size { length result.page.bytes.items ≡ (key pool.now).size }
{
    lone_seats_hold_what_is_taken();
    let Ok(page) = pool.take(seat) else {
        unreachable!()
    };
    Desk {
        page,
        draft: NO_DRAFT,
    }
}

/// The desks of one pass.
fn new_desks(alloc: Global, pool: &Pool, seat: &mut PoolSeat) -> Result<Vec<Desk>, AllocError>
    requires own { IsSeatOf pool.now seat.old }
    requires order { TakesInOrder (view seat.old) }
    requires some { held_count (view seat.old) + 9 ≤ (key pool.now).pages }
    ensures own { OnOk result (IsSeatOf pool.now seat.new) }
    ensures order { OnOk result (TakesInOrder (view seat.new)) }
    ensures took { OnOk result (held_count (view seat.new) ≡ held_count (view seat.old) + 9) }
    ensures desks { IfOk result (λ desks. AreDesks (key pool.now).size (held_count (view seat.old)) desks.items) }
{
    let mut desks = Vec::new(alloc);
    for tab in 0..TABS {
        let _ = tab;
        desks.push(new_desk(pool, seat))?;
    }
    Ok(desks)
}

fn new_hands(alloc: Global, pool: &Pool, seat: &mut PoolSeat) -> Result<Hands, AllocError>
    requires own { IsSeatOf pool.now seat.old }
    requires order { TakesInOrder (view seat.old) }
    requires some { held_count (view seat.old) + 9 ≤ (key pool.now).pages }
    ensures own { OnOk result (IsSeatOf pool.now seat.new) }
    ensures order { OnOk result (TakesInOrder (view seat.new)) }
    ensures took { OnOk result (held_count (view seat.new) ≡ held_count (view seat.old) + 9) }
    ensures hands { IfOk result (AreHands (key pool.now).size (held_count (view seat.old))) }
{
    Ok(Hands {
        tabs: Row::from_vec(vec![in alloc; At::Free; TABS]?),
        left: Row::from_vec(vec![in alloc; 0u64; TABS]?),
        desks: Desks::from_vec(new_desks(alloc, pool, seat)?),
    })
}

/// What so many passes have at hand. The seat is the first one of the pool, which is alone and holds no page
/// yet. It takes nine pages for each pass, one pass after the other.
pub fn all_hands(
    alloc: Global,
    pool: &Pool,
    seat: &mut PoolSeat,
    passes: u32,
) -> Result<Vec<Hands>, AllocError>
    requires own { IsSeatOf pool.now seat.old }
    requires order { TakesInOrder (view seat.old) }
    requires none { held_count (view seat.old) ≡ 0 }
    requires some { 9 * passes ≤ (key pool.now).pages }
    ensures own { OnOk result (IsSeatOf pool.now seat.new) }
    ensures many { IfOk result (λ all. vec_len all ≡ passes) }
    ensures hands { IfOk result (λ all. AreAllHands (key pool.now).size all.items) }
{
    let mut all = Vec::new(alloc);
    for pass in 0..passes {
        let _ = pass;
        all.push(new_hands(alloc, pool, seat)?)?;
    }
    Ok(all)
}
