// The script of one worker is served on a store over pages of a pool.
ghost use Rattle.std.specs.Prelude.{IfSome, IsTrue, true, ◌<◌, ◌≡◌, ◌≤◌};
ghost use Rattle.page_pool.specs.Seats.{IsSeatOf, key, view};
ghost use Rattle.mem_cache.specs.Cell.{cell_state};
ghost use Rattle.rock_run.specs.Offered.{offers_of};
ghost use Rattle.rock_run.specs.Scripts.{MayBeServed};
ghost use Rattle.test_closings.specs.Closable.{MayClose};

use crate::closing::serve_all;
use mem_cache::{PageCell, PageStation, open_mem};
use page_pool::{Pool, PoolSeat};
use pass_laws::new_passes_rest;
use rock_disk::MemCell;
use rock_run::ScriptOrigin;
use script_text::Script;
use std::alloc::Global;
use std::sync::Wait;
use store_rule::{Pass, Store};

/// A slot of a store in memory beside a disk in memory.
pub(crate) type Slot = PageCell<MemCell>;

type Served = (Store<Slot, ScriptOrigin>, Vec<Pass<Slot>>);

/// Makes a store over so many pages of a pool, with so many anchors, and serves the script of one worker on it.
pub(crate) fn served_in_pages<R: Wait>(
    rt: &R,
    alloc: Global,
    pool: &Pool,
    seat: &mut PoolSeat,
    pages: u32,
    anchors: u32,
    script: &Script,
) -> Option<Served>
    requires own { IsSeatOf pool.now seat.old }
    requires alone { IsTrue (view seat.old).is_alone }
    requires size { (key pool.now).size ≡ 512 }
    requires few { pages ≤ 1048576 }
    requires some { 0 < anchors }
    requires lines { MayBeServed 1 script.now.lines }
    ensures { IfSome result (λ r. MayClose true cell_state offers_of r.0 r.1) }
{
    new_passes_rest::<Slot, ScriptOrigin>();
    let origin = ScriptOrigin::new(script);
    let Ok((store, mut passes)) = open_mem::<MemCell, ScriptOrigin>(
        alloc, pool, seat, pages, 512, anchors, 1, origin,
    ) else {
        return None;
    };
    let Some(pass) = passes.pop() else {
        unreachable!()
    };
    let (pass, _) = serve_all(rt, alloc, &store, pass, PageStation::new(), script);
    passes.push_reserved(pass);
    Some((store, passes))
}
