// A script is run.
ghost use Rattle.std.specs.Prelude.{◌≡◌, ◌⊎◌, ℕ, ◌+◌, ◌<◌, ◌≤◌, length, map, vec_len, IfOk, IfErr, MatchResult};
ghost use Rattle.std.specs.List.{Contains};
ghost use Rattle.script_text.specs.declared.line.Line.{Line};
ghost use Rattle.worker_pool.specs.Courses.{At, IsServed};
ghost use Rattle.worker_pool.specs.Knowing.{HasMarks};
ghost use Rattle.worker_pool.specs.Running.{HasServed, HasBack, HasLeft, HasTried};

use crate::crew::{Room, hire, leave_each, make_room, release, serve_all};
use crate::gate::Gate;
use script_text::{Answer, Script, Shelf};
use std::alloc::Global;
use std::sync::Wait;
use std::thread::Threads;

/// What workers served.
#[derive(Drop)]
pub struct Ran<H> {
    /// Their shelves, in the order in which they were handed in.
    pub shelves: Vec<H>,
    /// For each worker the numbers of its lines, from 1, each with its answer.
    pub answers: Vec<Vec<(u32, Answer)>>,
}

/// Serves a script. Worker w serves its lines in their order on shelf w - 1, on a thread of its own where one can be
/// made, and then leaves all tabs. `mark` leaves a note of the shelf at a mark, and `await` waits until a note lies
/// there, learns it and leaves another, where an earlier line of the script sets this mark. The gate is asked before
/// each line that is served.
///
/// Err is want of memory, and hands the shelves back. A worker that meets it serves no further line. It still sets the
/// marks of its later lines, so that nobody waits for it in vain.
pub fn run_workers<R: Threads + Wait + Sync, H: Shelf + Send, G: Gate + Sync>(
    rt: &R,
    alloc: Global,
    mut shelves: Vec<H>,
    script: &Script,
    gate: &G,
) -> Result<Ran<H>, Vec<H>>
    requires count { (1 ≤ vec_len shelves) × (vec_len shelves ≤ 32) }
    requires home { (a b : H) → Contains shelves.items a → Contains shelves.items b → H.home a ≡ H.home b }
    requires workers { (line : Line) → Contains script.now.lines line → (1 ≤ line.worker) × (line.worker ≤ vec_len shelves) }
    requires takes { (w k : ℕ) (shelf : H) (line : Line) → At shelves.items w shelf → At script.now.lines k line → line.worker ≡ w + 1 → IsServed line.request → H.takes shelf line }
    requires marks { HasMarks script.now.lines }
    // Each worker's course, line by line, and what those that met a mark know.
    ensures served { IfOk result (λ ran. HasServed H.Shelf script.now.lines shelves.items ran.shelves.items (map (λ answers. answers.items) ran.answers.items)) }
    ensures back { MatchResult result (λ ran. HasBack H.Shelf shelves.items ran.shelves.items) (λ back. HasBack H.Shelf shelves.items back.items) }
    // No line was served; or each worker served all its lines or stopped for want of memory, and one stopped.
    ensures handed_back { IfErr result (λ back. HasLeft H.Shelf shelves.items back.items ⊎ HasTried H.Shelf script.now.lines shelves.items back.items) }
{
    let lines = script.lines.as_slice();
    let Ok(room) = make_room(alloc, shelves.as_slice(), lines) else {
        leave_each(shelves.as_mut_slice());
        return Err(shelves);
    };
    let Room {
        marks,
        seats,
        last_seat,
        mut answers,
        mut workers,
    } = room;
    hire(alloc, &mut shelves, seats, &mut workers);
    serve_all(rt, alloc, &marks, lines, workers.as_mut_slice(), gate);
    if release(&marks, last_seat, workers, &mut shelves, &mut answers) {
        Ok(Ran { shelves, answers })
    } else {
        Err(shelves)
    }
}
