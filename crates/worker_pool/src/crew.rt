// Workers are hired, each with a shelf, and give their shelves back.
ghost use Rattle.std.specs.Prelude.{◌≡◌, ℕ, ◌<◌, ◌≤◌, ◌+◌, [], length, map, true, false, vec_len, vec_capacity, IfOk};
ghost use Rattle.std.specs.List.{Contains};
ghost use Rattle.marks.specs.Seats.{view, key, IsSeatOf, AreDealt};
ghost use Rattle.worker_pool.specs.Courses.{At};
ghost use Rattle.worker_pool.specs.Knowing.{HasMarks};
ghost use Rattle.worker_pool.specs.Crews.{AreHired, Sets, Begins, Ended, AreEnded, Gathered};
ghost use Rattle.worker_pool.specs.Running.{Left, AllLeft};

use crate::gate::Gate;
use crate::notes::Of;
use crate::setters::setters_of;
use crate::worker::Worker;
use marks::{MarkSeat, Marks};
use rock_io::Memory;
use script_text::{Answer, Line, Shelf};
use std::alloc::Global;
use std::sync::Wait;
use std::thread;
use std::thread::Threads;

/// What workers need: the marks, a seat for each worker and one more, and room for workers and answers.
pub(crate) struct Room<H: Shelf> {
    pub(crate) marks: Marks<H::N, Of<H>>,
    pub(crate) seats: Vec<MarkSeat<H::N, Of<H>>>,
    pub(crate) last_seat: MarkSeat<H::N, Of<H>>,
    pub(crate) answers: Vec<Vec<(u32, Answer)>>,
    pub(crate) workers: Vec<Worker<H>>,
}

/// Takes all memory that a run needs beside that of its lines.
pub(crate) fn make_room<H: Shelf>(
    alloc: Global,
    shelves: &[H],
    lines: &[Line],
) -> Result<Room<H>, Memory>
    requires count { (0 < length shelves.now) × (length shelves.now ≤ 32) }
    requires marks { HasMarks lines.now }
    ensures key { IfOk result (λ room. At shelves.now 0 (key room.marks)) }
    ensures seats { IfOk result (λ room. vec_len room.seats ≡ length shelves.now) }
    ensures dealt { IfOk result (λ room. Sets room.marks lines.now room.seats.items) }
    ensures last { IfOk result (λ room. IsSeatOf room.marks room.last_seat) }
    ensures empty { IfOk result (λ room. (room.answers.items ≡ []) × (room.workers.items ≡ [])) }
    ensures roomy { IfOk result (λ room. (length shelves.now ≤ vec_capacity room.answers) × (length shelves.now ≤ vec_capacity room.workers)) }
{
    let count = shelves.len();
    let setters = setters_of(lines);
    let (marks, mut seats) = Marks::new(alloc, &setters, count as u32 + 1, &shelves[0])?;
    let last_seat = seats.take_last();
    let answers = Vec::with_capacity(alloc, count)?;
    let workers = Vec::with_capacity(alloc, count)?;
    Ok(Room {
        marks,
        seats,
        last_seat,
        answers,
        workers,
    })
}

/// Hires a worker for each shelf, in their order, and leaves the vector of shelves empty, with its room.
pub(crate) fn hire<H: Shelf>(
    alloc: Global,
    shelves: &mut Vec<H>,
    mut seats: Vec<MarkSeat<H::N, Of<H>>>,
    workers: &mut Vec<Worker<H>>,
)
    requires few { vec_len shelves.old ≤ 32 }
    requires seats { vec_len seats ≡ vec_len shelves.old }
    requires empty { workers.old.items ≡ [] }
    requires room { vec_len shelves.old ≤ vec_capacity workers.old }
    ensures emptied { shelves.new.items ≡ [] }
    ensures room { vec_capacity shelves.new ≡ vec_capacity shelves.old }
    ensures hired { AreHired shelves.old.items seats.items workers.new.items }
{
    for place in 0..shelves.len() {
        workers.push_reserved(Worker {
            number: place as u32 + 1,
            shelf: shelves.remove(0),
            seat: seats.remove(0),
            answers: Vec::new(alloc),
            is_stopped: false,
        });
    }
}

/// Lets all workers serve, each on a thread. Where the system gives no thread to some of them, one thread serves
/// several, the lower numbers first: so a worker that waits for one with a lower number does not keep it waiting.
pub(crate) fn serve_all<R: Threads + Wait + Sync, H: Shelf + Send, G: Gate + Sync>(
    rt: &R,
    alloc: Global,
    marks: &Marks<H::N, Of<H>>,
    lines: &[Line],
    workers: &mut [Worker<H>],
    gate: &G,
)
    requires count { 0 < length workers.old }
    requires marks { HasMarks lines.now }
    requires begin { (w : ℕ) (x : _) → At workers.old w x → Begins H.Shelf marks.now lines.now x }
    ensures { AreEnded H.Shelf marks.now lines.now workers.old workers.new }
{
    workers.reverse();
    serve_backwards(rt, alloc, marks, lines, workers, gate);
    workers.reverse();
}

// Lets all workers serve, each on a thread. A thread that serves several begins with the last one of them: of two halves it
// takes the first one last, where no thread is given to it.
fn serve_backwards<R: Threads + Wait + Sync, H: Shelf + Send, G: Gate + Sync>(
    rt: &R,
    alloc: Global,
    marks: &Marks<H::N, Of<H>>,
    lines: &[Line],
    workers: &mut [Worker<H>],
    gate: &G,
)
    requires count { 0 < length workers.old }
    requires marks { HasMarks lines.now }
    requires begin { (w : ℕ) (x : _) → At workers.old w x → Begins H.Shelf marks.now lines.now x }
    ensures { AreEnded H.Shelf marks.now lines.now workers.old workers.new }
{
    let count = workers.len();
    let work = |_place: usize, worker: &mut Worker<H>|
        requires { HasMarks lines.now × Begins H.Shelf marks.now lines.now worker.now }
        ensures { Ended H.Shelf marks.entry.now lines.entry.now worker.entry.now worker.exit.now }
    { worker.work(rt, alloc, marks, lines, gate) };
    thread::for_each_mut(rt, workers, count, &work);
}

/// Takes the shelves and the answers back, in the order of the workers. Answers whether each worker served all its
/// lines.
pub(crate) fn release<H: Shelf>(
    marks: &Marks<H::N, Of<H>>,
    mut seat: MarkSeat<H::N, Of<H>>,
    mut workers: Vec<Worker<H>>,
    shelves: &mut Vec<H>,
    answers: &mut Vec<Vec<(u32, Answer)>>,
) -> bool
    requires some { 0 < vec_len workers }
    requires seat { IsSeatOf marks.now seat }
    requires own { (x : _) → Contains workers.items x → IsSeatOf marks.now x.seat }
    requires empty { (shelves.old.items ≡ []) × (answers.old.items ≡ []) }
    requires room { (vec_len workers ≤ vec_capacity shelves.old) × (vec_len workers ≤ vec_capacity answers.old) }
    ensures shelves { shelves.new.items ≡ map (λ x. x.shelf) workers.items }
    ensures answers { answers.new.items ≡ map (λ x. x.answers) workers.items }
    ensures went { result ≡ true → (x : _) → Contains workers.items x → x.is_stopped ≡ false }
    ensures stopped { result ≡ false → (x : _) × Contains workers.items x × (x.is_stopped ≡ true) }
    ensures gathered { Gathered workers.items }
{
    let mut is_whole = true;
    for _ in 0..workers.len() {
        let Worker {
            number: _,
            shelf,
            seat: other,
            answers: served,
            is_stopped,
        } = workers.remove(0);
        shelves.push_reserved(shelf);
        answers.push_reserved(served);
        marks.join(&mut seat, other);
        is_whole = is_whole && !is_stopped;
    }
    workers.destroy_empty();
    is_whole
}

// Leaves all tabs of a shelf.
fn leave<H: Shelf>(shelf: &mut H)
    ensures { Left H.Shelf shelf.old shelf.new }
{
    shelf.leave_all();
}

/// Leaves all tabs of each shelf.
pub(crate) fn leave_each<H: Shelf>(shelves: &mut [H])
    ensures { AllLeft H.Shelf shelves.old shelves.new }
{
    for shelf in shelves.iter_mut() {
        leave(shelf);
    }
}
