ghost use Rattle.std.specs.Prelude.{◌≡◌, ◌≤◌, ℕ, List, IfOk, length, vec_len};
ghost use Rattle.script_text.specs.Script.{IsScript};

use crate::rows::parted;
use rock_io::{MemSource, Memory};
use script_text::{Answer, Line, Script, ScriptFault, Shelf, read_script};
use std::alloc::Global;
use std::fmt::Write;
use std::sync::Wait;
use std::sync::atomic::{AtomicBool, Ordering};
use std::thread;
use std::thread::Threads;
use worker_pool::{Gate, OpenGate, Ran, run_workers, scripts_may_be_run};

/// A shelf that counts the lines that it served, and those of others that it heard of.
#[derive(Drop)]
struct Counter {
    count: u32,
    /// How many lines it serves before it wants memory.
    room: u32,
    has_left: bool,
}

/// A note that knows each number below its count.
#[derive(Drop)]
struct Count {
    count: u32,
}

impl Shelf for Counter {
    ghost use Rattle.std.specs.Prelude.{◌≡◌, ℕ, ◌<◌, ◌≤◌, true};
    ghost use Rattle.script_text.specs.declared.line.Line.{Line};
    ghost use Rattle.script_text.specs.declared.answer.Answer.TheVariants.{Added};

    type N = Count;

    ghost takes = { λ _ _. Unit {0} };

    ghost went = { λ before _ answer after. (answer ≡ Added after.count) × (before.count ≤ after.count) };

    ghost Fact = { ℕ };

    ghost knows = { λ shelf n. n < shelf.count };

    ghost note_knows = { λ note n. n < note.count };

    ghost Home = { Unit {0} };

    ghost home = { λ _. tt };

    ghost note_home = { λ _. tt };

    ghost name = { λ _. 0 };

    ghost is_free = { λ _ _. Unit {0} };

    ghost noted = { λ before note after. (note.count ≡ before.count) × (after ≡ before) };

    ghost learned = { λ before note after. (before.count ≤ after.count) × (note.count ≤ after.count) };

    ghost left = { λ before after. (after.count ≡ before.count) × (after.has_left ≡ true) };

    fn serve<R: Wait>(&mut self, _rt: &R, _alloc: Global, _line: &Line) -> Result<Answer, Memory> {
        if self.room == 0 {
            return Err(Memory);
        }
        self.room -= 1;
        self.count = self.count.saturating_add(1);
        Ok(Answer::Added { count: self.count })
    }

    fn note(&mut self) -> Count {
        Count { count: self.count }
    }

    fn learn(&mut self, note: Count) {
        self.count = self.count.max(note.count);
    }

    fn leave_all(&mut self) {
        self.has_left = true;
    }
}

/// A script that was read.
fn script_of(alloc: Global, text: &[u8], workers: u32) -> Result<Script, ScriptFault>
    ensures { IfOk result (λ script. (read : List ℕ) × IsScript workers read script.lines) }
{
    let bytes = text.to_vec(alloc).map_err(Memory::from)?;
    let mut source = MemSource::new(bytes, 4096, Vec::new(alloc));
    read_script(alloc, &mut source, workers)
}

/// Shelves of these rooms.
fn shelves_of(alloc: Global, rooms: &[u32]) -> Result<Vec<Counter>, Memory>
    ensures { IfOk result (λ shelves. vec_len shelves ≡ length rooms.now) }
{
    let mut shelves = Vec::new(alloc);
    for room in rooms {
        shelves.push(Counter {
            count: 0,
            room: *room,
            has_left: false,
        })?;
    }
    Ok(shelves)
}

fn run<R: Threads + Wait + Sync, G: Gate + Sync>(
    rt: &R,
    alloc: Global,
    text: &[u8],
    rooms: &[u32],
    gate: &G,
) -> Result<Result<Ran<Counter>, Vec<Counter>>, ScriptFault>
    requires { (1 ≤ length rooms.now) × (length rooms.now ≤ 32) }
{
    scripts_may_be_run();
    let script = script_of(alloc, text, rooms.len() as u32)?;
    let shelves = shelves_of(alloc, rooms)?;
    Ok(run_workers(rt, alloc, shelves, &script, gate))
}

/// Holds the line `held` back until the line `until` was asked for, for a limited number of turns.
#[derive(Drop)]
struct Order {
    held: u32,
    until: u32,
    was_asked: AtomicBool,
    is_late: AtomicBool,
}

impl Order {
    fn new(held: u32, until: u32) -> Self {
        Order {
            held,
            until,
            was_asked: AtomicBool::new(false),
            is_late: AtomicBool::new(false),
        }
    }

    fn hold(&self) {
        for turn in 0..100_000_000u32 {
            if self.was_asked.load(Ordering::SeqCst) {
                return;
            }
            if turn % 1024 == 0 {
                thread::yield_now();
            }
        }
        self.is_late.store(true, Ordering::SeqCst);
    }
}

impl Gate for Order {
    fn before(&self, _worker: u32, number: u32) {
        if number == self.until {
            self.was_asked.store(true, Ordering::SeqCst);
        }
        if number == self.held {
            self.hold();
        }
    }
}

/// Scripts of two workers, with what their lines are answered. The head of a section has a name, the line that is held back, and
/// the line that is to be asked for first; line 0 is none.
const RUNS: &str = "\
two_workers_meet; 1; 2
1 more 0 -> Added { count: 1 }
2 more 0 -> Added { count: 1 }

a_mark_is_met_before_it_was_set; 2; 4
1 more 0 -> Added { count: 1 }
1 mark 5 -> Marked
1 more 0 -> Added { count: 2 }
2 await 5 -> Met
2 more 0 -> Added { count: 2 }

a_mark_is_met_after_it_was_set; 4; 3
1 more 0 -> Added { count: 1 }
1 mark 5 -> Marked
1 more 0 -> Added { count: 2 }
2 await 5 -> Met
2 more 0 -> Added { count: 2 }

a_mark_is_unmet_where_no_earlier_line_sets_it; 0; 0
1 await 3 -> Unmet
1 more 0 -> Added { count: 1 }
2 mark 3 -> Marked
2 await 3 -> Met
2 await 4 -> Unmet
2 more 0 -> Added { count: 1 }";

/// The order that the head of a section asks for.
fn order_of(head: &str) -> Option<Order> {
    let (_, rest) = parted(head, "; ")?;
    let (held, until) = parted(rest, "; ")?;
    Some(Order::new(held.parse().ok()?, until.parse().ok()?))
}

/// The lines of rows, and their answers, each with the number of its line.
fn columns_of(alloc: Global, rows: &str) -> Option<(String, String)> {
    let mut lines = String::new(alloc);
    let mut answers = String::new(alloc);
    for (place, row) in rows.lines().enumerate() {
        let (line, answer) = parted(row, " -> ")?;
        let number = place + 1;
        write!(lines, "{line}\n").ok()?;
        write!(answers, "{number} {answer}\n").ok()?;
    }
    Some((lines, answers))
}

/// The lines of each worker in its order, each with its answer.
fn answers_of(alloc: Global, ran: &Ran<Counter>) -> Option<String> {
    let mut text = String::new(alloc);
    for answers in &ran.answers {
        for (number, answer) in answers {
            write!(text, "{number} {answer:?}\n").ok()?;
        }
    }
    Some(text)
}

/// Whether a section is answered as its rows say, in its order, and all shelves are left then.
fn is_answered<R: Threads + Wait + Sync>(rt: &R, alloc: Global, section: &str) -> Option<bool> {
    let (head, rows) = parted(section, "\n")?;
    let order = order_of(head)?;
    let (lines, wanted) = columns_of(alloc, rows)?;
    let Ok(Ok(ran)) = run(rt, alloc, lines.as_bytes(), &[9, 9], &order) else {
        return None;
    };
    let answers = answers_of(alloc, &ran)?;
    let is_late = order.is_late.load(Ordering::SeqCst);
    let was_asked = order.was_asked.load(Ordering::SeqCst) == (order.until != 0);
    let are_left = ran.shelves.iter().all(|shelf| shelf.has_left);
    Some(answers.as_str() == wanted.as_str() && !is_late && was_asked && are_left)
}

#[test]
fn scripts_of_two_workers(rt: HostRuntime) {
    // 18 rows, 4 heads, and 3 lines between the sections.
    assert_eq!(rt; RUNS.lines().count(), 25);
    for section in RUNS.split("\n\n") {
        assert!(rt;
            is_answered(&rt, rt.alloc(), section) == Some(true),
            "{section}"
        );
    }
}

/// Whether the shelf at a place has served `count` lines, and was left.
fn has_served(shelves: &[Counter], place: usize, count: usize) -> bool {
    match shelves.get(place) {
        Some(shelf) => shelf.count as usize == count && shelf.has_left,
        None => false,
    }
}

#[test]
fn a_worker_that_wants_memory_still_sets_its_marks(rt: HostRuntime) {
    let text = b"1 more 0\n1 more 0\n1 mark 7\n1 more 0\n2 await 7\n2 more 0\n";
    let Ok(Err(shelves)) = run(&rt, rt.alloc(), text, &[1, 9], &OpenGate) else {
        assert!(rt; false, "no memory was wanted");
        return;
    };
    assert!(rt; has_served(&shelves, 0, 1));
    assert!(rt; has_served(&shelves, 1, 2));
}

/// A script in which each worker waits for the mark of the one before, serves a line and sets its own mark.
fn chain_of(alloc: Global, workers: u32) -> Option<String> {
    let mut text = String::new(alloc);
    for before in 0..workers {
        let worker = before + 1;
        write!(
            text,
            "{worker} await {before}\n{worker} more 0\n{worker} mark {worker}\n"
        )
        .ok()?;
    }
    Some(text)
}

/// How many workers of such a script served their lines, each one more than the one before it.
fn served_in_chain<R: Threads + Wait + Sync>(rt: &R, alloc: Global) -> Option<usize> {
    let text = chain_of(alloc, 32)?;
    let Ok(Ok(ran)) = run(rt, alloc, text.as_bytes(), &[9; 32], &OpenGate) else {
        return None;
    };
    for place in 0..ran.shelves.len() {
        if !has_served(&ran.shelves, place, place + 1) {
            return None;
        }
    }
    Some(ran.shelves.len())
}

#[test]
fn thirty_two_workers_wait_for_one_another(rt: HostRuntime) {
    assert_eq!(rt; served_in_chain(&rt, rt.alloc()), Some(32));
}
