// A worker serves its lines.
ghost use Rattle.std.specs.Prelude.{◌≡◌, ℕ, ◌+◌, ◌<◌, ◌++◌, [], ◌∷◌, true, false, length, IfOk, IsOk};
ghost use Rattle.marks.specs.Seats.{view, IsSeatOf};
ghost use Rattle.worker_pool.specs.Courses.{At, Kept, Stopped, Halted};
ghost use Rattle.worker_pool.specs.Knowing.{HasMarks, Ready, Served, Worked};

use crate::gate::Gate;
use crate::meeting::set_mark;
use crate::notes::Of;
use crate::serving::answered;
use marks::{MarkSeat, Marks};
use rock_io::Memory;
use script_text::{Answer, Line, Request, Shelf};
use std::alloc::Global;
use std::sync::Wait;

/// A worker with its shelf.
pub(crate) struct Worker<H: Shelf> {
    /// From 1.
    pub(crate) number: u32,
    pub(crate) shelf: H,
    pub(crate) seat: MarkSeat<H::N, Of<H>>,
    /// The numbers of the lines that it served, and their answers.
    pub(crate) answers: Vec<(u32, Answer)>,
    /// It met want of memory. It serves no further line, and still sets its marks.
    pub(crate) is_stopped: bool,
}

impl<H: Shelf> Worker<H> {
    // Keeps the answer to a line, or stops where memory was wanted.
    fn keep(&mut self, number: u32, answer: Result<Answer, Memory>)
        ensures same { (self.new.number ≡ self.old.number) × (self.new.shelf ≡ self.old.shelf) × (self.new.seat ≡ self.old.seat) }
        ensures kept { self.new.is_stopped ≡ false → IfOk answer (λ a. self.new.answers.items ≡ self.old.answers.items ++ (number, a) ∷ []) × IsOk answer }
    {
        self.is_stopped = match answer {
            Ok(answer) => self.answers.push((number, answer)).is_err(),
            Err(Memory) => true,
        };
    }

    // Serves the line at a place, which is this worker's.
    fn serve<R: Wait, G: Gate>(
        &mut self,
        rt: &R,
        alloc: Global,
        marks: &Marks<H::N, Of<H>>,
        lines: &[Line],
        place: usize,
        line: &Line,
        gate: &G,
    )
        requires at { At lines.now place line.now }
        requires mine { line.now.worker ≡ self.old.number }
        requires marks { HasMarks lines.now }
        requires ready { Ready H.Shelf marks.now lines.now self.old.number place self.old.shelf self.old.seat }
        requires goes_on { self.old.is_stopped ≡ false }
        ensures number { self.new.number ≡ self.old.number }
        ensures ready { Ready H.Shelf marks.now lines.now self.old.number (place + 1) self.new.shelf self.new.seat }
        ensures kept { Kept H.Shelf self.old.shelf self.new.shelf }
        ensures served { (start : H) → Served H.Shelf lines.now self.old.number start place self.old.shelf self.old.answers.items (view self.old.seat)
            → self.new.is_stopped ≡ false → Served H.Shelf lines.now self.old.number start (place + 1) self.new.shelf self.new.answers.items (view self.new.seat) }
        ensures stopped { (start : H) → Served H.Shelf lines.now self.old.number start place self.old.shelf self.old.answers.items (view self.old.seat)
            → self.new.is_stopped ≡ true → Stopped H.Shelf lines.now self.old.number (place + 1) start self.new.shelf }
    {
        gate.before(self.number, line.number);
        let (earlier, _) = lines.split_at(place);
        let answer = answered(
            rt,
            alloc,
            marks,
            earlier,
            line,
            &mut self.shelf,
            &mut self.seat,
        );
        self.keep(line.number, answer);
    }

    // Sets the mark of the line at a place, where it sets one.
    fn set_only(&mut self, marks: &Marks<H::N, Of<H>>, lines: &[Line], place: usize, line: &Line)
        requires at { At lines.now place line.now }
        requires mine { line.now.worker ≡ self.old.number }
        requires marks { HasMarks lines.now }
        requires ready { Ready H.Shelf marks.now lines.now self.old.number place self.old.shelf self.old.seat }
        ensures same { (self.new.number ≡ self.old.number) × (self.new.is_stopped ≡ self.old.is_stopped) }
        ensures ready { Ready H.Shelf marks.now lines.now self.old.number (place + 1) self.new.shelf self.new.seat }
        ensures kept { Kept H.Shelf self.old.shelf self.new.shelf }
        ensures stopped { (start : H) → Stopped H.Shelf lines.now self.old.number place start self.old.shelf → Stopped H.Shelf lines.now self.old.number (place + 1) start self.new.shelf }
    {
        match &line.request {
            Request::Mark { mark } => set_mark(marks, &mut self.shelf, &mut self.seat, *mark),
            _ => {}
        }
    }

    // Does what the worker owes at one line.
    fn go_on<R: Wait, G: Gate>(
        &mut self,
        rt: &R,
        alloc: Global,
        marks: &Marks<H::N, Of<H>>,
        lines: &[Line],
        place: usize,
        gate: &G,
    )
        requires place { place < length lines.now }
        requires marks { HasMarks lines.now }
        requires ready { Ready H.Shelf marks.now lines.now self.old.number place self.old.shelf self.old.seat }
        ensures number { self.new.number ≡ self.old.number }
        ensures ready { Ready H.Shelf marks.now lines.now self.old.number (place + 1) self.new.shelf self.new.seat }
        ensures kept { Kept H.Shelf self.old.shelf self.new.shelf }
        ensures served { (start : H) → (self.old.is_stopped ≡ false → Served H.Shelf lines.now self.old.number start place self.old.shelf self.old.answers.items (view self.old.seat))
            → self.new.is_stopped ≡ false → Served H.Shelf lines.now self.old.number start (place + 1) self.new.shelf self.new.answers.items (view self.new.seat) }
        ensures stopped { (start : H) → (self.old.is_stopped ≡ false → Served H.Shelf lines.now self.old.number start place self.old.shelf self.old.answers.items (view self.old.seat))
            → (self.old.is_stopped ≡ true → Stopped H.Shelf lines.now self.old.number place start self.old.shelf) → self.new.is_stopped ≡ true → Stopped H.Shelf lines.now self.old.number (place + 1) start self.new.shelf }
    {
        let line = &lines[place];
        if line.worker != self.number {
            return;
        }
        if self.is_stopped {
            self.set_only(marks, lines, place, line);
        } else {
            self.serve(rt, alloc, marks, lines, place, line, gate);
        }
    }

    /// Serves the lines of this worker in their order, and then leaves all tabs.
    pub(crate) fn work<R: Wait, G: Gate>(
        &mut self,
        rt: &R,
        alloc: Global,
        marks: &Marks<H::N, Of<H>>,
        lines: &[Line],
        gate: &G,
    )
        requires marks { HasMarks lines.now }
        requires fresh { self.old.answers.items ≡ [] }
        requires goes { self.old.is_stopped ≡ false }
        requires ready { Ready H.Shelf marks.now lines.now self.old.number 0 self.old.shelf self.old.seat }
        ensures number { self.new.number ≡ self.old.number }
        ensures own { IsSeatOf marks.now self.new.seat }
        ensures kept { Kept H.Shelf self.old.shelf self.new.shelf }
        ensures free { (tab : ℕ) → H.is_free self.new.shelf tab }
        ensures done { self.new.is_stopped ≡ false → Worked H.Shelf lines.now self.old.number self.old.shelf self.new.shelf self.new.answers.items (view self.new.seat) }
        ensures stopped { self.new.is_stopped ≡ true → Halted H.Shelf lines.now self.old.number self.old.shelf self.new.shelf }
    {
        for place in 0..lines.len() {
            self.go_on(rt, alloc, marks, lines, place, gate);
        }
        self.shelf.leave_all();
    }
}
