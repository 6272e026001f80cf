ghost use Rattle.std.specs.Prelude.{◌≡◌};

use crate::home::Home;
use crate::rule::{Dealing, Deals, Empties, Joins, Opens, Puts, Rule, Sets, Takes, Tells};
use crate::seat::MarkSeat;
use crate::view::View;
use atomic_table::Table;
use rock_io::Memory;
use std::alloc::Global;
use std::marker::{Brand, PhantomData};

/// How many places there are.
const PLACES: usize = 64;

/// 64 places, each empty or with one note.
#[derive(Drop)]
pub struct Marks<N: Drop, T: Home<N>> {
    pub(crate) table: Table<Option<N>, View<T::Key, N>, T::Key, Rule<T>, Global>,
    ghost sizes: { (table.shared.table_id.words ≡ 64) × (table.shared.table_id.slots ≡ 64) },
}

impl<N: Drop, T: Home<N>> Marks<N, T> {
    ghost use Rattle.std.specs.Prelude.{◌≡◌, ℕ, ◌<◌, ◌≤◌, ◌==◌, [], ◌∷◌, Some, None, IfSome, IfNone, IfOk, vec_len, slice_index};
    ghost use Rattle.std.specs.List.{Contains};
    ghost use Rattle.marks.specs.Ruled.{Knows};
    ghost use Rattle.marks.specs.Plays.{FoundEmpty};
    ghost use Rattle.marks.specs.Views.{opening_view, after_set, after_put, after_met, opened, joined, dealer, dealt, Agrees};
    ghost use Rattle.marks.specs.Seats.{view, key, IsSeatOf, AreDealt};

    // Empty places, and a first seat that may set each mark.
    fn empty(alloc: Global, at: &T::Key) -> Result<(Marks<N, T>, MarkSeat<N, T>), Memory>
        ensures { IfOk result (λ made. (key made.0 ≡ at.now) × IsSeatOf made.0 made.1 × (view made.1 ≡ opening_view at.now)) }
    {
        let (table, seat) = Table::vacant(alloc, &[0; PLACES], PLACES, at)?;
        let first = MarkSeat {
            seat,
            of: PhantomData,
        };
        Ok((Marks { table }, first))
    }

    // A seat for each worker, from 1 on.
    fn deal_all(
        &self,
        alloc: Global,
        mut first: MarkSeat<N, T>,
        setters: &[u32; PLACES],
        workers: u32,
    ) -> Result<Vec<MarkSeat<N, T>>, Memory>
        requires own { IsSeatOf self.now first }
        requires whole { view first ≡ opening_view (key self.now) }
        ensures count { IfOk result (λ seats. vec_len seats ≡ workers) }
        ensures dealt { IfOk result (λ seats. AreDealt self.now setters.now seats.items) }
    {
        let mut seats = Vec::new(alloc);
        for worker in 0..workers {
            let seat = self.deal::<Brand>(&mut first, setters, worker + 1);
            seats.push(seat)?;
        }
        Ok(seats)
    }

    /// Empty places, and a seat for each worker in order, which may set the marks that `setters` gives to this worker:
    /// `setters[m]` is the worker that sets the mark m, from 1, or 0 where none does. All notes have the home of `at`.
    /// Err is want of memory.
    pub fn new(
        alloc: Global,
        setters: &[u32; PLACES],
        workers: u32,
        at: &T::Key,
    ) -> Result<(Marks<N, T>, Vec<MarkSeat<N, T>>), Memory>
        ensures key { IfOk result (λ made. key made.0 ≡ at.now) }
        ensures count { IfOk result (λ made. vec_len made.1 ≡ workers) }
        ensures dealt { IfOk result (λ made. AreDealt made.0 setters.now made.1.items) }
    {
        let (marks, first) = Marks::empty(alloc, at)?;
        let seats = marks.deal_all(alloc, first, setters, workers)?;
        Ok((marks, seats))
    }

    // Takes an empty place that the seat holds, so that a note can be put there.
    fn open(&self, seat: &mut MarkSeat<N, T>, mark: u8)
        requires own { IsSeatOf self.now seat.old }
        requires held { (mark < 64) × ((x : _) × Contains (view seat.old).held (mark, x)) }
        ensures table { (seat.new.seat.table_id ≡ self.now.table.shared.table_id) × (seat.new.seat.me.1 ≡ (mark, None) ∷ []) }
        ensures view { view seat.new ≡ opened mark (view seat.old) }
    {
        self.table
            .shared
            .store::<Opens>(&mut seat.seat, mark as usize, 2);
    }

    /// Sets a mark: puts the first note at its place. The seat may do so once for each mark that `setters` gives to
    /// its worker.
    pub fn set(&self, seat: &mut MarkSeat<N, T>, mark: u8, note: N)
        requires own { IsSeatOf self.now seat.old }
        requires may { (mark < 64) × Contains (view seat.old).held (mark, None) }
        requires home { T.place note ≡ T.home (key self.now) }
        ensures own { IsSeatOf self.now seat.new }
        ensures set { view seat.new ≡ after_set mark note (view seat.old) }
    {
        self.open(seat, mark);
        self.table
            .shared
            .exchange(&mut seat.seat, mark as usize, Some(note));
        self.table
            .shared
            .store::<Sets>(&mut seat.seat, mark as usize, 1);
    }

    /// Takes out the note at a place. None comes only where the place was empty at this step.
    pub fn look(&self, seat: &mut MarkSeat<N, T>, mark: u8) -> Option<N>
        requires own { IsSeatOf self.now seat.old }
        requires mark { mark < 64 }
        ensures own { IsSeatOf self.now seat.new }
        // The note tells all that the one set there does, and the seat knows which one that was.
        ensures met { IfSome result (λ note. (was : N) × (view seat.new ≡ after_met mark was note (view seat.old)) × Knows T.tells was note) }
        ensures home { IfSome result (λ note. T.place note ≡ T.home (key self.now)) }
        ensures none { IfNone result ((view seat.new ≡ view seat.old) × FoundEmpty T.tells T.place T.home (key self.now) mark (view seat.old)) }
    {
        let place = mark as usize;
        let found = self
            .table
            .shared
            .compare_exchange::<Takes<T>>(&mut seat.seat, place, 1, 2);
        if found != 1 {
            return None;
        }
        let note = self.table.shared.exchange(&mut seat.seat, place, None);
        self.table.shared.store::<Empties>(&mut seat.seat, place, 0);
        note
    }

    /// Puts a note back at a place whose note this seat took out. It tells all that that one did.
    pub fn put(&self, seat: &mut MarkSeat<N, T>, mark: u8, note: N)
        requires own { IsSeatOf self.now seat.old }
        requires took { (mark < 64) × ((old : N) × Contains (view seat.old).held (mark, Some old) × Knows T.tells old note) }
        requires home { T.place note ≡ T.home (key self.now) }
        ensures own { IsSeatOf self.now seat.new }
        ensures put { view seat.new ≡ after_put mark (view seat.old) }
    {
        self.open(seat, mark);
        self.table
            .shared
            .exchange(&mut seat.seat, mark as usize, Some(note));
        self.table
            .shared
            .store::<Puts>(&mut seat.seat, mark as usize, 1);
    }

    /// Takes in another seat of these marks. What the two know of a mark agrees.
    pub fn join(&self, seat: &mut MarkSeat<N, T>, other: MarkSeat<N, T>)
        requires own { IsSeatOf self.now seat.old }
        requires other { IsSeatOf self.now other }
        ensures own { IsSeatOf self.now seat.new }
        ensures joined { view seat.new ≡ joined (view seat.old) (view other) }
        ensures agrees { Agrees (view seat.new) }
    {
        let MarkSeat { seat: other, of: _ } = other;
        self.table.shared.join_seat::<Joins>(&mut seat.seat, other);
        self.table.shared.load::<Tells>(&mut seat.seat, 0);
    }

    // A seat for a worker.
    fn deal<D: Dealing>(
        &self,
        first: &mut MarkSeat<N, T>,
        setters: &[u32; PLACES],
        worker: u32,
    ) -> MarkSeat<N, T>
        requires own { IsSeatOf self.now first.old }
        requires picks { (m : ℕ) → D.picks m ≡ (slice_index setters.now m == worker) }
        ensures own { IsSeatOf self.now first.new × IsSeatOf self.now result }
        ensures dealt { (view first.new ≡ dealer D.picks (view first.old)) × (view result ≡ dealt D.picks (view first.old)) }
    {
        MarkSeat {
            seat: self.table.shared.split_seat::<Deals<D>>(&mut first.seat),
            of: PhantomData,
        }
    }
}
