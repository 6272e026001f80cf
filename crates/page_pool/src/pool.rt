// The pool.
ghost use Rattle.std.specs.Prelude.{◌≡◌, ◌+◌, ◌<◌, ℕ, IfOk, vec_len};
ghost use Rattle.page_pool.specs.Ruled.{AreFree};

use crate::page::Page;
use crate::rule::{Cut, Gives, Keeps, Opens, Rule, Takes};
use crate::seat::PoolSeat;
use crate::view::View;
use atomic_table::{Refused, Table};
use rock_io::Memory;
use std::alloc::{AllocError, Global};

/// How many pages a pool has, and how many bytes each page has.
#[derive(Clone, Copy, Debug, PartialEq, Eq)]
pub struct PoolSize {
    pub pages: u32,
    pub size: usize,
}

/// No page was free.
#[derive(Clone, Copy, Debug, PartialEq, Eq)]
pub struct NoPage;

/// Pages of one size. Workers share it by reference.
#[derive(Drop)]
pub struct Pool {
    pub(crate) pages: u32,
    pub(crate) table: Table<Option<Page>, View, PoolSize, Rule, Global>,
    ghost pages_are: { pages ≡ table.shared.key.pages },
    ghost some: { 0 < pages },
    ghost sizes: { (table.shared.table_id.words ≡ pages) × (table.shared.table_id.slots ≡ pages) },
}

/// A page of so many zeros.
fn new_page(alloc: Global, number: u32, size: usize) -> Result<Page, AllocError>
    ensures { IfOk result (λ page. (page.number ≡ number) × (vec_len page.bytes ≡ size)) }
{
    let bytes = vec![in alloc; 0u8; size]?;
    Ok(Page { number, bytes })
}

/// So many pages of zeros, in order of their numbers.
fn free_pages(alloc: Global, pages: u32, size: usize) -> Result<Vec<Option<Page>>, AllocError>
    ensures many { IfOk result (λ free. vec_len free ≡ pages) }
    ensures free { IfOk result (λ free. AreFree size free.items) }
{
    let mut free = Vec::new(alloc);
    for number in 0..pages {
        let page = new_page(alloc, number, size)?;
        free.push(Some(page))?;
    }
    Ok(free)
}

impl Pool {
    ghost use Rattle.std.specs.Prelude.{◌≡◌, ◌<◌, ◌↔◌, ℕ, Contains, IfOk, IfErr, IsErr, IsTrue, OnErr};
    ghost use Rattle.page_pool.specs.Plays.{FoundTaken, TookAt};
    ghost use Rattle.page_pool.specs.Ruled.{IsPage};
    ghost use Rattle.page_pool.specs.Seats.{IsSeatOf, key, view};
    ghost use Rattle.page_pool.specs.Views.{after_give, after_take, cut_off, left_over, opened, opening_view};

    /// Pages of `size` bytes, all free, and the first seat, which holds none.
    ///
    /// # Errors
    ///
    /// Want of memory.
    pub fn new(alloc: Global, pages: u32, size: usize) -> Result<(Pool, PoolSeat), Memory>
        requires { 0 < pages }
        ensures size { IfOk result (λ made. ((key made.0).pages ≡ pages) × ((key made.0).size ≡ size)) }
        ensures seat { IfOk result (λ made. IsSeatOf made.0 made.1 × (view made.1 ≡ opening_view (key made.0))) }
    {
        let words = vec![in alloc; 0u64; pages as usize]?;
        let free = free_pages(alloc, pages, size)?;
        let about = PoolSize { pages, size };
        match Table::new(alloc, words.as_slice(), free, &about) {
            Ok((table, seat)) => Ok((Pool { pages, table }, PoolSeat { seat })),
            Err(Refused { slots: _ }) => Err(Memory),
        }
    }

    /// A seat for another caller. It holds no page.
    pub fn split(&self, seat: &mut PoolSeat) -> PoolSeat
        requires { IsSeatOf self.now seat.old }
        ensures own { IsSeatOf self.now seat.new × IsSeatOf self.now result }
        ensures split { (view seat.new ≡ left_over (view seat.old)) × (view result ≡ cut_off (view seat.old)) }
    {
        PoolSeat {
            seat: self.table.shared.split_seat::<Cut>(&mut seat.seat),
        }
    }

    // Takes the page of this number, if it is free.
    fn take_at(&self, seat: &mut PoolSeat, number: u32) -> Option<Page>
        requires own { IsSeatOf self.now seat.old }
        requires within { number < (key self.now).pages }
        ensures own { IsSeatOf self.now seat.new }
        ensures took { TookAt (key self.now) number (view seat.old) result (view seat.new) }
    {
        let place = number as usize;
        let shared = &self.table.shared;
        let found = shared.compare_exchange::<Takes>(&mut seat.seat, place, 0, 2);
        if found != 0 {
            return None;
        }
        let page = shared.exchange(&mut seat.seat, place, None);
        shared.store::<Keeps>(&mut seat.seat, place, 1);
        page
    }

    /// Takes a page: the first, in order of their numbers, that is found free. Each one before it was found taken
    /// at a step of this call. What its bytes are is not said: those that its last holder left, or zeros.
    ///
    /// # Errors
    ///
    /// No page was found free: each was found taken at a step of this call, and the seat holds what it held. While
    /// no seat was split off that comes exactly where the seat holds all pages.
    pub fn take(&self, seat: &mut PoolSeat) -> Result<Page, NoPage>
        requires { IsSeatOf self.now seat.old }
        ensures own { IsSeatOf self.now seat.new }
        ensures page { IfOk result (λ page. IsPage (key self.now) page.number page) }
        ensures took { IfOk result (λ page. view seat.new ≡ after_take page.number (view seat.old)) }
        ensures free { IfOk result (λ page. Contains (view seat.old).held page.number → ⊥) }
        ensures below { IfOk result (λ page. (m : ℕ) → m < page.number → FoundTaken (key self.now) m (view seat.old)) }
        ensures none { OnErr result ((view seat.new ≡ view seat.old) × ((m : ℕ) → m < (key self.now).pages → FoundTaken (key self.now) m (view seat.old))) }
        ensures lone { IsTrue (view seat.old).is_alone → (IsErr result ↔ ((m : ℕ) → m < (key self.now).pages → Contains (view seat.old).held m)) }
    {
        for number in 0..self.pages {
            if let Some(page) = self.take_at(seat, number) {
                return Ok(page);
            }
        }
        Err(NoPage)
    }

    /// Gives a page back that this seat took.
    pub fn give(&self, seat: &mut PoolSeat, page: Page)
        requires own { IsSeatOf self.now seat.old }
        requires took { Contains (view seat.old).held page.number }
        requires page { IsPage (key self.now) page.number page }
        ensures own { IsSeatOf self.now seat.new }
        ensures gave { view seat.new ≡ after_give page.number (view seat.old) }
    {
        let place = page.number as usize;
        let shared = &self.table.shared;
        shared.store::<Opens>(&mut seat.seat, place, 2);
        shared.exchange(&mut seat.seat, place, Some(page));
        shared.store::<Gives>(&mut seat.seat, place, 0);
    }
}
