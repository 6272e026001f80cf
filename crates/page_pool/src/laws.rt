//! What holds of every pool. These functions do nothing: the proof of a function that calls one may use what it
//! ensures.
ghost use Rattle.std.specs.Prelude.{◌≡◌, ◌<◌, [], ℕ, Contains, IsTrue};
ghost use Rattle.atomic_table.specs.Table.{State};
ghost use Rattle.page_pool.specs.Plays.{FoundTaken};
ghost use Rattle.page_pool.specs.Ruled.{IsFreeOrHeld, Ruled};
ghost use Rattle.page_pool.specs.declared.page.Page.{Page};
ghost use Rattle.page_pool.specs.declared.pool.PoolSize.{PoolSize};
ghost use Rattle.page_pool.specs.declared.view.View.{View};

/// Between any two steps each page is free, and no seat holds it, or exactly one seat holds it.
pub fn pages_are_free_or_held()
    ensures { (about : PoolSize) (s : _) → (rule : Ruled about s) → (m : ℕ) → m < about.pages → IsFreeOrHeld about s m }
{}

/// A page that a seat found taken, while no other seat was split off, is one that it holds.
pub fn lone_seats_hold_what_is_taken()
    ensures { (about : PoolSize) (m : ℕ) (v : View) → IsTrue v.is_alone → v.moving ≡ [] → m < about.pages → FoundTaken about m v → Contains v.held m }
{}
