// The rule of the table, and what its steps tell.
use crate::home::Home;
use crate::view::View;
use atomic_table::{Join, Play, Split, TableRule};
use std::marker::{Brand, PhantomData};

pub struct Rule<T> {
    marker: PhantomData<T>,
}

impl<N, T: Home<N>> TableRule<Option<N>, View<T::Key, N>, T::Key> for Rule<T> {
    ghost use Rattle.marks.specs.Ruled.{Ruled};
    ghost use Rattle.marks.specs.Views.{opening_view};

    ghost holds = { Ruled T.tells T.place T.home };

    ghost first = { opening_view };
}

/// Takes a note out.
pub struct Takes<T> {
    marker: PhantomData<T>,
}

impl<N, T: Home<N>> Play<Option<N>, View<T::Key, N>> for Takes<T> {
    ghost use Rattle.marks.specs.Plays.{took};

    ghost then = { took T.tells T.place T.home };
}

/// Gives back the place of a note that was taken out.
pub struct Empties;

impl<K, N> Play<Option<N>, View<K, N>> for Empties {
    ghost use Rattle.marks.specs.Plays.{emptied};

    ghost then = { emptied };
}

/// Takes an empty place.
pub struct Opens;

impl<K, N> Play<Option<N>, View<K, N>> for Opens {
    ghost use Rattle.marks.specs.Plays.{entered};

    ghost then = { entered };
}

/// Gives back a place with a note that is set.
pub struct Sets;

impl<K, N> Play<Option<N>, View<K, N>> for Sets {
    ghost use Rattle.marks.specs.Plays.{marked};

    ghost then = { marked };
}

/// Gives back a place with a note that is put.
pub struct Puts;

impl<K, N> Play<Option<N>, View<K, N>> for Puts {
    ghost use Rattle.marks.specs.Plays.{replaced};

    ghost then = { replaced };
}

/// Changes nothing, and tells that all that the seat knows of a mark agrees.
pub struct Tells;

impl<K, N> Play<Option<N>, View<K, N>> for Tells {
    ghost use Rattle.marks.specs.Plays.{agreed};

    ghost then = { agreed };
}

/// Which marks a new seat may set.
pub trait Dealing {
    ghost use Rattle.std.specs.Prelude.{ℕ, Bool};

    ghost picks: { ℕ → Bool };
}

impl Dealing for Brand {
    ghost use Rattle.std.specs.Prelude.{false};

    ghost picks = { λ _. false };
}

/// A seat is cut off.
pub struct Deals<D> {
    marker: PhantomData<D>,
}

impl<K, N, D: Dealing> Split<View<K, N>> for Deals<D> {
    ghost use Rattle.marks.specs.Views.{dealer, dealt};

    ghost left = { dealer D.picks };

    ghost right = { dealt D.picks };
}

/// A seat takes in another.
pub struct Joins;

impl<K, N> Join<View<K, N>> for Joins {
    ghost use Rattle.marks.specs.Views.{joined, spent};

    ghost both = { joined };

    ghost spent = { spent };
}
