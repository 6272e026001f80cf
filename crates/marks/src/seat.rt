use crate::home::Home;
use crate::view::View;
use atomic_table::Seat;
use std::marker::PhantomData;

/// A worker's seat at the marks. It has no bytes.
#[derive(Drop)]
pub struct MarkSeat<N, T: Home<N>> {
    pub(crate) seat: Seat<Option<N>, View<T::Key, N>>,
    pub(crate) of: PhantomData<T>,
}
