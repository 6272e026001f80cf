use marks::Home;
use script_text::Shelf;
use std::marker::PhantomData;

/// What the notes of shelves of this type mean at marks.
pub struct Of<H> {
    of: PhantomData<H>,
}

impl<H: Shelf> Home<H::N> for Of<H> {
    type Key = H;

    ghost Fact = { H.Fact };

    ghost tells = { H.note_knows };

    ghost Place = { H.Home };

    ghost place = { H.note_home };

    ghost home = { H.home };
}
