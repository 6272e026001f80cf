ghost use Rattle.std.specs.Prelude.{◌≡◌, length, replicate};
ghost use Rattle.std.proofs.Common.{refl};

use page_pool::Page;
use rock_disk::Cell;
use std::marker::PhantomData;

/// A slot of a store in memory: a page of a pool, which has as many bytes as a slot. `D` is the type of the cells of
/// the disk beside which the store stands. No value of that type is kept.
#[derive(Drop)]
pub struct PageCell<D> {
    /// The number of the slot.
    number: u32,
    /// The bytes of the slot, under a number of their own.
    pub(crate) page: Page,
    /// Only names the type `D`.
    disk: PhantomData<D>,
}

impl<D> PageCell<D> {
    /// The slot of this number, with a page that is filled with zeros.
    pub(crate) fn new(number: u32, mut page: Page) -> PageCell<D>
        ensures number { result.number ≡ number }
        ensures page { result.page.number ≡ page.number }
        ensures zeros { result.page.bytes.items ≡ replicate (length page.bytes.items) 0 }
    {
        page.bytes_mut().fill(0);
        PageCell {
            number,
            page,
            disk: PhantomData,
        }
    }

    /// Its page.
    pub fn page(&self) -> &Page
        ensures { result.now ≡ self.now.page }
    {
        &self.page
    }

    /// The bytes of its page.
    pub(crate) fn bytes(&self) -> &[u8]
        ensures { result.now ≡ self.now.page.bytes.items }
    {
        self.page.bytes()
    }

    /// Gives its page.
    pub fn into_page(self) -> Page
        ensures { result ≡ self.page }
    {
        self.page
    }
}

impl<D: Cell> Cell for PageCell<D> {
    ghost use Rattle.mem_cache.specs.Cell.{cell_state};
    ghost use Rattle.std.specs.Prelude.{[]};
    ghost use Rattle.std.proofs.lemmas.List.Elements.{Contains-push};

    ghost tells = { D.tells };

    ghost state = { cell_state };

    fn number(&self) -> u32 {
        self.number
    }

    ghost as_wide = { λ cell t. refl };

    ghost now_may_stay = { λ cell t. Contains-push [] cell.page.bytes.items };
}
