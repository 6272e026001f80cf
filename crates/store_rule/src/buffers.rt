// The buffers of a pass: each of its tabs has one, a page of the store's pool as long as a slot, and lends it.
ghost use Rattle.std.specs.Prelude.{◌<◌, ◌≡◌};

use crate::store::Pass;

impl<C> Pass<C> {
    ghost use Rattle.std.specs.Borrow.{sem};
    ghost use Rattle.store_rule.specs.Lending.{LendsTab};
    ghost use Rattle.tab_states.specs.Desks.{buffer_at, page_at};

    /// The buffer of a tab, as long as a slot. That of tab 8 is for reading.
    pub fn buffer(&self, tab: u8) -> &[u8]
        requires { tab < 9 }
        ensures { result.now ≡ buffer_at self.now.desks tab }
    {
        self.desks.buffer(tab as usize)
    }

    /// The number of the page that is the buffer of a tab. No call changes it.
    pub fn page_number(&self, tab: u8) -> u32
        requires { tab < 9 }
        ensures { result ≡ page_at self.now.desks tab }
    {
        self.desks.page_number(tab as usize)
    }

    /// Lends the buffer of a tab. What is left in it when the borrow ends is what the pass then has there, and
    /// all else of the pass is as it was.
    pub fn buffer_mut(&mut self, tab: u8) -> &mut [u8]
        requires { tab < 9 }
        ensures* writes_back { sem 𝓛 (LendsTab C.row self.entry tab result) }
        ensures value { result.now ≡ buffer_at self.old.desks tab }
    {
        self.desks.buffer_mut(tab as usize)
    }
}
