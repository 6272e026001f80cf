// What each tab of a pass works on: a buffer as long as a slot, and what a tab that writes keeps beside it.
ghost use Rattle.std.specs.Prelude.{Some, length, slice_get, ◌<◌, ◌≡◌};

use page_pool::Page;
use std::marker::Model;

/// What a tab that writes has of its entry beside the buffer.
#[derive(Clone, Copy, Debug, PartialEq, Eq)]
pub struct Draft {
    pub key: [u8; 16],
    /// How many bytes of its next piece lie in the buffer, behind the room for a header.
    pub held: u32,
    /// Whether each slot of the entry is synced before it is published.
    pub is_durable: bool,
}

/// The draft of a tab that has written nothing yet.
pub const NO_DRAFT: Draft = Draft {
    key: [0; 16],
    held: 0,
    is_durable: false,
};

/// What a tab works on.
#[derive(Drop)]
pub struct Desk {
    /// Its bytes are the buffer of the tab, as many as a slot has.
    pub page: Page,
    pub draft: Draft,
}

impl Desk {
    ghost use Rattle.std.specs.Borrow.{sem};
    ghost use Rattle.tab_states.specs.Desks.{LendsBuffer};

    fn buffer_mut(&mut self) -> &mut [u8]
        ensures* writes_back { sem 𝓛 (LendsBuffer self.entry result) }
        ensures value { result.now ≡ self.old.page.bytes.items }
    {
        self.page.bytes_mut()
    }
}

/// The desks of a pass, one for each tab.
#[derive(Drop)]
pub struct Desks {
    items: Vec<Desk>,
}

impl Model for Desks {
    ghost use Rattle.std.specs.Prelude.{List};
    ghost use Rattle.tab_states.specs.declared.desks.Desk.{Desk};

    ghost Value = { List Desk };

    ghost view = { λ desks. desks.items.items };
}

impl Desks {
    ghost use Rattle.std.specs.Borrow.{sem};
    ghost use Rattle.tab_states.specs.Desks.{LendsBufferAt, LendsDesk, buffer_at, draft_at, page_at, with_draft_at};

    /// Takes a vector as it is, and no memory.
    pub fn from_vec(items: Vec<Desk>) -> Self
        ensures { result ≡ items.items }
    {
        Desks { items }
    }

    /// The buffer of one desk.
    pub fn buffer(&self, at: usize) -> &[u8]
        requires { at < length self.now }
        ensures { result.now ≡ buffer_at self.now at }
    {
        self.items[at].page.bytes()
    }

    /// The number of the page that one desk has.
    pub fn page_number(&self, at: usize) -> u32
        requires { at < length self.now }
        ensures { result ≡ page_at self.now at }
    {
        self.items[at].page.number()
    }

    fn desk_mut(&mut self, at: usize) -> &mut Desk
        requires { at < length self.old }
        ensures* writes_back { sem 𝓛 (LendsDesk self.entry at result) }
        ensures value { slice_get self.old at ≡ Some result.now }
    {
        &mut self.items[at]
    }

    /// Lends the buffer of one desk. What is left in it when the borrow ends is what the desk then has.
    pub fn buffer_mut(&mut self, at: usize) -> &mut [u8]
        requires { at < length self.old }
        ensures* writes_back { sem 𝓛 (LendsBufferAt self.entry at result) }
        ensures value { result.now ≡ buffer_at self.old at }
    {
        let desk = self.desk_mut(at);
        desk.buffer_mut()
    }

    /// The draft of one desk.
    pub fn draft(&self, at: usize) -> Draft
        requires { at < length self.now }
        ensures { result ≡ draft_at self.now at }
    {
        self.items[at].draft
    }

    /// Gives one desk another draft.
    pub fn set_draft(&mut self, at: usize, draft: Draft)
        requires { at < length self.old }
        ensures { self.new ≡ with_draft_at self.old at draft }
    {
        self.items[at].draft = draft;
    }
}
