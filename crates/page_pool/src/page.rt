ghost use Rattle.std.specs.Prelude.{◌≡◌};

/// A page that a caller has to itself: its number in the pool, and its bytes, as many as each page of the pool
/// has.
#[derive(Debug, Drop)]
pub struct Page {
    pub(crate) number: u32,
    pub(crate) bytes: Vec<u8>,
}

impl Page {
    ghost use Rattle.std.specs.Borrow.{sem};
    ghost use Rattle.page_pool.specs.Lending.{LendsBytes};

    /// Its number in the pool, from 0 on.
    pub fn number(&self) -> u32
        ensures { result ≡ self.now.number }
    {
        self.number
    }

    /// Its bytes.
    pub fn bytes(&self) -> &[u8]
        ensures { result.now ≡ self.now.bytes.items }
    {
        &self.bytes
    }

    /// Lends its bytes. What is left in them when the borrow ends is what the page then has.
    pub fn bytes_mut(&mut self) -> &mut [u8]
        ensures* writes_back { sem 𝓛 (LendsBytes self.entry result) }
        ensures value { result.now ≡ self.old.bytes.items }
    {
        self.bytes.as_mut_slice()
    }
}
