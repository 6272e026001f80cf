ghost use Rattle.std.specs.Prelude.{◌≡◌, ℕ, List, ◌++◌, ◌+◌, ◌<◌, ◌≤◌, pos, ◌≤ℤ◌, ◌<ℤ◌, ◌↔◌, length, take, IsTrue, IsNone, IfSome};

/// How many bytes a header takes.
pub const HEADER_SIZE: usize = 40;

/// The greatest version that an entry may have.
pub const GREATEST_VERSION: u32 = 4_294_901_760;

/// What a slot says of itself: the entry that it belongs to, its place in the entry's chain, and how
/// much it carries. All numbers are little endian.
#[derive(Clone, Copy, Debug, PartialEq, Eq)]
pub struct Header {
    /// The first eight bytes of the entry's key.
    pub k0: u64,
    /// The last eight bytes of the entry's key.
    pub k1: u64,
    /// How many bytes the whole entry has, or 0 while that is not known.
    pub entry_size: u64,
    /// How many bytes of the slot, behind this header, belong to the entry.
    pub payload_size: u32,
    /// The version of the entry.
    pub version: u32,
    /// The first slot of the entry's chain.
    pub first_slot: i32,
    /// The slot behind this one in the chain, or -1 for the last.
    pub next_slot: i32,
}

impl Header {
    ghost use Rattle.slot_cell.specs.declared.header.Header.{Header};
    ghost use Rattle.slot_cell.specs.Header.{header_of, header_bytes, IsInRange, IsEmpty, IsSane};

    /// Reads the header at the front of a slot's bytes. None where there are fewer than 40.
    pub fn decode(bytes: &[u8]) -> Option<Header>
        ensures short { IsNone result ↔ (length bytes.now < HEADER_SIZE) }
        ensures value { IfSome result (λ header. header ≡ header_of bytes.now) }
        ensures spelled { IfSome result (λ header. header_bytes header ≡ take HEADER_SIZE bytes.now) }
        ensures only { IfSome result (λ header. (h : Header) (rest : List ℕ) → IsInRange h → bytes.now ≡ header_bytes h ++ rest → header ≡ h) }
    {
        let (k0, rest) = bytes.split_first_chunk()?;
        let (k1, rest) = rest.split_first_chunk()?;
        let (entry_size, rest) = rest.split_first_chunk()?;
        let (payload_size, rest) = rest.split_first_chunk()?;
        let (version, rest) = rest.split_first_chunk()?;
        let (first_slot, rest) = rest.split_first_chunk()?;
        let (next_slot, _) = rest.split_first_chunk()?;
        Some(Header {
            k0: u64::from_le_bytes(*k0),
            k1: u64::from_le_bytes(*k1),
            entry_size: u64::from_le_bytes(*entry_size),
            payload_size: u32::from_le_bytes(*payload_size),
            version: u32::from_le_bytes(*version),
            first_slot: u32::from_le_bytes(*first_slot).cast_signed(),
            next_slot: u32::from_le_bytes(*next_slot).cast_signed(),
        })
    }

    /// Writes the 40 bytes of the header.
    pub fn encode(&self, out: &mut [u8; HEADER_SIZE])
        ensures written { out.new ≡ header_bytes self.now }
        ensures decoded { header_of out.new ≡ self.now }
    {
        let Header {
            k0,
            k1,
            entry_size,
            payload_size,
            version,
            first_slot,
            next_slot,
        } = *self;
        let at = put(out, 0, &k0.to_le_bytes());
        let at = put(out, at, &k1.to_le_bytes());
        let at = put(out, at, &entry_size.to_le_bytes());
        let at = put(out, at, &payload_size.to_le_bytes());
        let at = put(out, at, &version.to_le_bytes());
        let at = put(out, at, &first_slot.to_le_bytes());
        put(out, at, &next_slot.to_le_bytes());
    }

    /// Whether the header is that of a slot that was never written or was cleared: its two slots and
    /// its payload's size are 0.
    pub fn is_empty(&self) -> bool
        ensures { IsTrue result ↔ IsEmpty self.now }
    {
        self.first_slot == 0 && self.next_slot == 0 && self.payload_size == 0
    }

    /// Whether the header can stand in a file of `slots` slots of `slot` bytes: its slots are slots of
    /// the file, its version is one that an entry may have, and its payload is not empty and fits.
    pub fn is_sane(&self, slots: u32, slot: u32) -> bool
        ensures { IsTrue result ↔ IsSane self.now slots slot }
    {
        self.is_sane_in(slots, slot as usize)
    }

    /// Whether the header can stand in a file of `slots` slots, each as long as one in memory may be.
    pub(crate) fn is_sane_in(&self, slots: u32, slot: usize) -> bool
        ensures { IsTrue result ↔ IsSane self.now slots slot }
    {
        is_within(self.first_slot, 0, slots)
            && is_within(self.next_slot, -1, slots)
            && is_version(self.version)
            && is_payload(self.payload_size, slot)
    }
}

fn is_within(number: i32, least: i64, slots: u32) -> bool
    ensures { IsTrue result ↔ ((least ≤ℤ number) × (number <ℤ pos slots)) }
{
    let number = i64::from(number);
    least <= number && number < i64::from(slots)
}

fn is_version(version: u32) -> bool
    ensures { IsTrue result ↔ ((0 < version) × (version ≤ GREATEST_VERSION)) }
{
    0 < version && version <= GREATEST_VERSION
}

fn is_payload(size: u32, slot: usize) -> bool
    ensures { IsTrue result ↔ ((0 < size) × (size + HEADER_SIZE ≤ slot)) }
{
    0 < size && size as usize + HEADER_SIZE <= slot
}

/// Writes `part` from byte `at` on, and answers where it ends.
fn put(out: &mut [u8], at: usize, part: &[u8]) -> usize
    requires { at + length part.now ≤ length out.old }
    ensures end { result ≡ at + length part.now }
    ensures front { take result out.new ≡ take at out.old ++ part.now }
    ensures length { length out.new ≡ length out.old }
{
    let end = at + part.len();
    out[at..end].copy_from_slice(part);
    end
}
