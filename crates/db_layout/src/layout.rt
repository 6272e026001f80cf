ghost use Rattle.std.specs.Prelude.{◌≡◌, ◌+◌, ◌^◌, ◌<◌, ◌≤◌, ◌↔◌, IsTrue};
ghost use Rattle.db_layout.specs.Layout.{IsSlotSize, slots_of, offset_of, file_size};

/// The size of the header area, in bytes, and the offset of the first slot.
pub const HEADER_BYTES: u32 = 16_384;

/// Slots past these are not a store's.
pub const MOST_SLOTS: u32 = 1_048_576;

/// The bytes of the smallest slot. The size of each slot is a multiple of it.
pub const LEAST_SLOT: u32 = 512;

/// The bytes of the greatest slot.
pub const GREATEST_SLOT: u32 = 32_768;

/// Whether slots may have this many bytes: a multiple of 512 from 512 to 32,768.
pub fn slot_size_ok(slot: u32) -> bool
    ensures { IsTrue result ↔ IsSlotSize slot }
{
    LEAST_SLOT <= slot && slot <= GREATEST_SLOT && slot % LEAST_SLOT == 0
}

/// How many whole slots of `slot` bytes a file of `bytes` bytes has behind its header area, at most
/// 1,048,576. A file that is shorter than its header area has none.
pub fn slots_of(bytes: u64, slot: u32) -> u32
    requires { 0 < slot }
    ensures value { result ≡ slots_of bytes slot }
    ensures most { result ≤ MOST_SLOTS }
{
    let whole = bytes.saturating_sub(u64::from(HEADER_BYTES)) / u64::from(slot);
    whole.min(u64::from(MOST_SLOTS)) as u32
}

/// The offset in bytes at which the slot of this number, from 0, begins.
pub fn offset_of(number: u32, slot: u32) -> u64
    ensures value { result ≡ offset_of number slot }
    ensures in_range { IsSlotSize slot → result + slot < 2 ^ 48 }
{
    u64::from(HEADER_BYTES) + u64::from(number) * u64::from(slot)
}

/// The length in bytes of a file with a header area and this many slots, and nothing behind them.
pub fn file_size(slots: u32, slot: u32) -> u64
    ensures value { result ≡ file_size slots slot }
    ensures in_range { IsSlotSize slot → result < 2 ^ 48 }
{
    u64::from(HEADER_BYTES) + u64::from(slots) * u64::from(slot)
}
