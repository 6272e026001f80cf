// How many slots a content needs.
ghost use Rattle.std.specs.Prelude.{◌≡◌, ◌-◌, ◌/◌, ◌<◌, ◌≤◌};
ghost use Rattle.entry_cut.specs.Content.{slots_needed, room_of};

use slot_cell::HEADER_SIZE;

/// How many slots of `slot` bytes a content of `content` bytes needs: its bytes over the room of a slot,
/// rounded up.
pub fn slots_needed(content: u64, slot: u32) -> u64
    requires { HEADER_SIZE < slot }
    ensures value { result ≡ slots_needed content slot }
    ensures at_most { result ≤ content }
{
    let room = u64::from(slot) - HEADER_SIZE as u64;
    let whole = content / room;
    if content % room == 0 {
        whole
    } else {
        whole + 1
    }
}

/// How many slots of a content are full and have another behind them, where so many bytes of it are there:
/// the last slot is kept until more bytes or the end of the content have come.
pub fn published(content: u64, slot: u32) -> u64
    requires size { HEADER_SIZE < slot }
    requires some { 0 < content }
    ensures value { result ≡ (content - 1) / room_of slot }
    ensures behind { result < slots_needed content slot }
{
    let room = u64::from(slot) - HEADER_SIZE as u64;
    (content - 1) / room
}
