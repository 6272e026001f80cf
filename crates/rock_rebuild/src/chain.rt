// Chains, followed from one header to the next.
ghost use Rattle.std.specs.Prelude.{◌≡◌, ◌+◌, ◌≤◌, ℕ, List, length, IfOk, OnOk, MatchOption};
ghost use Rattle.rebuild_model.specs.Image.{IsFile};
ghost use Rattle.rock_rebuild.specs.Left.{AreLeft, HasNoChain, IsChainAt};

use crate::table::Table;
use db_layout::MOST_SLOTS;
use slot_cell::HEADER_SIZE;
use std::alloc::AllocError;

/// Follows the chain that begins at slot `first`, puts its slots into `chain`, and takes their headers
/// out of the table. A slot that was passed is not left, so a chain that comes to a slot again ends
/// there and is none; and since a slot names one first, no other chain misses it.
///
/// Where the slots are full but for the last, which has the size of the whole, that size is told.
pub fn follow(
    table: &mut Table,
    chain: &mut Vec<u32>,
    slot: u32,
    first: u32,
) -> Result<Option<u64>, AllocError>
    requires { length table.old ≤ MOST_SLOTS }
    ensures followed { IfOk result (λ size. (images : List (List ℕ)) → IsFile slot images
        → AreLeft slot images first table.old
        → AreLeft slot images (first + 1) table.new
        × MatchOption size (HasNoChain slot images first) (IsChainAt slot images first chain.new.items)) }
    ensures few { OnOk result (length chain.new.items ≤ length table.old) }
    ensures length { length table.new ≡ length table.old }
{
    chain.clear();
    let mut size = 0;
    let Some(head) = table.header(first) else {
        return Ok(None);
    };
    let mut at = first;
    'walk: while let Some(header) = table.take(at, first, &head) {
        chain.push(at)?;
        size += u64::from(header.payload_size);
        if header.next_slot == -1 {
            if header.entry_size != size {
                return Ok(None);
            }
            return Ok(Some(size));
        }
        if u64::from(header.payload_size) + HEADER_SIZE as u64 != u64::from(slot) {
            return Ok(None);
        }
        at = header.next_slot.cast_unsigned();
    }
    Ok(None)
}
