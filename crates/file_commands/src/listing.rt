// The listing of a file: a line for each complete entry.
ghost use Rattle.std.specs.Prelude.{◌≡◌, ◌+◌, ◌≤◌, ◌++◌, length, map, All, IsTrue, IfOk, IsErrOf, OnOk, OnErr, []};
ghost use Rattle.std.specs.List.{flat_map};
ghost use Rattle.rock_io.specs.Faults.{Rose};
ghost use Rattle.rock_io.specs.Sink.{TakesPrefix};
ghost use Rattle.rock_disk.specs.Cell.{CellState};
ghost use Rattle.rock_disk.specs.Opened.{AreSlots};
ghost use Rattle.rebuild_model.specs.declared.found.Found.{Found};
ghost use Rattle.file_commands.specs.Listing.{line_of_found, numbers, Lists, HasShortUrl};
ghost use Rattle.rock_io.specs.LineBuffer.{held_of, size_of, HasRoom, Adds};

use rock_disk::Station;
use rock_io::{BUFFER_BYTES, Failed, LineBuffer, Sink};
use rock_rebuild::{Found, FoundList, RebuildFault, scan};
use std::alloc::Global;

/// More bytes than a line has: a URL of 2,048 bytes at most, four numbers of 20 digits at most, and what
/// stands between.
const LINE_BYTES: usize = 4_096;

/// The entries of a listing.
#[derive(Debug, Drop)]
pub struct ListedEntries {
    pub found: FoundList,
    ghost short: { All HasShortUrl found },
}

/// Reads the slots of a file, and finds the complete entries, in order of first slot.
pub fn listed<St: Station>(
    alloc: Global,
    station: &mut St,
    cells: &mut [St::C],
    slot: u32,
) -> Result<ListedEntries, RebuildFault>
    requires { AreSlots slot (map St.C.state cells.old) }
    ensures lists { IfOk result (λ listed. IsTrue St.C.tells
        → Lists slot (map (λ (c : CellState). c.now) (map St.C.state cells.old)) (flat_map line_of_found listed.found)) }
    ensures cells { map St.C.state cells.new ≡ map St.C.state cells.old }
    ensures faults { St.faults station.old ≤ St.faults station.new }
    ensures failed { IsErrOf result RebuildFault.Failed
        → Rose (St.faults station.old) (St.faults station.new) }
    ensures unfailed { (IsErrOf result RebuildFault.Failed → ⊥)
        → St.faults station.new ≡ St.faults station.old }
{
    let scan = scan(alloc, station, cells, slot)?;
    Ok(ListedEntries { found: scan.found })
}

/// Prints a line for each of these entries, in their order, through an empty buffer.
pub fn print_lines<K: Sink>(
    out: &mut K,
    buffer: &mut LineBuffer,
    found: &[Found],
) -> Result<(), Failed>
    requires room { BUFFER_BYTES ≤ size_of buffer.old }
    requires empty { held_of buffer.old ≡ [] }
    requires short { All HasShortUrl found.now }
    ensures all { OnOk result (IsTrue K.tells
        → K.taken out.new ≡ K.taken out.old ++ flat_map line_of_found found.now) }
    ensures prefix { OnErr result (IsTrue K.tells
        → TakesPrefix (K.taken out.old) (K.taken out.new) (flat_map line_of_found found.now)) }
    ensures faults { K.faults out.old ≤ K.faults out.new }
    ensures unfailed { OnOk result (K.faults out.new ≡ K.faults out.old) }
    ensures failed { OnErr result (Rose (K.faults out.old) (K.faults out.new)) }
{
    let mut left = found;
    'entries: while let Some((entry, rest)) = left.split_first() {
        buffer.make_room(out, LINE_BYTES)?;
        put_line(buffer, entry);
        left = rest;
    }
    buffer.write_to(out)
}

/// Adds what stands in a line before the URL.
fn put_numbers(buffer: &mut LineBuffer, first: u32, version: u32, slots: usize, length: u64)
    requires { HasRoom buffer.old (numbers first version slots length) }
    ensures { Adds buffer.old buffer.new (numbers first version slots length) }
{
    buffer.put(b"ENTRY ");
    buffer.put_number(u64::from(first));
    buffer.put(b" ");
    buffer.put_number(u64::from(version));
    buffer.put(b" ");
    buffer.put_number(slots as u64);
    buffer.put(b" ");
    buffer.put_number(length);
    buffer.put(b" ");
}

/// Adds the line of an entry to a buffer that has room for it.
#[tactic(auto, using(crate::proofs::Lines::short_numbers))]
fn put_line(buffer: &mut LineBuffer, entry: &Found)
    requires room { length (held_of buffer.old) + LINE_BYTES ≤ size_of buffer.old }
    requires short { HasShortUrl entry.now }
    ensures { Adds buffer.old buffer.new (line_of_found entry.now) }
{
    let slots = entry.chain.as_slice().len();
    put_numbers(buffer, entry.first, entry.version, slots, entry.length);
    buffer.put(entry.url.as_slice());
    buffer.put(b"\n");
}
