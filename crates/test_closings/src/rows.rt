// Scripts of one worker, and what is counted behind them.
ghost use Rattle.std.specs.Prelude.{IfSome};
ghost use Rattle.rock_disk.specs.File.{NoneAway};
ghost use Rattle.rock_disk.specs.Memory.{volume_files};
ghost use Rattle.rock_run.specs.Scripts.{MayBeServed};

use crate::closing::left_by;
use crate::pages::served_in_pages;
use page_pool::Pool;
use rock_disk::MemVolume;
use rock_io::MemSource;
use rock_open::{Counted, close_counted};
use rock_run::read_scripts_may_be_served;
use script_text::{Script, read_script};
use std::alloc::Global;
use std::sync::Wait;
use test_rows::{numbers, short};
use test_stories::push_text;

// Rows, each with the script behind which its numbers are counted. They are the slots and the anchors of the store, and then
// how many anchors are closed, how many slots stand in their chains, and how many are free. A slot has room for 472 bytes, of
// which the metadata of `http://a/b` takes 42 in the first one.
const ROWS: &str = "\
4 2 0 0 4

2 1 0 0 2
1 put http://a/b #902:0
1 put http://a/b #903:0

3 2 2 3 0
1 put u0 #901:0
1 open 0 u0
1 put u1 #901:0
1 get u1
1 put u1 =x
1 get u1

70 3 2 5 65
1 put u0 #1300:0
1 begin 0 u1 #901:0
1 add 0 901
1 put u2 #901:0
1 open 1 u2
1 purge u0
1 put u0 #1300:0";

/// The script of one worker. Long words stand there by their names.
pub(crate) fn script_of(alloc: Global, text: &str, anchors: u32) -> Option<Script>
    ensures { IfSome result (λ script. MayBeServed 1 script.lines) }
{
    read_scripts_may_be_served();
    let mut bytes = Vec::new(alloc);
    for line in text.lines() {
        push_text(alloc, &mut bytes, line, anchors).ok()?;
        bytes.push(b'\n').ok()?;
    }
    let mut source = MemSource::new(bytes, 4096, Vec::new(alloc));
    read_script(alloc, &mut source, 1).ok()
}

/// A volume with a file `db` of so many slots, whose bytes are 0.
fn volume_of(alloc: Global, slots: u32) -> Option<MemVolume>
    ensures { IfSome result (λ volume. NoneAway (volume_files volume)) }
{
    let bytes = vec![in alloc; 0; 16384 + 512 * slots as usize].ok()?;
    let mut volume = MemVolume::new(alloc, Vec::new(alloc), Vec::new(alloc));
    let Ok(()) = volume.put_file("db", &bytes) else {
        return None;
    };
    Some(volume)
}

/// What was counted in a store of so many anchors, as in a row.
fn numbers_of<C>(counted: &Counted<C>, anchors: u64) -> [u64; 5] {
    [
        counted.cells.len() as u64,
        anchors,
        u64::from(counted.kept),
        u64::from(counted.held),
        u64::from(counted.free),
    ]
}

/// Whether a row is so of a store over a file.
fn is_so<R: Wait>(rt: &R, alloc: Global, row: &str) -> Option<bool> {
    let (head, text) = row.split_once('\n').unwrap_or((row, ""));
    let wanted = numbers::<5>("", head)?;
    let [slots, anchors, ..] = wanted;
    let script = script_of(alloc, text, short(anchors))?;
    let mut volume = volume_of(alloc, short(slots))?;
    let counted = left_by(rt, alloc, &mut volume, short(anchors), &script)?;
    Some(numbers_of(&counted, anchors) == wanted)
}

/// Whether a row is so of a store over all pages of a pool.
fn is_so_in_pages<R: Wait>(rt: &R, alloc: Global, row: &str) -> Option<bool> {
    let (head, text) = row.split_once('\n').unwrap_or((row, ""));
    let wanted = numbers::<5>("", head)?;
    let [slots, anchors, ..] = wanted;
    let (pages, anchors) = (short(slots), short(anchors));
    let script = script_of(alloc, text, anchors)?;
    if pages == 0 || pages > 1048576 || anchors == 0 {
        return None;
    }
    let (pool, mut seat) = Pool::new(alloc, pages, 512).ok()?;
    let (store, passes) = served_in_pages(rt, alloc, &pool, &mut seat, pages, anchors, &script)?;
    Some(numbers_of(&close_counted(store, passes), u64::from(anchors)) == wanted)
}

#[test]
fn what_is_left_is_counted(rt: HostRuntime) {
    assert_eq!(rt; ROWS.split("\n\n").count(), 4);
    for row in ROWS.split("\n\n") {
        assert!(rt; is_so(&rt, rt.alloc(), row) == Some(true), "{row}");
        assert!(rt; is_so_in_pages(&rt, rt.alloc(), row) == Some(true), "{row}");
    }
}
