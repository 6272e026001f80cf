// An entry is looked for in one file after the other.
ghost use Rattle.std.specs.Prelude.{IfErr, IfOk, OnErr, slice_set, ◌<◌, ◌≡◌};
ghost use Rattle.dir_set.specs.Answers.{EachMissed, OpenedBy, OpensAt, RefusedBy};
ghost use Rattle.dir_set.specs.Dirs.{AtDir, AtPass, EachDir, EachPass, IsDirPass, NoneBehind, OnlyDir, PassesMove, dir_count, dir_of};
ghost use Rattle.rock_reader.specs.Opening.{MayOpen};

use crate::dirs::{DirPass, Dirs};
use crate::fault::DirMiss;
use lock_word::Cause;
use rock_disk::Cell;
use rock_reader::open_entry;
use store_rule::Origin;

/// Opens the entry of a URL for a free tab, in the first file that has it, and answers the file and the version.
///
/// # Errors
///
/// No file has it, with the cause of each. The tab is free again.
pub fn dir_open<C: Cell, O: Origin>(
    dirs: &Dirs<C, O>,
    pass: &mut DirPass<C>,
    tab: u8,
    url: &[u8],
) -> Result<(u32, u32), DirMiss>
    requires pass { IsDirPass C.tells C.state O.offers dirs.now pass.old }
    requires tab { tab < 8 }
    requires may { EachPass dirs.now pass.old (λ d s p. MayOpen C.tells C.state O.offers s p tab url.now) }
    ensures ok { IfOk result (λ opened. EachDir dirs.now pass.old pass.new (OpensAt C.tells C.state O.offers tab url.now opened.0 opened.1)) }
    ensures there { IfOk result (λ opened. opened.0 < dir_count dirs.now) }
    ensures tabs { IfOk result (λ opened. pass.new.tab_dirs ≡ slice_set pass.old.tab_dirs tab opened.0) }
    ensures at { IfOk result (λ opened. dir_of pass.new tab ≡ opened.0) }
    ensures err { IfErr result (λ miss. EachMissed C.tells C.state O.offers dirs.now pass.old pass.new tab url.now miss.causes) }
    ensures behind { IfErr result (λ miss. NoneBehind (dir_count dirs.now) miss.causes) }
    ensures moves { OnErr result (PassesMove pass.old pass.new) }
    ensures hand { pass.new.hand ≡ pass.old.hand }
    ensures own { IsDirPass C.tells C.state O.offers dirs.now pass.new }
{
    let mut causes = [None; 8];
    for dir in 0..dirs.count() {
        match open_in(dirs, pass, dir, tab, url) {
            Ok(version) => {
                pass.tab_dirs[tab as usize] = dir;
                return Ok((dir, version));
            }
            Err(cause) => causes[dir as usize] = Some(cause),
        }
    }
    Err(DirMiss { causes })
}

// Opens the entry of a URL in this file.
fn open_in<C: Cell, O: Origin>(
    dirs: &Dirs<C, O>,
    pass: &mut DirPass<C>,
    dir: u32,
    tab: u8,
    url: &[u8],
) -> Result<u32, Cause>
    requires pass { IsDirPass C.tells C.state O.offers dirs.now pass.old }
    requires there { dir < dir_count dirs.now }
    requires may { AtPass dirs.now pass.old dir (λ s p. MayOpen C.tells C.state O.offers s p tab url.now) }
    ensures ok { IfOk result (λ version. AtDir dirs.now pass.old pass.new dir (λ s p q. OpenedBy C.tells C.state O.offers tab url.now s p q version)) }
    ensures err { IfErr result (λ cause. AtDir dirs.now pass.old pass.new dir (λ s p q. RefusedBy C.tells C.state O.offers tab url.now s p q cause)) }
    ensures only { OnlyDir dir pass.old pass.new }
    ensures own { IsDirPass C.tells C.state O.offers dirs.now pass.new }
{
    let at = dir as usize;
    match open_entry(&dirs.stores[at], &mut pass.passes[at], tab, url) {
        Ok(version) => Ok(version),
        Err(cause) => Err(cause),
    }
}
