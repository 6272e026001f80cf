// The entry that a tab writes, in the file of the tab.
ghost use Rattle.std.specs.Prelude.{IfErr, IfOk, IsErrOf, OnOk, [], length, true, ◌+◌, ◌<◌, ◌≡◌, ◌≢◌, ◌≤◌};
ghost use Rattle.dir_set.specs.Dirs.{AtDir, AtItem, AtPass, IsDirPass, OnlyDir, OnlyItem, dir_count, dir_of};
ghost use Rattle.rock_io.specs.Faults.{Rose};
ghost use Rattle.rock_writer.specs.Appending.{Appended, MayAppend, NotAppended};
ghost use Rattle.rock_writer.specs.Durable.{ClosedDurably, LoggedSoFar};
ghost use Rattle.rock_writer.specs.Entries.{Entry, WritesAs, with_taken};
ghost use Rattle.rock_writer.specs.Finishing.{Finished, MayFinish, NotFinished};
ghost use Rattle.rock_writer.specs.Halting.{Halts};
ghost use Rattle.rock_writer.specs.Passes.{FollowsWriting};
ghost use Rattle.slice_chain.specs.Freeing.{FollowsTab};
ghost use Rattle.store_rule.specs.Passes.{basis, view};
ghost use Rattle.store_rule.specs.Quiet.{Quiet};

use crate::dirs::{DirPass, Dirs};
use rock_disk::{Cell, Station};
use rock_writer::{Ended, WriteFault, abort, append, finish};
use store_rule::Origin;

/// Takes bytes of the body of the entry that a tab writes, as `append` of the tab's file. There is a station for each
/// file, in order.
///
/// # Errors
///
/// As `append`: the slot that is being filled is full and was not published. The entry is halted, and the tab free.
pub fn dir_append<C: Cell, O: Origin, St: Station<C = C>>(
    dirs: &Dirs<C, O>,
    pass: &mut DirPass<C>,
    stations: &mut [St],
    tab: u8,
    bytes: &[u8],
) -> Result<usize, WriteFault>
    requires pass { IsDirPass C.tells C.state O.offers dirs.now pass.old }
    requires tab { tab < 8 }
    requires stations { length stations.old ≡ dir_count dirs.now }
    requires may { AtPass dirs.now pass.old (dir_of pass.old tab) (λ s p. (e : Entry) × MayAppend C.tells C.state O.offers s tab e bytes.now p) }
    ensures ok { AtDir dirs.now pass.old pass.new (dir_of pass.old tab) (λ s p q. (e : Entry) → MayAppend C.tells C.state O.offers s tab e bytes.now p → IfOk result (λ count. Appended C.tells C.state O.offers s tab e bytes.now p q count)) }
    ensures durable { AtDir dirs.now pass.old pass.new (dir_of pass.old tab) (λ s p q. (e : Entry) → MayAppend C.tells C.state O.offers s tab e bytes.now p → LoggedSoFar (basis C.tells C.state O.offers s) e (view p) → IfOk result (λ count. LoggedSoFar (basis C.tells C.state O.offers s) (with_taken e (e.taken + count)) (view q))) }
    ensures some { bytes.now ≢ [] → IfOk result (λ count. 0 < count) }
    ensures within { IfOk result (λ count. count ≤ length bytes.now) }
    ensures err { AtDir dirs.now pass.old pass.new (dir_of pass.old tab) (λ s p q. (e : Entry) → MayAppend C.tells C.state O.offers s tab e bytes.now p → IfErr result (λ fault. NotAppended C.tells C.state O.offers s tab e bytes.now p q fault)) }
    ensures others { AtDir dirs.now pass.old pass.new (dir_of pass.old tab) (λ s p q. FollowsWriting C.tells C.state O.offers s tab p q) }
    ensures quiet { AtDir dirs.now pass.old pass.new (dir_of pass.old tab) (λ s p q. Quiet (view p) (view q)) }
    ensures only { OnlyDir (dir_of pass.old tab) pass.old pass.new }
    ensures own { IsDirPass C.tells C.state O.offers dirs.now pass.new }
    ensures unfailed { (IsErrOf result WriteFault.Fault → ⊥) → AtItem stations.old stations.new (dir_of pass.old tab) (λ x y. St.faults y ≡ St.faults x) }
    ensures failed { IsErrOf result WriteFault.Fault → AtItem stations.old stations.new (dir_of pass.old tab) (λ x y. Rose (St.faults x) (St.faults y)) }
    ensures stations { OnlyItem (dir_of pass.old tab) stations.old stations.new }
{
    let dir = pass.index_of(tab);
    append(
        &dirs.stores[dir],
        &mut pass.passes[dir],
        &mut stations[dir],
        tab,
        bytes,
    )
}

/// Writes the last piece of an entry whose whole body was taken and closes the entry, as `finish` of the tab's file.
///
/// # Errors
///
/// As `finish`: the last piece was not published. The entry is halted.
pub fn dir_finish<C: Cell, O: Origin, St: Station<C = C>>(
    dirs: &Dirs<C, O>,
    pass: &mut DirPass<C>,
    stations: &mut [St],
    tab: u8,
) -> Result<Ended, WriteFault>
    requires pass { IsDirPass C.tells C.state O.offers dirs.now pass.old }
    requires tab { tab < 8 }
    requires stations { length stations.old ≡ dir_count dirs.now }
    requires may { AtPass dirs.now pass.old (dir_of pass.old tab) (λ s p. (e : Entry) × MayFinish C.tells C.state O.offers s tab e p) }
    ensures ok { AtDir dirs.now pass.old pass.new (dir_of pass.old tab) (λ s p q. (e : Entry) → MayFinish C.tells C.state O.offers s tab e p → IfOk result (λ ended. Finished C.tells C.state O.offers s tab e p q ended)) }
    ensures durable { AtDir dirs.now pass.old pass.new (dir_of pass.old tab) (λ s p q. (e : Entry) → MayFinish C.tells C.state O.offers s tab e p → e.is_durable ≡ true → LoggedSoFar (basis C.tells C.state O.offers s) e (view p) → OnOk result (ClosedDurably (basis C.tells C.state O.offers s) tab e (view q))) }
    ensures err { AtDir dirs.now pass.old pass.new (dir_of pass.old tab) (λ s p q. (e : Entry) → MayFinish C.tells C.state O.offers s tab e p → IfErr result (λ fault. NotFinished C.tells C.state O.offers s tab e p q fault)) }
    ensures others { AtDir dirs.now pass.old pass.new (dir_of pass.old tab) (λ s p q. FollowsWriting C.tells C.state O.offers s tab p q) }
    ensures quiet { AtDir dirs.now pass.old pass.new (dir_of pass.old tab) (λ s p q. Quiet (view p) (view q)) }
    ensures only { OnlyDir (dir_of pass.old tab) pass.old pass.new }
    ensures own { IsDirPass C.tells C.state O.offers dirs.now pass.new }
    ensures unfailed { (IsErrOf result WriteFault.Fault → ⊥) → AtItem stations.old stations.new (dir_of pass.old tab) (λ x y. St.faults y ≡ St.faults x) }
    ensures failed { IsErrOf result WriteFault.Fault → AtItem stations.old stations.new (dir_of pass.old tab) (λ x y. Rose (St.faults x) (St.faults y)) }
    ensures stations { OnlyItem (dir_of pass.old tab) stations.old stations.new }
{
    let dir = pass.index_of(tab);
    finish(
        &dirs.stores[dir],
        &mut pass.passes[dir],
        &mut stations[dir],
        tab,
    )
}

/// Gives up the entry that a tab writes. The entry is halted, and the tab free.
pub fn dir_abort<C: Cell, O: Origin>(dirs: &Dirs<C, O>, pass: &mut DirPass<C>, tab: u8)
    requires pass { IsDirPass C.tells C.state O.offers dirs.now pass.old }
    requires tab { tab < 8 }
    requires may { AtPass dirs.now pass.old (dir_of pass.old tab) (λ s p. (e : Entry) × WritesAs C.tells C.state O.offers s p tab e) }
    ensures halts { AtDir dirs.now pass.old pass.new (dir_of pass.old tab) (λ s p q. Halts (basis C.tells C.state O.offers s) tab (view p) (view q)) }
    ensures others { AtDir dirs.now pass.old pass.new (dir_of pass.old tab) (λ s p q. FollowsTab C.tells C.state O.offers s tab p q) }
    ensures quiet { AtDir dirs.now pass.old pass.new (dir_of pass.old tab) (λ s p q. Quiet (view p) (view q)) }
    ensures only { OnlyDir (dir_of pass.old tab) pass.old pass.new }
    ensures own { IsDirPass C.tells C.state O.offers dirs.now pass.new }
{
    let dir = pass.index_of(tab);
    abort(&dirs.stores[dir], &mut pass.passes[dir], tab);
}
