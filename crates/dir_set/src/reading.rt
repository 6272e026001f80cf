// The entry that a tab reads, in the file of the tab.
ghost use Rattle.std.specs.Prelude.{length, ◌<◌, ◌≡◌, ◌≢◌};
ghost use Rattle.core_model.specs.Tabs.{inner, tab_at, with_tab};
ghost use Rattle.core_model.specs.declared.tab.Tab.TheVariants.{Free};
ghost use Rattle.dir_set.specs.Dirs.{AtDir, AtItem, AtPass, IsDirPass, OnlyDir, OnlyItem, dir_count, dir_of};
ghost use Rattle.rock_io.specs.Faults.{Rose};
ghost use Rattle.rock_reader.specs.Closing.{MayClose, Parted};
ghost use Rattle.rock_reader.specs.Reading.{Gave, MayRead, ReadsAs, Standing};
ghost use Rattle.rock_reader.specs.Wanted.{FollowsReader};
ghost use Rattle.slice_chain.specs.Freeing.{FollowsTab};
ghost use Rattle.store_rule.specs.Passes.{basis, view};
ghost use Rattle.store_rule.specs.Quiet.{Quiet};

use crate::dirs::{DirPass, Dirs};
use rock_disk::{Cell, Station};
use rock_reader::{More, close_entry, more};
use std::sync::Wait;
use store_rule::Origin;

/// Reads on for a tab, as `more` of the tab's file. There is a station for each file, in order. It waits for the turn at
/// one cell, and for nothing else.
pub fn dir_more<R: Wait, C: Cell, O: Origin, St: Station<C = C>>(
    rt: &R,
    dirs: &Dirs<C, O>,
    pass: &mut DirPass<C>,
    stations: &mut [St],
    tab: u8,
    out: &mut [u8],
) -> More
    requires pass { IsDirPass C.tells C.state O.offers dirs.now pass.old }
    requires tab { tab < 8 }
    requires stations { length stations.old ≡ dir_count dirs.now }
    requires may { AtPass dirs.now pass.old (dir_of pass.old tab) (λ s p. MayRead C.tells C.state O.offers s p tab (length out.old)) }
    ensures gave { AtDir dirs.now pass.old pass.new (dir_of pass.old tab) (λ s p q. (e : Standing) → ReadsAs C.tells C.state O.offers s p tab e → Gave C.tells C.state O.offers s tab p e out.old out.new q result) }
    ensures others { AtDir dirs.now pass.old pass.new (dir_of pass.old tab) (λ s p q. FollowsReader C.tells C.state O.offers s tab p q) }
    ensures quiet { AtDir dirs.now pass.old pass.new (dir_of pass.old tab) (λ s p q. Quiet (view p) (view q)) }
    ensures inner { AtDir dirs.now pass.old pass.new (dir_of pass.old tab) (λ s p q. tab_at (view q) inner ≡ tab_at (view p) inner) }
    ensures length { length out.new ≡ length out.old }
    ensures only { OnlyDir (dir_of pass.old tab) pass.old pass.new }
    ensures own { IsDirPass C.tells C.state O.offers dirs.now pass.new }
    ensures failed { result ≡ More.Fault → AtItem stations.old stations.new (dir_of pass.old tab) (λ x y. Rose (St.faults x) (St.faults y)) }
    ensures unfailed { result ≢ More.Fault → AtItem stations.old stations.new (dir_of pass.old tab) (λ x y. St.faults y ≡ St.faults x) }
    ensures stations { OnlyItem (dir_of pass.old tab) stations.old stations.new }
{
    let dir = pass.index_of(tab);
    more(
        rt,
        &dirs.stores[dir],
        &mut pass.passes[dir],
        &mut stations[dir],
        tab,
        out,
    )
}

/// Closes the entry that a tab reads, and frees the tab, as `close_entry` of the tab's file.
pub fn dir_close<C: Cell, O: Origin>(dirs: &Dirs<C, O>, pass: &mut DirPass<C>, tab: u8)
    requires pass { IsDirPass C.tells C.state O.offers dirs.now pass.old }
    requires tab { tab < 8 }
    requires may { AtPass dirs.now pass.old (dir_of pass.old tab) (λ s p. MayClose C.tells C.state O.offers s p tab) }
    ensures parted { AtDir dirs.now pass.old pass.new (dir_of pass.old tab) (λ s p q. Parted (basis C.tells C.state O.offers s) tab (view p) (view q)) }
    ensures free { AtDir dirs.now pass.old pass.new (dir_of pass.old tab) (λ s p q. (view q).tabs ≡ with_tab (view p) tab Free) }
    ensures others { AtDir dirs.now pass.old pass.new (dir_of pass.old tab) (λ s p q. FollowsTab C.tells C.state O.offers s tab p q) }
    ensures quiet { AtDir dirs.now pass.old pass.new (dir_of pass.old tab) (λ s p q. Quiet (view p) (view q)) }
    ensures only { OnlyDir (dir_of pass.old tab) pass.old pass.new }
    ensures own { IsDirPass C.tells C.state O.offers dirs.now pass.new }
{
    let dir = pass.index_of(tab);
    close_entry(&dirs.stores[dir], &mut pass.passes[dir], tab);
}
