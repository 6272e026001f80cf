// The files of a cache, and what a worker steps with on them.
ghost use Rattle.std.specs.Prelude.{vec_len, ◌<◌, ◌≤◌};
ghost use Rattle.dir_set.specs.declared.dirs.TheConstants.{MOST_DIRS};

use rock_disk::Cell;
use store_rule::{Origin, Pass, Store};

/// The most files that a cache may have.
pub const MOST_DIRS: usize = 8;

/// The stores of the files of a cache, in order. Workers share them by reference, and each works on them with its own
/// [`DirPass`].
#[derive(Drop)]
pub struct Dirs<C: Cell, O: Origin> {
    pub(crate) stores: Vec<Store<C, O>>,
    ghost some: { 0 < vec_len stores },
    ghost few: { vec_len stores ≤ MOST_DIRS },
}

/// What one worker steps with: a pass of each file, in order.
#[derive(Drop)]
pub struct DirPass<C> {
    pub(crate) passes: Vec<Pass<C>>,
    /// The file in which the next entry is begun, if it takes it.
    pub(crate) hand: u32,
    /// The file at which each tab works, or worked last.
    pub(crate) tab_dirs: [u32; 8],
}

impl<C: Cell, O: Origin> Dirs<C, O> {
    ghost use Rattle.std.specs.Prelude.{Some, length, slice_get, vec_len, ◌<◌, ◌≡◌, ◌≤◌, ℕ};
    ghost use Rattle.dir_set.specs.declared.dirs.TheConstants.{MOST_DIRS};
    ghost use Rattle.dir_set.specs.Dirs.{IsDirPass};
    ghost use Rattle.store_rule.specs.Passes.{IsOf};
    ghost use Rattle.store_rule.specs.declared.store.Pass.{Pass as PassOf};
    ghost use Rattle.store_rule.specs.declared.store.Store.{Store as StoreOf};

    /// A cache over the files of these stores, in this order. It takes no memory.
    pub fn from_stores(stores: Vec<Store<C, O>>) -> Self
        requires some { 0 < vec_len stores }
        requires few { vec_len stores ≤ MOST_DIRS }
        ensures { result.stores ≡ stores }
    {
        Dirs { stores }
    }

    /// A worker's passes of these files, one of each, in order. Its first entry is begun in the first file. It takes no
    /// memory.
    pub fn pass(&self, passes: Vec<Pass<C>>) -> DirPass<C>
        requires many { vec_len passes ≡ vec_len self.now.stores }
        requires own { (d : ℕ) (s : StoreOf C O) (p : PassOf C) → slice_get self.now.stores.items d ≡ Some s
            → slice_get passes.items d ≡ Some p → IsOf C.tells C.state O.offers s p }
        ensures own { IsDirPass C.tells C.state O.offers self.now result }
        ensures passes { result.passes ≡ passes }
        ensures hand { result.hand ≡ 0 }
    {
        DirPass {
            passes,
            hand: 0,
            tab_dirs: [0; 8],
        }
    }

    /// The stores of the files, in order.
    pub fn stores(&self) -> &[Store<C, O>]
        ensures { result.now ≡ self.now.stores.items }
    {
        &self.stores
    }

    /// How many files there are, 1 to 8.
    pub fn count(&self) -> u32
        ensures value { result ≡ length self.now.stores.items }
        ensures some { 0 < result }
        ensures few { result ≤ MOST_DIRS }
    {
        self.stores.len() as u32
    }
}

impl<C> DirPass<C> {
    ghost use Rattle.std.specs.Prelude.{slice_index, ◌<◌, ◌≡◌};

    /// The file in which the next entry is begun, if it takes it.
    pub fn hand(&self) -> u32
        ensures { result ≡ self.now.hand }
    {
        self.hand
    }

    /// The file at which a tab works, or worked last.
    pub fn dir(&self, tab: u8) -> u32
        requires { tab < 8 }
        ensures { result ≡ slice_index self.now.tab_dirs tab }
    {
        self.tab_dirs[tab as usize]
    }

    // The file at which a tab works, or worked last, as a place in the lists of stores, passes and stations.
    pub(crate) fn index_of(&self, tab: u8) -> usize
        requires { tab < 8 }
        ensures { result ≡ slice_index self.now.tab_dirs tab }
    {
        self.tab_dirs[tab as usize] as usize
    }
}
