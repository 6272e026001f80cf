// The files of a cache while they are opened one after the other, and closed again.
ghost use Rattle.std.specs.Prelude.{All, IfOk, Some, length, slice_get, vec_capacity, vec_len, ◌<◌, ◌≡◌, ◌≤◌, ℕ};
ghost use Rattle.dir_set.specs.Files.{ArePassesAt};
ghost use Rattle.dir_set.specs.Parts.{Dealt, Gathered, IsWorker};
ghost use Rattle.dir_set.specs.declared.dirs.DirPass.{DirPass as DirPassOf};

use crate::dirs::DirPass;
use rock_disk::Cell;
use rock_io::Memory;
use rock_open::OpenStore;
use std::alloc::Global;
use store_rule::{Origin, Pass, Store};

/// What closing a file needs beside its store and its passes.
#[derive(Drop)]
pub struct DirHome<C> {
    /// The header area of the file.
    pub(crate) header: C,
    /// The emptied vector in which the passes of the file came. They go back in it.
    pub(crate) room: Vec<Pass<C>>,
}

/// The files that are open, with the passes of each worker, and room for all files.
#[derive(Drop)]
pub(crate) struct Parts<C: Cell, O: Origin> {
    pub(crate) stores: Vec<Store<C, O>>,
    pub(crate) homes: Vec<DirHome<C>>,
    pub(crate) passes: Vec<DirPass<C>>,
}

impl<C: Cell, O: Origin> Parts<C, O> {
    ghost use Rattle.std.specs.Prelude.{IfOk, Some, length, slice_get, vec_capacity, vec_len, ◌<◌, ◌≡◌, ℕ};
    ghost use Rattle.dir_set.specs.Parts.{Adds, AreParts};
    ghost use Rattle.dir_set.specs.declared.dirs.DirPass.{DirPass as DirPassOf};

    /// No file is open yet. There is room for so many, with so many workers.
    pub(crate) fn with_room(alloc: Global, files: usize, workers: usize) -> Result<Self, Memory>
        ensures { IfOk result (AreParts files workers 0) }
    {
        Ok(Parts {
            stores: Vec::with_capacity(alloc, files)?,
            homes: Vec::with_capacity(alloc, files)?,
            passes: new_workers(alloc, files, workers)?,
        })
    }

    /// Adds a file that was opened behind the others.
    pub(crate) fn add(&mut self, opened: OpenStore<C, O>)
        requires stores { vec_len self.old.stores < vec_capacity self.old.stores }
        requires homes { vec_len self.old.homes < vec_capacity self.old.homes }
        requires many { vec_len opened.passes ≡ vec_len self.old.passes }
        requires passes { (w : ℕ) (a : DirPassOf C) → slice_get self.old.passes.items w ≡ Some a → vec_len a.passes < vec_capacity a.passes }
        ensures { Adds self.old self.new opened.store opened.header opened.passes }
    {
        let OpenStore {
            store,
            mut passes,
            header,
        } = opened;
        deal(&mut self.passes, &mut passes);
        self.stores.push_reserved(store);
        self.homes.push_reserved(DirHome {
            header,
            room: passes,
        });
    }
}

// Workers that have no pass yet, each with room for those of so many files.
fn new_workers<C: Drop>(
    alloc: Global,
    files: usize,
    workers: usize,
) -> Result<Vec<DirPass<C>>, Memory>
    ensures many { IfOk result (λ all. vec_len all ≡ workers) }
    ensures each { IfOk result (λ all. All (IsWorker files 0) all.items) }
{
    let mut all = Vec::with_capacity(alloc, workers)?;
    for _ in 0..workers {
        all.push_reserved(DirPass {
            passes: Vec::with_capacity(alloc, files)?,
            hand: 0,
            tab_dirs: [0; 8],
        });
    }
    Ok(all)
}

// Gives each worker one of the passes of a file, in order. The vector of the passes is empty then.
fn deal<C>(workers: &mut [DirPass<C>], passes: &mut Vec<Pass<C>>)
    requires many { vec_len passes.old ≡ length workers.old }
    requires room { (w : ℕ) (a : DirPassOf C) → slice_get workers.old w ≡ Some a → vec_len a.passes < vec_capacity a.passes }
    ensures dealt { Dealt workers.old workers.new passes.old.items }
    ensures emptied { vec_len passes.new ≡ 0 }
    ensures kept { vec_capacity passes.new ≡ vec_capacity passes.old }
{
    while let Some(pass) = passes.pop() {
        let worker = passes.len();
        workers[worker].passes.push_reserved(pass);
    }
}

/// Takes the pass of this file, the last one, from each worker, into the empty vector in which they came.
pub(crate) fn gather<C>(workers: &mut [DirPass<C>], dir: usize, room: &mut Vec<Pass<C>>)
    requires there { (w : ℕ) (a : DirPassOf C) → slice_get workers.old w ≡ Some a → dir < vec_len a.passes }
    requires empty { vec_len room.old ≡ 0 }
    requires room { length workers.old ≤ vec_capacity room.old }
    ensures passes { ArePassesAt workers.old dir room.new.items }
    ensures left { Gathered dir workers.old workers.new }
{
    for worker in 0..workers.len() {
        room.push_reserved(workers[worker].passes.remove(dir));
    }
}
