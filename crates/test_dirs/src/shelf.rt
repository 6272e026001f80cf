// A small cache in memory over several files, that is offered one body under two URLs, and what asking it comes to.
ghost use Rattle.std.specs.Prelude.{cond, length, ◌==◌, ◌≡◌};
ghost use Rattle.dir_set.specs.Dirs.{dir_count};
ghost use Rattle.test_dirs.specs.Offered.{IsReady, IsWriting, offers_in};

use dir_set::{
    DirMiss, DirPass, Dirs, dir_abort, dir_append, dir_begin, dir_close, dir_finish, dir_learn,
    dir_more, dir_note, dir_open, dir_purge,
};
use lock_word::{Cause, Epoch};
use rock_disk::{Cell, Station};
use rock_reader::{More, reading_tabs_may_go_on};
use rock_writer::{Ended, WriteFault};
use std::alloc::Global;
use std::sync::Wait;
use store_key::check_url;
use store_rule::Origin;

/// What is asked of the cache.
#[derive(Clone, Copy)]
pub enum Ask {
    Put,
    Get,
    Purge,
    /// What the worker has seen is copied, and added to what it has seen.
    Note,
}

/// The tab that it works on.
const TAB: u8 = 3;

fn chosen<'a>(is_second: bool, first: &'a [u8], second: &'a [u8]) -> (u32, &'a [u8])
    ensures { cond (result.0 == 0) first.now second.now ≡ result.1.now }
{
    if is_second { (1, second) } else { (0, first) }
}

/// Puts the body under one of the URLs.
pub fn put<C: Cell, O: Origin, St: Station<C = C>>(
    alloc: Global,
    dirs: &Dirs<C, O>,
    pass: &mut DirPass<C>,
    stations: &mut [St],
    line: u32,
    url: &[u8],
    first: &[u8],
    second: &[u8],
    body: &[u8],
) -> Option<String>
    requires ready { IsReady C.tells C.state O.offers TAB (offers_in first.now second.now body.now) dirs.now pass.old }
    requires stations { length stations.old ≡ dir_count dirs.now }
    requires url { cond (line == 0) first.now second.now ≡ url.now }
    ensures ready { IsReady C.tells C.state O.offers TAB (offers_in first.now second.now body.now) dirs.now pass.new }
    ensures stations { length stations.new ≡ length stations.old }
{
    let Ok(()) = check_url(url) else {
        return None;
    };
    match dir_begin(dirs, pass, TAB, line, url, false) {
        Ok(begun) => {
            let ended = stored(dirs, pass, stations, first, second, body);
            put_told(alloc, begun, ended)
        }
        Err(_) => refused(alloc),
    }
}

fn refused(alloc: Global) -> Option<String> {
    format!(in alloc; "REFUSED").ok()
}

fn put_told(alloc: Global, begun: (u32, u32), ended: Result<Ended, WriteFault>) -> Option<String> {
    let (dir, version) = begun;
    match ended {
        Ok(Ended::Stored { .. }) => format!(in alloc; "STORED {version}@{dir}").ok(),
        Ok(Ended::Doomed { .. }) => format!(in alloc; "DOOMED {version}@{dir}").ok(),
        Err(_) => format!(in alloc; "FAULT {version}@{dir}").ok(),
    }
}

// Writes the whole body, which is to fit into one slot, and ends the entry.
fn stored<C: Cell, O: Origin, St: Station<C = C>>(
    dirs: &Dirs<C, O>,
    pass: &mut DirPass<C>,
    stations: &mut [St],
    first: &[u8],
    second: &[u8],
    body: &[u8],
) -> Result<Ended, WriteFault>
    requires writing { IsWriting C.tells C.state O.offers TAB (offers_in first.now second.now body.now) body.now 0 dirs.now pass.old }
    requires stations { length stations.old ≡ dir_count dirs.now }
    ensures ready { IsReady C.tells C.state O.offers TAB (offers_in first.now second.now body.now) dirs.now pass.new }
    ensures stations { length stations.new ≡ length stations.old }
{
    let taken = match dir_append(dirs, pass, stations, TAB, body) {
        Ok(taken) => taken,
        Err(fault) => return Err(fault),
    };
    if taken < body.len() {
        dir_abort(dirs, pass, TAB);
        return Err(WriteFault::Large);
    }
    dir_finish(dirs, pass, stations, TAB)
}

/// Reads what is stored under one of the URLs, of its first slot.
pub fn get<R: Wait, C: Cell, O: Origin, St: Station<C = C>>(
    rt: &R,
    alloc: Global,
    dirs: &Dirs<C, O>,
    pass: &mut DirPass<C>,
    stations: &mut [St],
    url: &[u8],
    first: &[u8],
    second: &[u8],
    body: &[u8],
) -> Option<String>
    requires ready { IsReady C.tells C.state O.offers TAB (offers_in first.now second.now body.now) dirs.now pass.old }
    requires stations { length stations.old ≡ dir_count dirs.now }
    ensures ready { IsReady C.tells C.state O.offers TAB (offers_in first.now second.now body.now) dirs.now pass.new }
    ensures stations { length stations.new ≡ length stations.old }
{
    reading_tabs_may_go_on::<C, O>();
    let mut out = [0u8; 600];
    match dir_open(dirs, pass, TAB, url) {
        Ok(opened) => {
            let more = dir_more(rt, dirs, pass, stations, TAB, &mut out);
            dir_close(dirs, pass, TAB);
            hit_told(alloc, opened, more)
        }
        Err(miss) => missed(alloc, &miss),
    }
}

fn hit_told(alloc: Global, opened: (u32, u32), more: More) -> Option<String> {
    let (dir, version) = opened;
    format!(in alloc; "HIT {version}@{dir} {more:?}").ok()
}

/// Purges one of the URLs.
pub fn purged<C: Cell, O: Origin>(
    alloc: Global,
    dirs: &Dirs<C, O>,
    pass: &mut DirPass<C>,
    url: &[u8],
    first: &[u8],
    second: &[u8],
    body: &[u8],
) -> Option<String>
    requires ready { IsReady C.tells C.state O.offers TAB (offers_in first.now second.now body.now) dirs.now pass.old }
    ensures ready { IsReady C.tells C.state O.offers TAB (offers_in first.now second.now body.now) dirs.now pass.new }
{
    match dir_purge(dirs, pass, url) {
        Ok(left) => purge_told(alloc, &left),
        Err(miss) => missed(alloc, &miss),
    }
}

fn purge_told(alloc: Global, left: &[Option<Epoch>]) -> Option<String> {
    let mut text = String::new(alloc);
    text.push_str("PURGED").ok()?;
    for epoch in left {
        let word = match epoch {
            Some(epoch) => format!(in alloc; " {}.{:?}", epoch.version, epoch.doom).ok()?,
            None => format!(in alloc; " -").ok()?,
        };
        text.push_str(word.as_str()).ok()?;
    }
    Some(text)
}

/// Copies what the worker has seen of each file, and adds it to what it has seen.
pub fn noted<C: Cell, O: Origin>(
    alloc: Global,
    dirs: &Dirs<C, O>,
    pass: &mut DirPass<C>,
    first: &[u8],
    second: &[u8],
    body: &[u8],
) -> Option<String>
    requires ready { IsReady C.tells C.state O.offers TAB (offers_in first.now second.now body.now) dirs.now pass.old }
    ensures ready { IsReady C.tells C.state O.offers TAB (offers_in first.now second.now body.now) dirs.now pass.new }
{
    let note = dir_note(dirs, pass);
    dir_learn(dirs, pass, note);
    format!(in alloc; "NOTED").ok()
}

fn missed(alloc: Global, miss: &DirMiss) -> Option<String> {
    let mut text = String::new(alloc);
    text.push_str("MISS").ok()?;
    for cause in &miss.causes {
        let word = match cause {
            Some(Cause::Absent { epoch }) => format!(in alloc; " absent {}", epoch.version).ok()?,
            Some(Cause::Writing { epoch }) => {
                format!(in alloc; " writing {}", epoch.version).ok()?
            }
            Some(Cause::Leaving { epoch }) => {
                format!(in alloc; " leaving {}", epoch.version).ok()?
            }
            Some(Cause::OtherKey { epoch, .. }) => {
                format!(in alloc; " other {}", epoch.version).ok()?
            }
            None => format!(in alloc; " -").ok()?,
        };
        text.push_str(word.as_str()).ok()?;
    }
    Some(text)
}

/// Asks one thing after the other, and tells each answer on a line.
pub fn told_all<R: Wait, C: Cell, O: Origin, St: Station<C = C>>(
    rt: &R,
    alloc: Global,
    dirs: &Dirs<C, O>,
    pass: &mut DirPass<C>,
    stations: &mut [St],
    first: &[u8],
    second: &[u8],
    body: &[u8],
    asks: &[(Ask, bool)],
) -> Option<String>
    requires ready { IsReady C.tells C.state O.offers TAB (offers_in first.now second.now body.now) dirs.now pass.old }
    requires stations { length stations.old ≡ dir_count dirs.now }
    ensures stations { length stations.new ≡ length stations.old }
{
    let mut text = String::new(alloc);
    for ask in asks {
        let word = told(
            rt, alloc, dirs, pass, stations, first, second, body, ask.0, ask.1,
        )?;
        text.push_str(word.as_str()).ok()?;
        text.push_str("\n").ok()?;
    }
    Some(text)
}

fn told<R: Wait, C: Cell, O: Origin, St: Station<C = C>>(
    rt: &R,
    alloc: Global,
    dirs: &Dirs<C, O>,
    pass: &mut DirPass<C>,
    stations: &mut [St],
    first: &[u8],
    second: &[u8],
    body: &[u8],
    ask: Ask,
    is_second: bool,
) -> Option<String>
    requires ready { IsReady C.tells C.state O.offers TAB (offers_in first.now second.now body.now) dirs.now pass.old }
    requires stations { length stations.old ≡ dir_count dirs.now }
    ensures ready { IsReady C.tells C.state O.offers TAB (offers_in first.now second.now body.now) dirs.now pass.new }
    ensures stations { length stations.new ≡ length stations.old }
{
    let (line, url) = chosen(is_second, first, second);
    match ask {
        Ask::Put => put(alloc, dirs, pass, stations, line, url, first, second, body),
        Ask::Get => get(rt, alloc, dirs, pass, stations, url, first, second, body),
        Ask::Purge => purged(alloc, dirs, pass, url, first, second, body),
        Ask::Note => noted(alloc, dirs, pass, first, second, body),
    }
}
