// An entry is begun, in one file after the other in turn.
ghost use Rattle.std.specs.Prelude.{IfErr, IfOk, IfSome, IsErrOf, IsNone, OnErr, false, length, slice_set, true, ◌<◌, ◌↔◌, ◌≡◌, ◌≤◌, ◌⊎◌, ℕ};
ghost use Rattle.dir_set.specs.Beginning.{BeginsAmong, BeginsAt, BegunBy, MayBeginIn, PurgesFirst, RefusedBegin, RefusesAll, RefusesAmong, RefusesBegin, next_dir, offer_in};
ghost use Rattle.dir_set.specs.Dirs.{AreOfOneSize, AtDir, AtPass, AtStore, EachDir, EachPass, EachStore, IsDirPass, NoneBehind, OnlyDir, PassesMove, answer_at, dir_count, dir_of};
ghost use Rattle.rock_writer.specs.Beginning.{IsTooLong};
ghost use Rattle.store_rule.specs.Passes.{basis};

use crate::dirs::{DirPass, Dirs};
use crate::fault::DirBeginFault;
use crate::purging::purge_all;
use rock_disk::Cell;
use rock_writer::{BeginFault, begin};
use slot_cell::HEADER_SIZE;
use store_rule::{Origin, Store};
use swap_meta::META_SIZE;

/// Purges the entry with the key of a URL in every file, and then begins one for the response of a line, in the file
/// at the hand of the pass, or the next one that takes it. Answers the file and the version. The hand is then behind
/// that file. The response is the offer that has so many numbers above those of the slots of the file.
///
/// # Errors
///
/// [`DirBeginFault::LongUrl`] exactly where a slot has no room for the metadata: nothing is purged then.
/// [`DirBeginFault::AllRefused`] with the fault of each file; the hand stays.
pub fn dir_begin<C: Cell, O: Origin>(
    dirs: &Dirs<C, O>,
    pass: &mut DirPass<C>,
    tab: u8,
    line: u32,
    url: &[u8],
    durable: bool,
) -> Result<(u32, u32), DirBeginFault>
    requires pass { IsDirPass C.tells C.state O.offers dirs.now pass.old }
    requires tab { tab < 8 }
    requires sizes { AreOfOneSize C.tells C.state O.offers dirs.now }
    requires may { EachPass dirs.now pass.old (MayBeginIn C.tells C.state O.offers tab line url.now) }
    ensures long { EachStore dirs.now (λ d s. IsErrOf result DirBeginFault.LongUrl ↔ IsTooLong (basis C.tells C.state O.offers s) url.now) }
    ensures ok { IfOk result (λ begun. EachDir dirs.now pass.old pass.new (λ d s p q.
        PurgesFirst C.tells C.state O.offers url.now (BeginsAt C.tells C.state O.offers tab line url.now durable pass.old.hand begun.0 begun.1 d s) s p q)) }
    ensures there { IfOk result (λ begun. begun.0 < dir_count dirs.now) }
    ensures hand { IfOk result (λ begun. pass.new.hand ≡ next_dir (dir_count dirs.now) begun.0) }
    ensures tabs { IfOk result (λ begun. pass.new.tab_dirs ≡ slice_set pass.old.tab_dirs tab begun.0) }
    ensures at { IfOk result (λ begun. dir_of pass.new tab ≡ begun.0) }
    ensures err { IfErr result (RefusesAll C.tells C.state O.offers tab line url.now durable dirs.now pass.old pass.new) }
    ensures moves { OnErr result (PassesMove pass.old pass.new) }
    ensures own { IsDirPass C.tells C.state O.offers dirs.now pass.new }
{
    if is_too_long(dirs, url) {
        return Err(DirBeginFault::LongUrl);
    }
    purge_all(dirs, pass, url);
    let mut faults = [None; 8];
    match begin_round(dirs, pass, tab, line, url, durable, &mut faults) {
        Some(begun) => {
            pass.tab_dirs[tab as usize] = begun.0;
            pass.hand = next_of(dirs.count(), begun.0);
            Ok(begun)
        }
        None => Err(DirBeginFault::AllRefused { faults }),
    }
}

// The file behind this one, of so many.
fn next_of(many: u32, dir: u32) -> u32
    requires { dir < many }
    ensures value { result ≡ next_dir many dir }
    ensures inside { result < many }
{
    if dir + 1 == many { 0 } else { dir + 1 }
}

// Begins an entry in the first file, from the hand on and then from the first one on, that takes it, and answers the
// file and the version.
fn begin_round<C: Cell, O: Origin>(
    dirs: &Dirs<C, O>,
    pass: &mut DirPass<C>,
    tab: u8,
    line: u32,
    url: &[u8],
    durable: bool,
    faults: &mut [Option<BeginFault>],
) -> Option<(u32, u32)>
    requires pass { IsDirPass C.tells C.state O.offers dirs.now pass.old }
    requires room { length faults.old ≡ 8 }
    requires short { EachStore dirs.now (λ d s. IsTooLong (basis C.tells C.state O.offers s) url.now → ⊥) }
    requires may { EachPass dirs.now pass.old (MayBeginIn C.tells C.state O.offers tab line url.now) }
    ensures some { IfSome result (λ begun. (begun.0 < dir_count dirs.now)
        × EachDir dirs.now pass.old pass.new (BeginsAt C.tells C.state O.offers tab line url.now durable pass.old.hand begun.0 begun.1)) }
    ensures none { IsNone result → EachDir dirs.now pass.old pass.new (RefusesBegin C.tells C.state O.offers tab line url.now durable faults.new) }
    ensures behind { NoneBehind (dir_count dirs.now) faults.old → NoneBehind (dir_count dirs.now) faults.new }
    ensures length { length faults.new ≡ length faults.old }
    ensures moves { PassesMove pass.old pass.new }
    ensures own { IsDirPass C.tells C.state O.offers dirs.now pass.new }
{
    let hand = pass.hand;
    match begin_among(
        dirs,
        pass,
        hand,
        dirs.count(),
        tab,
        line,
        url,
        durable,
        faults,
    ) {
        Some(begun) => Some(begun),
        None => begin_among(dirs, pass, 0, hand, tab, line, url, durable, faults),
    }
}

// Begins an entry in the first of the files from one to another that takes it, and answers the file and the version.
fn begin_among<C: Cell, O: Origin>(
    dirs: &Dirs<C, O>,
    pass: &mut DirPass<C>,
    from: u32,
    to: u32,
    tab: u8,
    line: u32,
    url: &[u8],
    durable: bool,
    faults: &mut [Option<BeginFault>],
) -> Option<(u32, u32)>
    requires pass { IsDirPass C.tells C.state O.offers dirs.now pass.old }
    requires order { from ≤ to }
    requires to { to ≤ dir_count dirs.now }
    requires room { length faults.old ≡ 8 }
    requires short { EachStore dirs.now (λ d s. IsTooLong (basis C.tells C.state O.offers s) url.now → ⊥) }
    requires may { (d : ℕ) → from ≤ d → d < to → AtPass dirs.now pass.old d (MayBeginIn C.tells C.state O.offers tab line url.now d) }
    ensures some { IfSome result (λ begun. (from ≤ begun.0) × (begun.0 < to)
        × EachDir dirs.now pass.old pass.new (BeginsAmong C.tells C.state O.offers tab line url.now durable from begun.0 begun.1)) }
    ensures none { IsNone result → EachDir dirs.now pass.old pass.new (RefusesAmong C.tells C.state O.offers tab line url.now durable from to faults.new) }
    ensures faults { (d : ℕ) → (d < from) ⊎ (to ≤ d) → answer_at faults.new d ≡ answer_at faults.old d }
    ensures length { length faults.new ≡ length faults.old }
    ensures moves { PassesMove pass.old pass.new }
    ensures own { IsDirPass C.tells C.state O.offers dirs.now pass.new }
{
    for dir in from..to {
        match begin_in(dirs, pass, dir, tab, line, url, durable) {
            Ok(version) => return Some((dir, version)),
            Err(fault) => faults[dir as usize] = Some(fault),
        }
    }
    None
}

// Begins an entry in this file.
fn begin_in<C: Cell, O: Origin>(
    dirs: &Dirs<C, O>,
    pass: &mut DirPass<C>,
    dir: u32,
    tab: u8,
    line: u32,
    url: &[u8],
    durable: bool,
) -> Result<u32, BeginFault>
    requires pass { IsDirPass C.tells C.state O.offers dirs.now pass.old }
    requires there { dir < dir_count dirs.now }
    requires short { AtStore dirs.now dir (λ s. IsTooLong (basis C.tells C.state O.offers s) url.now → ⊥) }
    requires may { AtPass dirs.now pass.old dir (MayBeginIn C.tells C.state O.offers tab line url.now dir) }
    ensures ok { IfOk result (λ version. AtDir dirs.now pass.old pass.new dir (λ s p q. BegunBy C.tells C.state O.offers tab line url.now durable s p q version)) }
    ensures err { IfErr result (λ fault. AtDir dirs.now pass.old pass.new dir (λ s p q. RefusedBegin C.tells C.state O.offers tab line url.now durable s p q fault)) }
    ensures only { OnlyDir dir pass.old pass.new }
    ensures own { IsDirPass C.tells C.state O.offers dirs.now pass.new }
{
    let at = dir as usize;
    let store = &dirs.stores[at];
    let offer = offer_of(store, line);
    match begin(store, &mut pass.passes[at], tab, offer, url, durable) {
        Ok(version) => Ok(version),
        Err(fault) => Err(fault),
    }
}

// The offer of a line in the store of one file.
fn offer_of<C: Cell, O: Origin>(store: &Store<C, O>, line: u32) -> u64
    ensures { result ≡ offer_in C.tells C.state O.offers store.now line }
{
    u64::from(store.slots()) + u64::from(line)
}

// Whether a slot has no room for the metadata of a URL. The slots of all files are of one size.
fn is_too_long<C: Cell, O: Origin>(dirs: &Dirs<C, O>, url: &[u8]) -> bool
    requires { AreOfOneSize C.tells C.state O.offers dirs.now }
    ensures long { result ≡ true → EachStore dirs.now (λ d s. IsTooLong (basis C.tells C.state O.offers s) url.now) }
    ensures short { result ≡ false → EachStore dirs.now (λ d s. IsTooLong (basis C.tells C.state O.offers s) url.now → ⊥) }
{
    let size = u64::from(dirs.stores[0].slot_size());
    let room = size.saturating_sub(HEADER_SIZE as u64);
    room < (url.len() as u64).saturating_add(META_SIZE as u64)
}
