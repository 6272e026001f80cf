// An entry is purged in every file.
ghost use Rattle.std.specs.Prelude.{IfErr, IfOk, None, Some, false, length, true, ◌<◌, ◌≡◌, ◌≢◌, ℕ};
ghost use Rattle.core_model.specs.Tabs.{inner};
ghost use Rattle.dir_set.specs.Answers.{EachMissed, PurgeSays, PurgesIfThere};
ghost use Rattle.dir_set.specs.Dirs.{AtDir, AtPass, EachDir, EachPass, IsDirPass, NoneBehind, OnlyDir, PassesMove, answer_at, dir_count};
ghost use Rattle.lock_word.specs.declared.epoch.Epoch.{Epoch as EpochOf};
ghost use Rattle.purge_entry.specs.Purging.{MayPurge};

use crate::dirs::{DirPass, Dirs};
use crate::fault::DirMiss;
use lock_word::{Cause, Epoch};
use purge_entry::purge;
use rock_disk::Cell;
use store_rule::Origin;

/// What the purge of each file answered, in order: the epoch that it left, or why there was no entry.
#[derive(Clone, Copy)]
pub(crate) struct Purges {
    pub(crate) left: [Option<Epoch>; 8],
    pub(crate) causes: [Option<Cause>; 8],
}

/// Purges the entry with the key of a URL in every file: nobody may read it from now on. Answers the epoch that this
/// left, of each file that had it. At least one had.
///
/// # Errors
///
/// No file had it, with the cause of each.
pub fn dir_purge<C: Cell, O: Origin>(
    dirs: &Dirs<C, O>,
    pass: &mut DirPass<C>,
    url: &[u8],
) -> Result<[Option<Epoch>; 8], DirMiss>
    requires pass { IsDirPass C.tells C.state O.offers dirs.now pass.old }
    requires may { EachPass dirs.now pass.old (λ d s p. MayPurge C.tells C.state O.offers s p url.now) }
    ensures ok { IfOk result (λ left. EachDir dirs.now pass.old pass.new (λ d s p q. PurgesIfThere C.tells C.state O.offers url.now s p q (answer_at left d))) }
    ensures some { IfOk result (λ left. (d : ℕ) × (d < dir_count dirs.now) × ((epoch : EpochOf) × (answer_at left d ≡ Some epoch))) }
    ensures err { IfErr result (λ miss. EachMissed C.tells C.state O.offers dirs.now pass.old pass.new inner url.now miss.causes) }
    ensures behind_ok { IfOk result (λ left. NoneBehind (dir_count dirs.now) left) }
    ensures behind_err { IfErr result (λ miss. NoneBehind (dir_count dirs.now) miss.causes) }
    ensures moves { PassesMove pass.old pass.new }
    ensures own { IsDirPass C.tells C.state O.offers dirs.now pass.new }
{
    let purges = purge_all(dirs, pass, url);
    if has_some(&purges.left) {
        Ok(purges.left)
    } else {
        Err(DirMiss {
            causes: purges.causes,
        })
    }
}

// Whether an epoch stands in a list.
fn has_some(left: &[Option<Epoch>]) -> bool
    ensures some { result ≡ true → (d : ℕ) × ((epoch : EpochOf) × (answer_at left.now d ≡ Some epoch)) }
    ensures none { result ≡ false → (d : ℕ) → answer_at left.now d ≡ None }
{
    for epoch in left {
        if epoch.is_some() {
            return true;
        }
    }
    false
}

/// Purges the entry with the key of a URL in every file.
pub(crate) fn purge_all<C: Cell, O: Origin>(
    dirs: &Dirs<C, O>,
    pass: &mut DirPass<C>,
    url: &[u8],
) -> Purges
    requires pass { IsDirPass C.tells C.state O.offers dirs.now pass.old }
    requires may { EachPass dirs.now pass.old (λ d s p. MayPurge C.tells C.state O.offers s p url.now) }
    ensures says { EachDir dirs.now pass.old pass.new (λ d s p q. PurgeSays C.tells C.state O.offers url.now s p q (answer_at result.left d) (answer_at result.causes d)) }
    ensures behind { NoneBehind (dir_count dirs.now) result.left × NoneBehind (dir_count dirs.now) result.causes }
    ensures moves { PassesMove pass.old pass.new }
    ensures own { IsDirPass C.tells C.state O.offers dirs.now pass.new }
{
    let mut left = [None; 8];
    let mut causes = [None; 8];
    for dir in 0..dirs.count() {
        purge_in(dirs, pass, dir, url, &mut left, &mut causes);
    }
    Purges { left, causes }
}

// Purges the entry with the key of a URL in this file, and puts the answer at its place.
fn purge_in<C: Cell, O: Origin>(
    dirs: &Dirs<C, O>,
    pass: &mut DirPass<C>,
    dir: u32,
    url: &[u8],
    left: &mut [Option<Epoch>],
    causes: &mut [Option<Cause>],
)
    requires pass { IsDirPass C.tells C.state O.offers dirs.now pass.old }
    requires there { dir < dir_count dirs.now }
    requires room { (length left.old ≡ 8) × (length causes.old ≡ 8) }
    requires none { (answer_at left.old dir ≡ None) × (answer_at causes.old dir ≡ None) }
    requires may { AtPass dirs.now pass.old dir (λ s p. MayPurge C.tells C.state O.offers s p url.now) }
    ensures says { AtDir dirs.now pass.old pass.new dir (λ s p q. PurgeSays C.tells C.state O.offers url.now s p q (answer_at left.new dir) (answer_at causes.new dir)) }
    ensures beside { (d : ℕ) → d ≢ dir → (answer_at left.new d ≡ answer_at left.old d) × (answer_at causes.new d ≡ answer_at causes.old d) }
    ensures length { (length left.new ≡ 8) × (length causes.new ≡ 8) }
    ensures only { OnlyDir dir pass.old pass.new }
    ensures own { IsDirPass C.tells C.state O.offers dirs.now pass.new }
{
    let at = dir as usize;
    match purge(&dirs.stores[at], &mut pass.passes[at], url) {
        Ok(epoch) => left[at] = Some(epoch),
        Err(cause) => causes[at] = Some(cause),
    }
}
