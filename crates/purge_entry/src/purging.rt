// An entry is purged.
ghost use Rattle.core_model.specs.Tabs.{inner};
ghost use Rattle.purge_entry.specs.Purging.{MayPurge, Purged};
ghost use Rattle.rock_reader.specs.Opening.{Refused};
ghost use Rattle.slice_chain.specs.Freeing.{FollowsTab};
ghost use Rattle.store_rule.specs.Quiet.{DoomsNothing};
ghost use Rattle.std.specs.Prelude.{IfErr, IfOk, OnErr, ◌≡◌};
ghost use Rattle.store_rule.specs.Passes.{basis, view};

use core_model::INNER_TAB;
use lock_word::{Cause, Epoch};
use rock_disk::Cell;
use rock_reader::{come, part};
use rw_anchor::doom;
use store_rule::{Origin, Pass, Store};

/// Purges the entry with the key of a URL: nobody may read it from now on, and its last user gives its slots
/// back. Answers the epoch that this left, which has the doom bit.
///
/// # Errors
///
/// Why there is no such entry to read, with the epoch that was found, which is not older than any that the pass
/// has seen at its anchor.
pub fn purge<C: Cell, O: Origin>(
    store: &Store<C, O>,
    pass: &mut Pass<C>,
    url: &[u8],
) -> Result<Epoch, Cause>
    requires { MayPurge C.tells C.state O.offers store.now pass.old url.now }
    ensures ok { IfOk result (λ left. Purged (basis C.tells C.state O.offers store.now) inner url.now (view pass.old) left (view pass.new)) }
    ensures err { IfErr result (λ cause. Refused (basis C.tells C.state O.offers store.now) inner url.now (view pass.old) cause (view pass.new)) }
    ensures free { (view pass.new).tabs ≡ (view pass.old).tabs }
    ensures others { FollowsTab C.tells C.state O.offers store.now inner pass.old pass.new }
    ensures quiet { OnErr result (DoomsNothing (view pass.old) (view pass.new)) }
{
    come(store, pass, INNER_TAB, url)?;
    let word = doom(store, pass, INNER_TAB);
    part(store, pass, INNER_TAB);
    Ok(word.epoch)
}
