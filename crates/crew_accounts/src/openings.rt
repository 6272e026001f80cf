// A store that was opened over a file has a run, as the laws on lines ask. The function here does nothing: the proof of a
// function that calls it may use what it ensures.
ghost use Rattle.std.specs.Prelude.{List, ◌<◌, ℕ};
ghost use Rattle.std.specs.Global.{Vec};
ghost use Rattle.store_rule.specs.declared.store.Pass.{Pass};
ghost use Rattle.store_rule.specs.declared.store.Store.{Store};
ghost use Rattle.store_rule.specs.Passes.{basis};
ghost use Rattle.rock_open.specs.Opening.{IsStoreOver};
ghost use Rattle.crew_accounts.specs.Openings.{HasPast, OpenedAsKept};

use rebuild_model::{one_entry_at_a_slot, one_winner_at_an_anchor};
use rock_disk::Cell;
use rock_reader::opened_stores_hold_their_files;
use store_rule::Origin;

/// What `open_store` ensures of a store (`IsStoreOver`), in the words of accounts.
///
/// Each anchor had at the opening what a rebuild of the file keeps there, or nothing (`opening`). There is a past for
/// which the run of the store is as the laws on lines ask; where the cells tell what they hold, it has each entry that a
/// rebuild of them keeps (`past`).
pub fn opened_stores_have_runs<C: Cell, O: Origin>()
    ensures past { (slot anchors passes : ℕ) (origin : O) (cells : List C) (s : Store C O) (ps : Vec (Pass C)) → slot < 4294967296
        → IsStoreOver C.tells C.state O.offers slot anchors passes origin cells s ps
        → HasPast C.tells C.state O.offers slot anchors cells s }
    ensures opening { (slot anchors passes : ℕ) (origin : O) (cells : List C) (s : Store C O) (ps : Vec (Pass C))
        → IsStoreOver C.tells C.state O.offers slot anchors passes origin cells s ps
        → OpenedAsKept C.tells C.state (basis C.tells C.state O.offers s) slot anchors cells }
{
    one_entry_at_a_slot();
    one_winner_at_an_anchor();
    opened_stores_hold_their_files();
}
