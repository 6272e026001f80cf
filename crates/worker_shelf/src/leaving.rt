// All tabs of the script are left.
ghost use Rattle.std.specs.Prelude.{◌<◌, ◌≡◌, ℕ};
ghost use Rattle.store_serve.specs.Growing.{GrowsTo};
ghost use Rattle.store_rule.specs.Passes.{hand, view};
ghost use Rattle.store_serve.specs.Tabs.{Holds, IsFree, IsReady};
ghost use Rattle.store_serve.specs.Whole.{whole_tab};
ghost use Rattle.worker_shelf.specs.Shelves.{AllHold, LeftBelow, LeftTab};

use rock_disk::Cell;
use std::mem;
use store_rule::{Origin, Pass, Store};
use store_serve::{ScriptTab, WHOLE_TAB, close_tab, drop_tab, requests_keep_other_tabs};

/// Closes each tab of the script that reads, and gives up what each one that writes has written, in order of tabs.
pub(crate) fn leave_tabs<C: Cell, O: Origin>(
    store: &Store<C, O>,
    pass: &mut Pass<C>,
    tabs: &mut [ScriptTab],
)
    requires { AllHold C.tells C.state O.offers store.now pass.old tabs.old }
    ensures left { LeftBelow C.tells C.state O.offers store.now whole_tab pass.old pass.new }
    ensures holds { AllHold C.tells C.state O.offers store.now pass.new tabs.new }
    ensures free { (tab : ℕ) → tab < whole_tab → IsFree pass.new tab }
    ensures keeps { GrowsTo (view pass.old) (view pass.new) }
    ensures places { hand pass.new ≡ hand pass.old }
    ensures cells { pass.new.cells ≡ pass.old.cells }
{
    requests_keep_other_tabs::<C, O>();
    for tab in 0..WHOLE_TAB {
        let kept = mem::replace(&mut tabs[tab as usize], ScriptTab::Free);
        leave(store, pass, tab, kept);
    }
}

// Leaves a tab of which this is kept.
fn leave<C: Cell, O: Origin>(store: &Store<C, O>, pass: &mut Pass<C>, tab: u8, kept: ScriptTab)
    requires ready { IsReady C.tells C.state O.offers store.now pass.old }
    requires below { tab < whole_tab }
    requires holds { Holds C.tells C.state O.offers store.now pass.old tab kept }
    ensures { LeftTab C.tells C.state O.offers store.now tab pass.old pass.new }
{
    match kept {
        ScriptTab::Free => (),
        ScriptTab::Reading => {
            let _ = close_tab(store, pass, tab, ScriptTab::Reading);
        }
        ScriptTab::Writing { body, taken } => {
            let _ = drop_tab(store, pass, tab, ScriptTab::Writing { body, taken });
        }
    }
}
