// The tabs of a pass, as steps find them.
ghost use Rattle.std.specs.Prelude.{◌≡◌, ◌≤◌, ◌↔◌, IsTrue, length, slice_get, MatchOption, Some};
ghost use Rattle.core_model.specs.Tabs.{anchor_of, InnerIsFree, IsPass};

use core_model::{INNER_TAB, Tab, View};
use core_table::Content;

/// The tab of this number, if the view has one.
pub fn tab_at(view: &View<Content>, tab: u8) -> Option<&Tab<Content>>
    ensures { MatchOption result
        (length view.now.tabs ≤ tab) (λ now. slice_get view.now.tabs tab ≡ Some now.now) }
{
    view.tabs.as_slice().get(usize::from(tab))
}

/// The anchor that a tab is at, and 0 where it is free.
pub fn anchor_of(tab: &Tab<Content>) -> u32
    ensures { result ≡ anchor_of tab.now }
{
    match tab {
        Tab::Free => 0,
        Tab::Retreating { anchor } | Tab::Last { anchor } => *anchor,
        Tab::Reading(reader) => reader.anchor,
        Tab::Writing(writer) => writer.anchor,
        Tab::Freeing(freer) => freer.anchor,
    }
}

/// Whether the inner tab of the pass is free.
pub fn inner_is_free(view: &View<Content>) -> bool
    requires { IsPass view.now }
    ensures { IsTrue result ↔ InnerIsFree view.now }
{
    matches!(tab_at(view, INNER_TAB), Some(Tab::Free))
}
