// What the records of a pass tell it.
ghost use Rattle.std.specs.Prelude.{◌≡◌, reverse, sum_by, is_some, unwrap_or, [], ◌∷◌, nat_lt, if◌then◌else◌};
ghost use Rattle.std.specs.Option.{option_to_list};
ghost use Rattle.core_model.specs.Tabs.{counts};
ghost use Rattle.core_model.specs.Trails.{is_find, has_find, last_find, draws_version, drew_since, last_count, counted_in};
ghost use Rattle.lock_word.specs.Words.{version_limit};

use core_model::{Item, Kind, Tab, View};
use core_table::Content;
use lock_word::{GREATEST_VERSION, Word};

/// Whether a step told the word of the anchor.
fn is_find(anchor: u32, item: &Item) -> bool
    ensures { result ≡ is_find anchor item.now }
{
    let tells_word = matches!(
        item.kind,
        Kind::Looked | Kind::Entered | Kind::Left | Kind::Changed | Kind::Raised | Kind::Doomed
    );
    tells_word && item.at == anchor
}

fn draws_version(version: u32, item: &Item) -> bool
    ensures { result ≡ draws_version version item.now }
{
    let version = u64::from(version);
    item.kind == Kind::Drew && item.found < version && item.found + 1 == version
}

/// The word of the anchor as the pass last found or left it, if it ever did. Its steps stand in order.
pub(crate) fn last_find(anchor: u32, trail: &[Item]) -> Option<u64>
    ensures some { is_some result ≡ has_find anchor (reverse trail.now) }
    ensures value { unwrap_or result 0 ≡ last_find anchor (reverse trail.now) }
{
    let mut last = None;
    for item in trail {
        if is_find(anchor, item) {
            last = Some(item.found);
        }
    }
    last
}

/// Whether the pass drew the version after it last found or left the anchor's word.
pub(crate) fn drew_since(version: u32, anchor: u32, trail: &[Item]) -> bool
    ensures { result ≡ drew_since version anchor (reverse trail.now) }
{
    let mut drew = false;
    for item in trail {
        if is_find(anchor, item) {
            drew = false;
        } else if draws_version(version, item) {
            drew = true;
        }
    }
    drew
}

/// The counter of versions as the pass last looked at it, and the limit where it never did, or drew
/// since.
pub(crate) fn last_count(trail: &[Item]) -> u64
    ensures { result ≡ last_count (reverse trail.now) }
{
    let mut count = GREATEST_VERSION;
    for item in trail {
        count = match item.kind {
            Kind::Counted => item.found,
            Kind::Drew => GREATEST_VERSION,
            _ => count,
        };
    }
    count
}

fn is_counted_at(anchor: u32, tab: &Tab<Content>) -> bool
    ensures { counts anchor tab.now ≡ (if result then 1 else 0) }
{
    match tab {
        Tab::Retreating { anchor: at } => *at == anchor,
        Tab::Reading(reader) => reader.anchor == anchor,
        _ => false,
    }
}

fn count_at(anchor: u32, tabs: &[Tab<Content>]) -> usize
    ensures { result ≡ sum_by (counts anchor) tabs.now }
{
    let mut readers = 0;
    for tab in tabs {
        if is_counted_at(anchor, tab) {
            readers += 1;
        }
    }
    readers
}

/// How many of the view's tabs are counted at the anchor.
pub(crate) fn readers_here(anchor: u32, view: &View<Content>) -> usize
    ensures { result ≡ sum_by (counts anchor) view.now.tabs }
{
    count_at(anchor, view.tabs.as_slice())
}

/// The anchor, where a word of it has more readers than so many.
pub(crate) fn met(anchor: u32, readers: usize, word: &Word) -> Option<u32>
    ensures { option_to_list result ≡ (if nat_lt readers word.now.readers then anchor ∷ [] else []) }
{
    (readers < usize::from(word.readers)).then_some(anchor)
}
