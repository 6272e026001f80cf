// The URL that a reading tab wants. Its pass keeps it in the tab's buffer, which a tab that reads needs for
// nothing else, and how long it is in the tab's draft.
ghost use Rattle.rock_reader.specs.Wanted.{KeepsUrl, held_at, kept_at, kept_of};
ghost use Rattle.std.specs.Prelude.{length, take, ◌<◌, ◌≡◌, ◌≤◌};
ghost use Rattle.store_rule.specs.Drafts.{DraftMoves};
ghost use Rattle.tab_states.specs.Desks.{buffer_at, draft_at};

use slot_cell::HEADER_SIZE;
use store_rule::Pass;
use swap_meta::META_SIZE;
use tab_states::Draft;

/// Keeps the URL that a tab wants. Of one that leaves no room for itself in a first slot nothing is kept.
pub(crate) fn keep_url<C>(pass: &mut Pass<C>, tab: u8, url: &[u8])
    requires below { tab < 9 }
    requires small { length (buffer_at pass.old.desks tab) < 4294967296 }
    ensures { KeepsUrl (length (buffer_at pass.old.desks tab)) tab url.now pass.old pass.new }
{
    let held = put_front(pass.buffer_mut(tab), url);
    let draft = pass.draft(tab);
    pass.set_draft(tab, Draft { held, ..draft });
}

// Copies a URL that leaves room for itself to the front of a buffer, and answers how many bytes it is, or 0.
fn put_front(buffer: &mut [u8], url: &[u8]) -> u32
    requires { length buffer.old < 4294967296 }
    ensures front { take result buffer.new ≡ kept_of (length buffer.old) url.now }
    ensures within { result ≤ length buffer.old }
    ensures length { length buffer.new ≡ length buffer.old }
{
    if url.len() + META_SIZE + HEADER_SIZE > buffer.len() {
        return 0;
    }
    buffer[..url.len()].copy_from_slice(url);
    url.len() as u32
}

/// The URL that a tab wants, as it was kept.
pub(crate) fn kept_url<C>(pass: &Pass<C>, tab: u8) -> &[u8]
    requires below { tab < 9 }
    requires within { held_at pass.now.desks tab ≤ length (buffer_at pass.now.desks tab) }
    ensures { result.now ≡ kept_at pass.now.desks tab }
{
    &pass.buffer(tab)[..pass.draft(tab).held as usize]
}

/// Keeps nothing of it any more.
pub(crate) fn forget_url<C>(pass: &mut Pass<C>, tab: u8)
    requires { tab < 9 }
    ensures { DraftMoves tab (record (draft_at pass.old.desks tab) { held = 0 }) pass.old pass.new }
{
    let draft = pass.draft(tab);
    pass.set_draft(tab, Draft { held: 0, ..draft });
}
