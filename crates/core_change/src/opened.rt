// The parts of a core that was just opened.
ghost use Rattle.std.specs.Prelude.{◌≡◌, ◌<◌, length, replicate, IfOk};
ghost use Rattle.core_model.specs.Chains.{no_chain};
ghost use Rattle.core_model.specs.Layout.{word_count};
ghost use Rattle.core_model.specs.Opening.{sights_below, new_view, new_views};
ghost use Rattle.core_table.specs.Inside.{setting};
ghost use Rattle.core_change.specs.Inside.{state};
ghost use Rattle.core_table.specs.Kept.{kept_chain, opened_chains, opened_state};
ghost use Rattle.core_table.specs.New.{opened_places};

use crate::table::Table;
use core_model::{Cell, Chain, Log, Place, Row, Sight, Tab, View};
use core_table::{Content, Opening};
use link_word::Link;
use lock_word::epoch_bits;
use rebuild_model::{Found, Rebuilt};
use std::alloc::{AllocError, Global};
use store_key::anchor_of;

/// The cells of a file that was just opened.
fn opened_places(alloc: Global, slots: u32) -> Result<Vec<Option<Cell<Content>>>, AllocError>
    ensures { IfOk result (λ places. places.items ≡ opened_places slots) }
{
    let mut places = Vec::with_capacity(alloc, slots as usize)?;
    for slot in 0..slots {
        let now = Content::Opened { slot };
        let possible = Row::from_vec(vec![in alloc; now]?);
        places.push(Some(Cell { now, possible }))?;
    }
    Ok(places)
}

/// The chain of an anchor that has no entry.
pub fn no_chain(alloc: Global) -> Chain
    ensures { result ≡ no_chain }
{
    Chain {
        slots: Row::from_vec(Vec::new(alloc)),
        end: Link::NotWritten,
        tail: Row::from_vec(Vec::new(alloc)),
    }
}

/// No entry at any anchor.
fn no_chains(alloc: Global, anchors: u32) -> Result<Vec<Chain>, AllocError>
    ensures { IfOk result (λ chains. chains.items ≡ replicate anchors no_chain) }
{
    let mut chains = Vec::with_capacity(alloc, anchors as usize)?;
    for _anchor in 0..anchors {
        chains.push(no_chain(alloc))?;
    }
    Ok(chains)
}

/// The chain of an entry that was kept.
fn kept_chain(alloc: Global, found: &Found) -> Result<Chain, AllocError>
    ensures { IfOk result (λ chain. chain ≡ kept_chain found.now) }
{
    Ok(Chain {
        slots: Row::from_vec(found.chain.as_slice().to_vec(alloc)?),
        end: Link::Last,
        tail: Row::from_vec(Vec::new(alloc)),
    })
}

/// The chains of all anchors.
fn opened_chains(alloc: Global, winners: &[Found], anchors: u32) -> Result<Vec<Chain>, AllocError>
    requires { 0 < anchors }
    ensures { IfOk result (λ chains. chains.items ≡ opened_chains winners.now anchors) }
{
    let mut chains = no_chains(alloc, anchors)?;
    let mut left = winners;
    'winners: while let Some((found, rest)) = left.split_first() {
        chains[anchor_of(&found.key, anchors) as usize] = kept_chain(alloc, found)?;
        left = rest;
    }
    Ok(chains)
}

/// What a new pass has seen: each anchor as it stood at the opening.
fn first_sights(alloc: Global, opening: &Opening) -> Result<Log<Sight>, AllocError>
    requires { length opening.now.words.items ≡ word_count (setting opening.now) }
    ensures { IfOk result (λ seen. seen ≡ sights_below (setting opening.now) opening.now.anchors) }
{
    let mut seen = Vec::with_capacity(alloc, opening.anchors as usize)?;
    for anchor in 0..opening.anchors {
        let epoch = epoch_bits(opening.words[opening.index_of(Place::Anchor(anchor))]);
        seen.push(Sight::Stood { anchor, epoch })?;
    }
    Ok(Log::from_vec(seen))
}

fn free_tabs(alloc: Global) -> Result<Row<Tab<Content>>, AllocError>
    ensures { IfOk result (λ tabs. tabs ≡ replicate 9 Tab.Free) }
{
    let tabs = vec![in alloc;
        Tab::Free,
        Tab::Free,
        Tab::Free,
        Tab::Free,
        Tab::Free,
        Tab::Free,
        Tab::Free,
        Tab::Free,
        Tab::Free,
    ]?;
    Ok(Row::from_vec(tabs))
}

fn new_view(alloc: Global, opening: &Opening, pass: u32) -> Result<View<Content>, AllocError>
    requires { length opening.now.words.items ≡ word_count (setting opening.now) }
    ensures { IfOk result (λ view. view ≡ new_view (setting opening.now) pass) }
{
    let tabs = free_tabs(alloc)?;
    let seen = first_sights(alloc, opening)?;
    Ok(View::new(alloc, pass, tabs, seen))
}

/// The views of new passes.
fn new_views(alloc: Global, opening: &Opening) -> Result<Vec<View<Content>>, AllocError>
    requires { length opening.now.words.items ≡ word_count (setting opening.now) }
    ensures { IfOk result (λ views. views.items ≡ new_views (setting opening.now) 0 opening.now.passes) }
{
    let mut views = Vec::with_capacity(alloc, opening.passes as usize)?;
    for pass in 0..opening.passes {
        views.push(new_view(alloc, opening, pass)?)?;
    }
    Ok(views)
}

/// The state of a store that was opened so.
pub fn opened_table(
    alloc: Global,
    opening: &Opening,
    rebuilt: &Rebuilt,
) -> Result<Table, AllocError>
    requires some { 0 < opening.now.anchors }
    requires words { length opening.now.words.items ≡ word_count (setting opening.now) }
    ensures { IfOk result (λ table. state table ≡ opened_state opening.now rebuilt.now) }
{
    Ok(Table {
        words: opening.words.to_vec(alloc)?,
        places: opened_places(alloc, opening.slots)?,
        views: new_views(alloc, opening)?,
        chains: opened_chains(alloc, rebuilt.winners.as_slice(), opening.anchors)?,
    })
}
