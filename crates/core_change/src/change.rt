// A step as it is worked out, and how it is made.
ghost use Rattle.std.specs.Prelude.{◌≡◌, ◌<◌, length, slice_set, slice_index_or, vec_len, vec_capacity, OnOk, OnErr};
ghost use Rattle.core_model.specs.declared.tab.Tab.TheVariants.{Free};
ghost use Rattle.core_change.specs.Tabs.{changed_tab};
ghost use lib.ListN.{get_elem?};
ghost use mathlib.Core.Option.{some};
ghost use Rattle.core_model.specs.declared.view.View.{View as ViewOf};
ghost use Rattle.core_table.specs.declared.content.Content.{Content as ContentOf};
ghost use Rattle.core_change.specs.Inside.{state};
ghost use Rattle.core_change.specs.Changed.{anchor_addition, counter_addition, word_addition, bare_addition, changed, words_changed, view_changed, turned_view, tabs_changed, without_used, chains_changed, Fits, FitsWord, FitsTabs, FitsChain};
ghost use Rattle.core_change.specs.Notes.{notes_changed};
ghost use Rattle.core_change.specs.Turns.{places_changed, FitsTurn};

use crate::tab_change::{TabChange, changed_tab};
use crate::table::Table;
use crate::turn_change::{TurnChange, change_turn};
use core_model::{Addition, Cell, Chain, Item, Kind, Place, Row, Sight, Tab, Trace, View};
use core_table::Content;
use std::alloc::AllocError;

/// What becomes of a word.
#[derive(Clone, Copy, Debug, PartialEq, Eq)]
pub struct WordChange {
    pub index: usize,
    pub left: u64,
}

/// What becomes of the tabs of the pass.
#[derive(Drop)]
pub enum TabsChange {
    Same,
    /// A tab becomes this one.
    Put(u8, Tab<Content>),
    /// One does, and then another.
    PutTwo(u8, Tab<Content>, u8, Tab<Content>),
    /// A writing tab's anchor is at APPENDING.
    Appends(u8),
    /// A tab changes in part.
    Becomes(u8, TabChange),
    /// One does, and then another.
    BothBecome(u8, TabChange, u8, TabChange),
}

/// What becomes of the chains.
#[derive(Drop)]
pub enum ChainChange {
    Same,
    /// The anchor has this one.
    Put(u32, Chain),
    /// The anchor's entry was given up, and this is the slot that it had linked, if any.
    Ended(u32, Row<u32>),
}

/// What becomes of notes.
#[derive(Drop)]
pub enum NotesChange {
    Same,
    /// The view of this number becomes this one. Where there is none it is put behind the others.
    Put(usize, View<Content>),
}

/// All that a step does.
#[derive(Drop)]
pub struct Change {
    /// What the step answers.
    pub answer: u64,
    /// The word that it is on, if it is on one.
    pub word: Option<WordChange>,
    pub turn: TurnChange,
    /// What becomes of the tabs then.
    pub tabs: TabsChange,
    pub chain: ChainChange,
    /// A version that the pass holds no longer.
    pub used: Option<u32>,
    pub addition: Addition,
    pub notes: NotesChange,
}

/// What a step on an anchor's word adds to the records of its pass, where it tells and leaves these
/// numbers and sees this epoch.
pub fn anchor_addition(kind: Kind, anchor: u32, told: u64, left: u64, seen: u64) -> Addition
    ensures { result ≡ anchor_addition kind anchor told left seen }
{
    Addition {
        item: Item {
            kind,
            at: anchor,
            found: told,
        },
        trace: Some(Trace {
            place: Place::Anchor(anchor),
            word: left,
        }),
        sight: Some(Sight::Stood {
            anchor,
            epoch: seen,
        }),
        names: None,
        learned: None,
        deed: None,
        met: None,
        drawn: None,
    }
}

/// What a step on the counter of versions adds to them.
pub fn counter_addition(kind: Kind, found: u64, left: u64) -> Addition
    ensures { result ≡ counter_addition kind found left }
{
    Addition {
        item: Item { kind, at: 0, found },
        trace: Some(Trace {
            place: Place::Counter,
            word: left,
        }),
        sight: None,
        names: None,
        learned: None,
        deed: None,
        met: None,
        drawn: None,
    }
}

/// What a step on another word adds to them, where it tells and leaves these numbers. `at` is its anchor,
/// its slot or the number of the word beside its anchor.
pub fn word_addition(
    kind: Kind,
    place: Place,
    at: u32,
    told: u64,
    left: u64,
    sight: Option<Sight>,
) -> Addition
    ensures { result ≡ word_addition kind place at told left sight }
{
    Addition {
        item: Item {
            kind,
            at,
            found: told,
        },
        trace: Some(Trace { place, word: left }),
        sight,
        names: None,
        learned: None,
        deed: None,
        met: None,
        drawn: None,
    }
}

/// What a step on no word adds to them, where it tells this number. `at` is a slot or a note.
pub fn bare_addition(kind: Kind, at: u32, told: u64) -> Addition
    ensures { result ≡ bare_addition kind at told }
{
    Addition {
        item: Item {
            kind,
            at,
            found: told,
        },
        trace: None,
        sight: None,
        names: None,
        learned: None,
        deed: None,
        met: None,
        drawn: None,
    }
}

fn change_word(words: &mut [u64], change: Option<WordChange>)
    requires { FitsWord (length words.old) change }
    ensures { words.new ≡ words_changed words.old change }
{
    if let Some(WordChange { index, left }) = change {
        words[index] = left;
    }
}

/// Changes a tab in part.
fn change_tab(tabs: &mut Row<Tab<Content>>, at: u8, change: TabChange)
    requires { at < length tabs.old }
    ensures { tabs.new ≡ slice_set tabs.old at (changed_tab (slice_index_or tabs.old at Free) change) }
{
    let tab = tabs.replace(at as usize, Tab::Free);
    tabs.set(at as usize, changed_tab(tab, change));
}

fn change_tabs(view: &mut View<Content>, change: TabsChange)
    requires { FitsTabs view.old change }
    ensures { view.new ≡ record view.old { tabs = tabs_changed view.old change } }
{
    match change {
        TabsChange::Same => {}
        TabsChange::Put(at, tab) => view.tabs.set(at as usize, tab),
        TabsChange::PutTwo(at, tab, other_at, other) => {
            view.tabs.set(at as usize, tab);
            view.tabs.set(other_at as usize, other);
        }
        TabsChange::Appends(at) => {
            let Tab::Writing(mut writer) = view.tabs.replace(at as usize, Tab::Free) else {
                unreachable!()
            };
            writer.is_appending = true;
            view.tabs.set(at as usize, Tab::Writing(writer));
        }
        TabsChange::Becomes(at, tab) => change_tab(&mut view.tabs, at, tab),
        TabsChange::BothBecome(at, tab, other_at, other) => {
            change_tab(&mut view.tabs, at, tab);
            change_tab(&mut view.tabs, other_at, other);
        }
    }
}

fn use_version(view: &mut View<Content>, used: Option<u32>)
    ensures { view.new ≡ record view.old { held = without_used used view.old.held } }
{
    if let Some(version) = used {
        view.held.remove_all(version);
    }
}

fn change_chain(chains: &mut [Chain], change: ChainChange)
    requires { FitsChain (length chains.old) change }
    ensures { chains.new ≡ chains_changed chains.old change }
{
    match change {
        ChainChange::Same => {}
        ChainChange::Put(anchor, chain) => chains[anchor as usize] = chain,
        ChainChange::Ended(anchor, tail) => chains[anchor as usize].tail = tail,
    }
}

/// Changes notes. There is room for one more view.
fn change_notes(views: &mut Vec<View<Content>>, change: NotesChange)
    requires { vec_len views.old < vec_capacity views.old }
    ensures { views.new.items ≡ notes_changed views.old.items change }
{
    let NotesChange::Put(at, note) = change else {
        return;
    };
    if at < views.len() {
        views[at] = note;
        return;
    }
    let Ok(()) = views.push(note) else {
        unreachable!()
    };
}

/// Makes a change to the view of the pass and to the cells at home, all of it or nothing.
fn change_view(
    view: &mut View<Content>,
    places: &mut [Option<Cell<Content>>],
    addition: Addition,
    used: Option<u32>,
    turn: TurnChange,
    tabs: TabsChange,
) -> Result<(), AllocError>
    requires turn { FitsTurn (length view.old.tabs) (length places.old) turn }
    requires tabs { FitsTabs (turned_view view.old places.old turn) tabs }
    ensures view { OnOk result (view.new ≡ view_changed view.old places.old addition used turn tabs) }
    ensures places { OnOk result (places.new ≡ places_changed view.old.tabs places.old turn) }
    ensures err { OnErr result ((view.new ≡ view.old) × (places.new ≡ places.old)) }
{
    view.add(addition)?;
    use_version(view, used);
    change_turn(&mut view.tabs, places, turn);
    change_tabs(view, tabs);
    Ok(())
}

/// Makes a change that the pass of this number worked out, or nothing where memory runs out.
pub fn make_change(table: &mut Table, pass: usize, change: Change) -> Result<(), AllocError>
    requires { Fits (state table.old) pass change }
    ensures ok { OnOk result ((view : ViewOf ContentOf) → get_elem? table.old.views.items pass ≡ some view
        → state table.new ≡ changed (state table.old) pass view change) }
    ensures err { OnErr result (state table.new ≡ state table.old) }
{
    // Room for a note.
    table.views.reserve(1)?;
    change_view(
        &mut table.views[pass],
        &mut table.places,
        change.addition,
        change.used,
        change.turn,
        change.tabs,
    )?;
    change_word(&mut table.words, change.word);
    change_chain(&mut table.chains, change.chain);
    change_notes(&mut table.views, change.notes);
    Ok(())
}
