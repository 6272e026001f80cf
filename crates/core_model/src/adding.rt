// What a step adds to the records of its pass, all of it or nothing.
ghost use Rattle.std.specs.Prelude.{◌≡◌, ◌<◌, ◌≤◌, ◌+◌, ◌∷◌, [], ◌++◌, length, reverse, vec_len, vec_capacity, OnOk, OnErr};
ghost use Rattle.std.specs.Option.{option_to_list};
ghost use Rattle.core_model.specs.Additions.{added, names_seen, sights_learned};
ghost use Rattle.core_model.specs.Views.{view_of};

use crate::list::{Log, Row};
use crate::moves::Side;
use crate::tab::Tab;
use crate::view::{Deed, Item, Sight, Trace, View};
use std::alloc::{AllocError, Global};

/// What names an entry: its key in two halves, and its offer.
#[derive(Clone, Copy, Debug, PartialEq, Eq)]
pub struct Names {
    pub anchor: u32,
    pub version: u32,
    pub key0: u64,
    pub key1: u64,
    pub offer: u64,
}

/// What a step adds to what its pass knows and holds, and to its records.
#[derive(Drop)]
pub struct Addition {
    pub item: Item,
    /// What it left of a word, where it was on one.
    pub trace: Option<Trace>,
    pub sight: Option<Sight>,
    /// What names an entry, of which it published a slot.
    pub names: Option<Names>,
    /// What a note has seen, which the pass learned.
    pub learned: Option<Log<Sight>>,
    pub deed: Option<Deed>,
    /// An anchor at which the pass met others.
    pub met: Option<u32>,
    /// A version that it drew.
    pub drawn: Option<u32>,
}

/// Adds an item for which there is room, if there is one.
fn append<T: Drop>(items: &mut Vec<T>, item: Option<T>)
    requires { vec_len items.old < vec_capacity items.old }
    ensures item { items.new.items ≡ items.old.items ++ option_to_list item }
    ensures capacity { vec_capacity items.old ≤ vec_capacity items.new }
    ensures length { vec_len items.new ≤ vec_len items.old + 1 }
{
    let Some(item) = item else {
        return;
    };
    let Ok(()) = items.push(item) else {
        unreachable!()
    };
}

/// Puts an item for which there is room in front, if there is one.
fn prepend<T: Drop>(items: &mut Vec<T>, item: Option<T>)
    requires { vec_len items.old < vec_capacity items.old }
    ensures { items.new.items ≡ option_to_list item ++ items.old.items }
{
    let Some(item) = item else {
        return;
    };
    let Ok(()) = items.insert(0, item) else {
        unreachable!()
    };
}

/// Adds the sights of names for which there is room, if there are some.
fn append_names(items: &mut Vec<Sight>, names: Option<Names>)
    requires { vec_len items.old + 3 < vec_capacity items.old }
    ensures names { items.new.items ≡ items.old.items ++ reverse (names_seen names) }
    ensures room { vec_len items.new < vec_capacity items.new }
{
    let Some(
        Names {
            anchor,
            version,
            key0,
            key1,
            offer,
        },
    ) = names
    else {
        return;
    };
    let named = |side, value| Sight::Named {
        anchor,
        version,
        side,
        value,
    };
    append(items, Some(named(Side::Offer, offer)));
    append(items, Some(named(Side::Key1, key1)));
    append(items, Some(named(Side::Key0, key0)));
}

/// For how many sights there must be room.
fn count_sights(learned: &Option<Log<Sight>>) -> usize
    ensures { result ≡ length (sights_learned learned.now) + 4 }
{
    match learned {
        Some(learned) => learned.items.len() + 4,
        None => 4,
    }
}

/// Adds the sights that the pass learned, for which there is room, if there are some.
fn append_learned(items: &mut Vec<Sight>, learned: Option<Log<Sight>>)
    requires { vec_len items.old + length (sights_learned learned) + 3 < vec_capacity items.old }
    ensures learned { items.new.items ≡ items.old.items ++ reverse (sights_learned learned) }
    ensures room { vec_len items.new + 3 < vec_capacity items.new }
{
    let Some(mut learned) = learned else {
        return;
    };
    let Ok(()) = items.append(&mut learned.items) else {
        unreachable!()
    };
}

impl<X> View<X> {
    /// The view of a pass that has these tabs, knows this, and has made no step.
    pub fn new(alloc: Global, pass: u32, tabs: Row<Tab<X>>, seen: Log<Sight>) -> Self
        ensures { result ≡ view_of pass tabs seen }
    {
        View {
            pass,
            tabs,
            held: Row::from_vec(Vec::new(alloc)),
            seen,
            trail: Log::from_vec(Vec::new(alloc)),
            mirror: Log::from_vec(Vec::new(alloc)),
            deeds: Log::from_vec(Vec::new(alloc)),
            met: Log::from_vec(Vec::new(alloc)),
        }
    }

    /// Adds it all, or nothing where memory runs out.
    pub fn add(&mut self, addition: Addition) -> Result<(), AllocError>
        ensures ok { OnOk result (self.new ≡ added self.old addition) }
        ensures err { OnErr result (self.new ≡ self.old) }
    {
        self.held.items.reserve(1)?;
        self.seen.items.reserve(count_sights(&addition.learned))?;
        self.trail.items.reserve(1)?;
        self.mirror.items.reserve(1)?;
        self.deeds.items.reserve(1)?;
        self.met.items.reserve(1)?;
        prepend(&mut self.held.items, addition.drawn);
        append_learned(&mut self.seen.items, addition.learned);
        append_names(&mut self.seen.items, addition.names);
        append(&mut self.seen.items, addition.sight);
        append(&mut self.trail.items, Some(addition.item));
        append(&mut self.mirror.items, addition.trace);
        append(&mut self.deeds.items, addition.deed);
        append(&mut self.met.items, addition.met);
        Ok(())
    }
}
