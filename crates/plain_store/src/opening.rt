// The store as it is opened.
ghost use Rattle.std.specs.Prelude.{◌≡◌, ◌<◌, ◌+◌, map, IfOk, OnOk, Some};
ghost use Rattle.std.specs.List.{range_with_len};
ghost use Rattle.plain_model.specs.Place.{nothing};
ghost use Rattle.plain_model.specs.Serving.{fresh};
ghost use Rattle.plain_model.specs.Opening.{kept_at, place_kept, opened};

use plain_model::{Entry, Kept, Life, Place, Places, Plain, Size, Tab, Text};
use rock_io::{Memory, Octets};
use std::alloc::{AllocError, Global};
use store_key::anchor_of;

/// The places of anchors that never had an entry.
fn empty_places(alloc: Global, anchors: u32) -> Result<Vec<Place>, AllocError>
    ensures { IfOk result (λ places. places.items ≡ map (λ anchor. nothing) (range_with_len 0 anchors)) }
{
    (0..anchors)
        .map(|_| Place {
            version: 0,
            doom: false,
            entry: None,
        })
        .collect(alloc)
}

/// A store that was never written.
///
/// # Errors
///
/// [`Memory`] where memory runs out.
pub fn fresh(alloc: Global, anchors: u32) -> Result<Plain, Memory>
    ensures { IfOk result (λ store. store ≡ fresh anchors) }
{
    let places = empty_places(alloc, anchors)?;
    Ok(Plain {
        counter: 0,
        hand: 0,
        places: Places::from_vec(places),
        tabs: [Tab::Free; 8],
    })
}

/// Copies a text.
fn text_again(alloc: Global, text: &Text) -> Result<Text, AllocError>
    ensures { IfOk result (λ again. again ≡ text.now) }
{
    Ok(Text::from_octets(Octets::from_vec(text.as_slice().to_vec(alloc)?)))
}

/// The place of an anchor at which this entry is kept.
fn place_of(alloc: Global, kept: &Kept) -> Result<Place, AllocError>
    ensures { IfOk result (λ place. place ≡ place_kept (Some kept.now)) }
{
    let url = text_again(alloc, &kept.url)?;
    let body = text_again(alloc, &kept.body)?;
    let entry = Entry {
        url,
        key: kept.key,
        body,
        offer: u64::from(kept.first),
        content: Size::new(kept.content.get()),
        life: Life::Whole,
    };
    Ok(Place {
        version: kept.version,
        doom: false,
        entry: Some(entry),
    })
}

/// The place of an anchor.
fn place_at(alloc: Global, kept: &[Kept], anchors: u32, anchor: u32) -> Result<Place, AllocError>
    requires { 0 < anchors }
    ensures { IfOk result (λ place. place ≡ place_kept (kept_at anchors kept.now anchor)) }
{
    let mut left = kept;
    'kept: while let Some((first, rest)) = left.split_first() {
        if anchor_of(&first.key, anchors) == anchor {
            return place_of(alloc, first);
        }
        left = rest;
    }
    Ok(Place {
        version: 0,
        doom: false,
        entry: None,
    })
}

/// Adds the place of the next anchor.
#[tactic(auto, using(crate::proofs::Searching::places_grow))]
fn push_place(
    alloc: Global,
    kept: &[Kept],
    anchors: u32,
    anchor: u32,
    places: &mut Vec<Place>,
) -> Result<(), AllocError>
    requires some { 0 < anchors }
    requires before { places.old.items ≡ map (λ a. place_kept (kept_at anchors kept.now a)) (range_with_len 0 anchor) }
    ensures { OnOk result (places.new.items ≡ map (λ a. place_kept (kept_at anchors kept.now a)) (range_with_len 0 (anchor + 1))) }
{
    let place = place_at(alloc, kept, anchors, anchor)?;
    places.push(place)?;
    Ok(())
}

/// The store that is opened with the entries that a rebuild keeps, and the greatest version of the file.
///
/// # Errors
///
/// [`Memory`] where memory runs out.
pub fn opened(alloc: Global, anchors: u32, kept: &[Kept], greatest: u32) -> Result<Plain, Memory>
    requires { 0 < anchors }
    ensures { IfOk result (λ store. store ≡ opened anchors kept.now greatest) }
{
    let mut places = Vec::new(alloc);
    'anchors: for anchor in 0..anchors {
        push_place(alloc, kept, anchors, anchor, &mut places)?;
    }
    Ok(Plain {
        counter: u64::from(greatest),
        hand: 0,
        places: Places::from_vec(places),
        tabs: [Tab::Free; 8],
    })
}
