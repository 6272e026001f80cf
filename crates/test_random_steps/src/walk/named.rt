// What a rebuild makes of what a crash left, computed from names by the test itself.
use core_lives::FirstContent;
use core_model::LoggedPiece;
use link_word::{Link, pack_link};
use std::alloc::Global;
use test_core_walks::{ANCHORS, SLOTS};

/// What each slot holds.
pub(super) type Contents = [FirstContent; SLOTS as usize];

/// The piece that a slot holds.
fn piece_at(contents: &Contents, slot: u32) -> Option<LoggedPiece> {
    match contents.get(slot as usize) {
        Some(FirstContent::Logged(logged)) => Some(*logged),
        _ => None,
    }
}

/// An entry whose pieces all stand: its first piece, and its slots in order.
#[derive(Clone, Copy)]
pub(super) struct Named {
    pub head: LoggedPiece,
    chain: [u32; SLOTS as usize],
    count: usize,
}

impl Named {
    pub fn slots(&self) -> &[u32] {
        self.chain.get(..self.count).unwrap_or(&[])
    }

    /// The anchor of its key, which is the sum of both halves over the anchors.
    fn anchor(&self) -> u32 {
        (self.head.key0.wrapping_add(self.head.key1) % u64::from(ANCHORS)) as u32
    }
}

/// Whether a piece is of the same entry, at this place.
fn is_next(head: &LoggedPiece, logged: &LoggedPiece, place: usize) -> bool {
    logged.piece.version == head.piece.version
        && logged.key0 == head.key0
        && logged.key1 == head.key1
        && logged.piece.first == head.piece.first
        && logged.piece.place as usize == place
}

/// The entry whose first piece stands in a slot, if it is whole.
pub(super) fn entry_at(contents: &Contents, first: u32) -> Option<Named> {
    let head = piece_at(contents, first)?;
    if head.piece.version == 0 || head.piece.first != first {
        return None;
    }
    let mut entry = Named {
        head,
        chain: [0; SLOTS as usize],
        count: 0,
    };
    let mut at = first;
    for (place, slot) in entry.chain.iter_mut().enumerate() {
        let logged = piece_at(contents, at)?;
        if !is_next(&head, &logged, place) {
            return None;
        }
        *slot = at;
        entry.count = place + 1;
        match logged.piece.next {
            Link::Last => return Some(entry),
            Link::NotWritten => return None,
            Link::Next(next) => at = next,
        }
    }
    None
}

/// The entry that stands at an anchor: that of the greatest version, and of those the one that begins first.
pub(super) fn kept_at(contents: &Contents, anchor: u32) -> Option<Named> {
    let mut best: Option<Named> = None;
    for first in 0..SLOTS {
        let Some(entry) = entry_at(contents, first) else {
            continue;
        };
        let is_newer = match best {
            Some(old) => entry.head.piece.version > old.head.piece.version,
            None => true,
        };
        if entry.anchor() == anchor && is_newer {
            best = Some(entry);
        }
    }
    best
}

/// The greatest version that a slot shows.
fn greatest_of(contents: &Contents) -> u64 {
    let mut greatest = 0u32;
    for slot in 0..SLOTS {
        if let Some(logged) = piece_at(contents, slot) {
            greatest = greatest.max(logged.piece.version);
        }
    }
    u64::from(greatest)
}

/// The link word of each slot, and the word of the map.
fn slot_words(contents: &Contents) -> ([u64; SLOTS as usize], u64) {
    let mut links = [0; SLOTS as usize];
    let mut map = 0u64;
    for anchor in 0..ANCHORS {
        let Some(entry) = kept_at(contents, anchor) else {
            continue;
        };
        let nexts = entry.slots().iter().skip(1);
        let mut ends = nexts.map(|slot| Link::Next(*slot)).chain(Some(Link::Last));
        for slot in entry.slots() {
            let link = ends.next().unwrap_or(Link::NotWritten);
            if let Some(word) = links.get_mut(*slot as usize) {
                *word = pack_link(link);
            }
            map |= 1 << (*slot % 64);
        }
    }
    (links, map)
}

/// All words of the core that was opened over these contents, in order. None where there is no memory.
pub(super) fn words_of(alloc: Global, contents: &Contents) -> Option<Vec<u64>> {
    let mut words = Vec::new(alloc);
    for anchor in 0..ANCHORS {
        let beside = match kept_at(contents, anchor) {
            None => [0; 5],
            Some(entry) => {
                let head = entry.head;
                let first = u64::from(head.piece.first);
                let word = (u64::from(head.piece.version) << 32) | (3 << 16);
                [word, head.key0, head.key1, first, first + 1]
            }
        };
        for word in beside {
            words.push(word).ok()?;
        }
    }
    let (links, map) = slot_words(contents);
    for link in links {
        words.push(link).ok()?;
        words.push(0).ok()?;
    }
    words.push(map).ok()?;
    words.push(greatest_of(contents)).ok()?;
    words.push(0).ok()?;
    Some(words)
}
