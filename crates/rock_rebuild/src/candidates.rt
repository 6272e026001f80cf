// What is counted of the complete entries.
ghost use Rattle.std.specs.Prelude.{◌≡◌, ◌+◌, ◌<◌, ◌≤◌, ℕ, List, length, map, All, IfOk, OnOk, IfSome, MatchOption};
ghost use Rattle.rebuild_model.specs.Image.{IsFile, image_at};
ghost use Rattle.rebuild_model.specs.Plain.{IsFound, HasNoEntry};
ghost use Rattle.rebuild_model.specs.declared.found.Found.{Found};
ghost use Rattle.rock_rebuild.specs.Kept.{TellsHead, AreHeaders, AreHeads};
ghost use Rattle.rock_rebuild.specs.Left.{AreLeft};
ghost use Rattle.rock_rebuild.specs.Gathered.{AreFound};
ghost use Rattle.rock_rebuild.specs.Candidates.{IsFoundAs, AreFoundAs};

use crate::entries::whole_at;
use crate::entry_head::Head;
use crate::table::Table;
use db_layout::MOST_SLOTS;
use rebuild_model::one_entry_at_a_slot;
use std::alloc::{AllocError, Global};
use store_key::anchor_of;

/// A complete entry, as far as it is counted.
#[derive(Clone, Copy, Debug, PartialEq, Eq)]
pub struct Candidate {
    /// The anchor of its key.
    pub anchor: u32,
    pub version: u32,
    /// How many slots it has.
    pub slots: u32,
}

/// The complete entry that begins at a slot, if one does, where `head` is what the slot says of it. What
/// `chain` holds does not matter.
fn candidate_at(
    table: &mut Table,
    urls: &[u8],
    chain: &mut Vec<u32>,
    slot: u32,
    first: u32,
    head: Option<Head>,
    anchors: u32,
) -> Result<Option<Candidate>, AllocError>
    requires some { 0 < anchors }
    requires table { length table.old ≤ MOST_SLOTS }
    ensures found { IfOk result (λ candidate. (images : List (List ℕ)) → IsFile slot images
        → AreLeft slot images first table.old
        → TellsHead (length images) slot first (image_at images first) urls.now head
        → AreLeft slot images (first + 1) table.new
        × MatchOption candidate (HasNoEntry slot images first) (IsFoundAs anchors slot images first)) }
    ensures below { IfOk result (λ candidate. IfSome candidate (λ c. c.anchor < anchors)) }
    ensures length { length table.new ≡ length table.old }
{
    let Some(whole) = whole_at(table, urls, chain, slot, first, head)? else {
        return Ok(None);
    };
    Ok(Some(Candidate {
        anchor: anchor_of(&whole.key, anchors),
        version: whole.version,
        slots: chain.len() as u32,
    }))
}

/// Adds the entry that begins at the next slot, if one does.
fn push_candidate(
    candidates: &mut Vec<Candidate>,
    candidate: Option<Candidate>,
) -> Result<(), AllocError>
    ensures found { OnOk result ((anchors slot : ℕ) (images : List (List ℕ)) (first : ℕ)
        → AreFoundAs anchors slot images first candidates.old.items
        → MatchOption candidate (HasNoEntry slot images first) (IsFoundAs anchors slot images first)
        → AreFoundAs anchors slot images (first + 1) candidates.new.items) }
    ensures below { OnOk result ((anchors : ℕ) → All (λ c. c.anchor < anchors) candidates.old.items
        → IfSome candidate (λ c. c.anchor < anchors)
        → All (λ c. c.anchor < anchors) candidates.new.items) }
{
    one_entry_at_a_slot();
    if let Some(candidate) = candidate {
        candidates.push(candidate)?;
    }
    Ok(())
}

/// The complete entries of a file as far as they are counted, in order of their first slots, by the headers
/// of its slots and what the slots say of entries that begin there. No URL and no chain is copied.
pub fn candidates_of(
    alloc: Global,
    table: &mut Table,
    heads: &[Option<Head>],
    urls: &[u8],
    slot: u32,
    anchors: u32,
) -> Result<Vec<Candidate>, AllocError>
    requires some { 0 < anchors }
    requires table { length table.old ≤ MOST_SLOTS }
    requires heads { length heads.now ≤ MOST_SLOTS }
    ensures found { IfOk result (λ candidates. (images : List (List ℕ)) → IsFile slot images
        → AreHeaders (length images) slot images table.old
        → AreHeads (length images) slot images urls.now heads.now
        → AreFoundAs anchors slot images (length images) candidates.items) }
    ensures below { IfOk result (λ candidates. All (λ c. c.anchor < anchors) candidates.items) }
{
    let mut candidates = Vec::new(alloc);
    let mut chain = Vec::new(alloc);
    for first in 0..heads.len() as u32 {
        let head = heads[first as usize];
        let candidate = candidate_at(table, urls, &mut chain, slot, first, head, anchors)?;
        push_candidate(&mut candidates, candidate)?;
    }
    Ok(candidates)
}
