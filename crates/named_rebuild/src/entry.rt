// The complete entry that begins at a slot.
ghost use Rattle.std.specs.Prelude.{◌≡◌, ◌<◌, ◌∷◌, ◌^◌, ◌↔◌, IfOk, IsTrue, List, MatchOption, length, ℕ};
ghost use Rattle.rebuild_model.specs.Image.{IsFile};
ghost use Rattle.named_rebuild.specs.declared.contents.FirstContent.TheVariants as content;
ghost use Rattle.named_rebuild.specs.Contents.{AreContents, content_at};
ghost use Rattle.named_rebuild.specs.Entries.{ArePieces, HasNoneFrom, IsFoundAt, IsPart, IsPieceAt, key_of_halves};
ghost use Rattle.link_word.specs.declared.link.Link.{Link as LinkOf};
ghost use Rattle.rebuild_model.specs.declared.image.FileImage.{FileImage as FileImageOf};

use crate::contents::{FirstContent, are_files, content_at};
use core_model::LoggedPiece;
use link_word::Link;
use plain_rebuild::complete_at;
use rebuild_model::{FileImage, Found, one_entry_at_a_slot};
use rock_io::{Memory, Numbers, Octets};
use std::alloc::{AllocError, Global};

/// The key that has these halves.
fn key_of_halves(key0: u64, key1: u64) -> [u8; 16]
    ensures { result ≡ key_of_halves key0 key1 }
{
    let [a, b, c, d, e, f, g, h] = key0.to_le_bytes();
    let [i, j, k, l, m, n, o, p] = key1.to_le_bytes();
    [a, b, c, d, e, f, g, h, i, j, k, l, m, n, o, p]
}

/// Whether the piece is that for a place of the entry whose first piece is `head`.
fn is_part(head: &LoggedPiece, piece: &LoggedPiece, place: u32) -> bool
    ensures { IsTrue result ↔ IsPart head.now piece.now place }
{
    piece.piece.version == head.piece.version
        && piece.key0 == head.key0
        && piece.key1 == head.key1
        && piece.piece.first == head.piece.first
        && piece.piece.place == place
}

/// The link of the piece for a place of the entry, where the slot holds that piece.
fn link_of_part(
    contents: &[FirstContent],
    head: &LoggedPiece,
    slot: u32,
    place: u32,
) -> Option<Link>
    ensures { MatchOption result
        ((link : LinkOf) → IsPieceAt contents.now head.now place slot link → ⊥)
        (λ link. IsPieceAt contents.now head.now place slot link) }
{
    let FirstContent::Logged(piece) = content_at(contents, slot) else {
        return None;
    };
    if !is_part(head, &piece, place) {
        return None;
    }
    Some(piece.piece.next)
}

/// The slots of the pieces of the entry whose first piece is `head`, from a slot on, if all of them stand.
fn pieces_from(
    alloc: Global,
    contents: &[FirstContent],
    head: &LoggedPiece,
    first: u32,
) -> Result<Option<Vec<u32>>, AllocError>
    requires contents { AreContents (length contents.now) contents.now }
    requires few { length contents.now < 2 ^ 32 }
    ensures { IfOk result (λ found. MatchOption found
        ((behind : List ℕ) → ArePieces contents.now head.now 0 (first ∷ behind) → ⊥)
        (λ chain. (behind : List ℕ) × (chain.items ≡ first ∷ behind) × ArePieces contents.now head.now 0 (first ∷ behind))) }
{
    let mut chain = Vec::new(alloc);
    let mut at = first;
    let mut place = 0;
    'pieces: while place < contents.len() as u32 {
        let Some(link) = link_of_part(contents, head, at, place) else {
            return Ok(None);
        };
        chain.push(at)?;
        match link {
            Link::Last => return Ok(Some(chain)),
            Link::NotWritten => return Ok(None),
            Link::Next(slot) => at = slot,
        }
        place += 1;
    }
    Ok(None)
}

/// The new entry that begins at a slot which holds this piece, if one does.
fn piece_entry(
    alloc: Global,
    contents: &[FirstContent],
    head: &LoggedPiece,
    first: u32,
) -> Result<Option<Found>, AllocError>
    requires contents { AreContents (length contents.now) contents.now }
    requires few { length contents.now < 2 ^ 32 }
    requires there { content_at contents.now first ≡ content.Logged head.now }
    ensures { IfOk result (λ found. (file : FileImageOf) → MatchOption found
        (HasNoneFrom file contents.now first)
        (λ found. IsFoundAt file contents.now first found)) }
{
    if head.piece.first != first {
        return Ok(None);
    }
    if head.piece.version == 0 {
        return Ok(None);
    }
    let Some(chain) = pieces_from(alloc, contents, head, first)? else {
        return Ok(None);
    };
    Ok(Some(Found {
        first,
        version: head.piece.version,
        key: key_of_halves(head.key0, head.key1),
        url: Octets::from_vec(Vec::new(alloc)),
        length: 0,
        chain: Numbers::from_vec(chain),
    }))
}

/// The entry of the first file that begins at a slot which holds what the file has, if one does and its other
/// slots do so too.
fn file_entry(
    alloc: Global,
    file: &FileImage,
    contents: &[FirstContent],
    first: u32,
) -> Result<Option<Found>, Memory>
    requires file { IsFile file.now.slot file.now.slots }
    requires within { first < length file.now.slots }
    requires there { content_at contents.now first ≡ content.File }
    ensures { IfOk result (λ found. MatchOption found
        (HasNoneFrom file.now contents.now first)
        (λ found. IsFoundAt file.now contents.now first found)) }
{
    one_entry_at_a_slot();
    let Some(found) = complete_at(alloc, file, first)? else {
        return Ok(None);
    };
    if !are_files(contents, found.chain.as_slice()) {
        return Ok(None);
    }
    Ok(Some(found))
}

/// The complete entry that begins at a slot, if one does.
pub(crate) fn entry_at(
    alloc: Global,
    file: &FileImage,
    contents: &[FirstContent],
    first: u32,
) -> Result<Option<Found>, Memory>
    requires file { IsFile file.now.slot file.now.slots }
    requires contents { AreContents (length contents.now) contents.now }
    requires one_a_slot { length contents.now ≡ length file.now.slots }
    requires within { first < length contents.now }
    ensures { IfOk result (λ found. MatchOption found
        (HasNoneFrom file.now contents.now first)
        (λ found. IsFoundAt file.now contents.now first found)) }
{
    match content_at(contents, first) {
        FirstContent::File => file_entry(alloc, file, contents, first),
        FirstContent::Logged(head) => Ok(piece_entry(alloc, contents, &head, first)?),
        FirstContent::Blank => Ok(None),
    }
}
