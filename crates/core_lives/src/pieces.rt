// The piece that was logged for a slot.
ghost use Rattle.std.specs.Prelude.{◌≡◌, Contains, List, MatchOption};
ghost use Rattle.core_model.specs.declared.view.LoggedPiece.{LoggedPiece as LoggedPieceOf};
ghost use Rattle.core_lives.specs.Crash.{IsLoggedAs, IsLoggedFor};
ghost use Rattle.core_model.specs.declared.view.Sight.TheVariants as sight;

use core_model::{LoggedPiece, Piece, Sight, View};
use core_state::Content;

/// The piece that this sight tells, where it is this one and was logged for the slot.
fn piece_of_sight(sight: &Sight, slot: u32, piece: &Piece) -> Option<LoggedPiece>
    ensures { MatchOption result
        ((l : LoggedPieceOf) → IsLoggedAs sight.now slot piece.now l → ⊥)
        (λ l. IsLoggedAs sight.now slot piece.now l) }
{
    let Sight::Logged(logged) = sight else {
        return None;
    };
    if logged.slot != slot || logged.piece != *piece {
        return None;
    }
    Some(*logged)
}

/// The piece that one of these sights tells, where it is this one and was logged for the slot.
fn piece_of_sights(sights: &[Sight], slot: u32, piece: &Piece) -> Option<LoggedPiece>
    ensures { MatchOption result
        ((l : LoggedPieceOf) → Contains sights.now (sight.Logged l) → l.slot ≡ slot → l.piece ≡ piece.now → ⊥)
        (λ l. Contains sights.now (sight.Logged l) × (l.slot ≡ slot) × (l.piece ≡ piece.now)) }
{
    let mut left = sights;
    'sights: while let Some((sight, rest)) = left.split_first() {
        if let Some(logged) = piece_of_sight(sight, slot, piece) {
            return Some(logged);
        }
        left = rest;
    }
    None
}

/// The piece that passes and notes know as logged for the slot, where it is this one.
pub(crate) fn piece_logged_for(
    views: &[View<Content>],
    slot: u32,
    piece: &Piece,
) -> Option<LoggedPiece>
    ensures { MatchOption result
        ((l : LoggedPieceOf) → IsLoggedFor views.now slot piece.now l → ⊥)
        (λ l. IsLoggedFor views.now slot piece.now l) }
{
    let mut left = views;
    'views: while let Some((view, rest)) = left.split_first() {
        if let Some(logged) = piece_of_sights(view.seen.as_slice(), slot, piece) {
            return Some(logged);
        }
        left = rest;
    }
    None
}
