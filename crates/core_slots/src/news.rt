// What comes with a turn: the pieces that were logged for its slot.
ghost use Rattle.std.specs.Prelude.{◌≡◌, ◌==◌, ◌++◌, [], List, cond, reverse, IfOk, OnOk};
ghost use Rattle.core_model.specs.declared.view.LoggedPiece.{LoggedPiece as LoggedPieceOf};
ghost use Rattle.core_model.specs.declared.view.Sight.{Sight as SightOf};
ghost use Rattle.core_model.specs.declared.view.Sight.TheVariants.{Logged};
ghost use Rattle.core_model.specs.CellMoves.{all_seen, has_piece, is_news, news_of};

use core_change::Table;
use core_model::{Log, Sight, View};
use core_table::Content;
use std::alloc::{AllocError, Global};

/// Whether a sight of a piece is among those that are known, or among the news.
fn is_known(known: &Log<Sight>, news: &[Sight], sight: &Sight) -> bool
    ensures { (piece : LoggedPieceOf) → sight.now ≡ Logged piece
        → result ≡ has_piece piece (reverse news.now ++ known.now) }
{
    news.contains(sight) || known.as_slice().contains(sight)
}

/// Whether a sight is of a piece that was logged for the slot, and that is not known and not among the news.
fn is_news(slot: u32, known: &Log<Sight>, news: &[Sight], sight: &Sight) -> bool
    ensures { result ≡ is_news slot (reverse news.now ++ known.now) sight.now }
{
    match sight {
        Sight::Logged(logged) if logged.slot == slot => !is_known(known, news, sight),
        _ => false,
    }
}

/// Adds those of the sights that are news, the oldest first.
fn add_news(
    news: &mut Vec<Sight>,
    slot: u32,
    known: &Log<Sight>,
    seen: &Log<Sight>,
) -> Result<(), AllocError>
    ensures { OnOk result ((below : List SightOf) → reverse news.old.items ≡ news_of slot known.now below
        → reverse news.new.items ≡ news_of slot known.now (seen.now ++ below)) }
{
    for sight in seen.as_slice() {
        if is_news(slot, known, news, sight) {
            news.push(*sight)?;
        }
    }
    Ok(())
}

/// The sights of pieces that these views know to be logged for the slot, without the known ones, each once.
fn news_of(
    alloc: Global,
    views: &[View<Content>],
    slot: u32,
    known: &Log<Sight>,
) -> Result<Log<Sight>, AllocError>
    ensures { IfOk result (λ news. news ≡ news_of slot known.now (all_seen views.now)) }
{
    let mut news = Vec::new(alloc);
    for view in views.iter().rev() {
        add_news(&mut news, slot, known, &view.seen)?;
    }
    Ok(Log::from_vec(news))
}

/// What a pass learns where it tries for the turn at a slot, and the turn word tells this number: with a turn
/// that it gets, each piece that a pass or a note knows to be logged for the slot and that it did not know.
pub(crate) fn brought(
    alloc: Global,
    table: &Table,
    view: &View<Content>,
    slot: u32,
    found: u64,
) -> Result<Log<Sight>, AllocError>
    ensures { IfOk result (λ learned. learned
        ≡ cond (found == 0) (news_of slot view.now.seen (all_seen table.now.views.items)) []) }
{
    if found == 0 {
        news_of(alloc, &table.views, slot, &view.seen)
    } else {
        Ok(Log::from_vec(Vec::new(alloc)))
    }
}
