// What a worker has seen of every file, for another worker.
ghost use Rattle.std.specs.Prelude.{IfNone, IfSome, None, ◌<◌, ◌≡◌, ◌≤◌};
ghost use Rattle.dir_set.specs.Dirs.{AtDir, AtStore, EachDir, IsDirPass, OnlyDir, PassesMove, answer_at, dir_count};
ghost use Rattle.dir_set.specs.Notes.{IsDirNoteOf, LearnedIn, NotedIn, notes_of};
ghost use Rattle.store_rule.specs.Passes.{IsNoteOf};
ghost use Rattle.store_rule.specs.declared.store.Note.{Note as NoteOf};

use crate::dirs::{DirPass, Dirs};
use rock_disk::Cell;
use store_rule::{Note, Origin};

/// What a pass has seen of each file, and nothing else of it.
#[derive(Drop)]
pub struct DirNote<C> {
    first: Option<Note<C>>,
    second: Option<Note<C>>,
    third: Option<Note<C>>,
    fourth: Option<Note<C>>,
    fifth: Option<Note<C>>,
    sixth: Option<Note<C>>,
    seventh: Option<Note<C>>,
    eighth: Option<Note<C>>,
}

/// Copies what the pass has seen of each file.
pub fn dir_note<C: Cell, O: Origin>(dirs: &Dirs<C, O>, pass: &mut DirPass<C>) -> DirNote<C>
    requires pass { IsDirPass C.tells C.state O.offers dirs.now pass.old }
    ensures notes { EachDir dirs.now pass.old pass.new (λ d s p q. NotedIn C.tells C.state O.offers s p q (answer_at (notes_of result) d)) }
    ensures note { IsDirNoteOf dirs.now result }
    ensures moves { PassesMove pass.old pass.new }
    ensures own { IsDirPass C.tells C.state O.offers dirs.now pass.new }
{
    let first = note_of(dirs, pass, 0);
    let second = note_of(dirs, pass, 1);
    let third = note_of(dirs, pass, 2);
    let fourth = note_of(dirs, pass, 3);
    let fifth = note_of(dirs, pass, 4);
    let sixth = note_of(dirs, pass, 5);
    let seventh = note_of(dirs, pass, 6);
    let eighth = note_of(dirs, pass, 7);
    DirNote {
        first,
        second,
        third,
        fourth,
        fifth,
        sixth,
        seventh,
        eighth,
    }
}

/// Adds what the note has seen of each file.
pub fn dir_learn<C: Cell, O: Origin>(dirs: &Dirs<C, O>, pass: &mut DirPass<C>, note: DirNote<C>)
    requires pass { IsDirPass C.tells C.state O.offers dirs.now pass.old }
    requires note { IsDirNoteOf dirs.now note }
    ensures learns { EachDir dirs.now pass.old pass.new (λ d s p q. (copy : NoteOf C) → answer_at (notes_of note) d ≡ Some copy → LearnedIn C.tells C.state O.offers s p q copy) }
    ensures moves { PassesMove pass.old pass.new }
    ensures own { IsDirPass C.tells C.state O.offers dirs.now pass.new }
{
    let DirNote {
        first,
        second,
        third,
        fourth,
        fifth,
        sixth,
        seventh,
        eighth,
    } = note;
    learn_of(dirs, pass, 0, first);
    learn_of(dirs, pass, 1, second);
    learn_of(dirs, pass, 2, third);
    learn_of(dirs, pass, 3, fourth);
    learn_of(dirs, pass, 4, fifth);
    learn_of(dirs, pass, 5, sixth);
    learn_of(dirs, pass, 6, seventh);
    learn_of(dirs, pass, 7, eighth);
}

// Copies what the pass has seen of a file, if there is one of this number.
fn note_of<C: Cell, O: Origin>(
    dirs: &Dirs<C, O>,
    pass: &mut DirPass<C>,
    dir: usize,
) -> Option<Note<C>>
    requires pass { IsDirPass C.tells C.state O.offers dirs.now pass.old }
    ensures noted { AtDir dirs.now pass.old pass.new dir (λ s p q. NotedIn C.tells C.state O.offers s p q result) }
    ensures none { dir_count dirs.now ≤ dir → result ≡ None }
    ensures only { OnlyDir dir pass.old pass.new }
    ensures own { IsDirPass C.tells C.state O.offers dirs.now pass.new }
{
    if dir < dirs.stores.len() {
        Some(dirs.stores[dir].note(&mut pass.passes[dir]))
    } else {
        None
    }
}

// Adds what a note has seen of a file, if there is one of this number.
fn learn_of<C: Cell, O: Origin>(
    dirs: &Dirs<C, O>,
    pass: &mut DirPass<C>,
    dir: usize,
    note: Option<Note<C>>,
)
    requires pass { IsDirPass C.tells C.state O.offers dirs.now pass.old }
    requires note { AtStore dirs.now dir (λ s. IfSome note (IsNoteOf s)) }
    ensures learns { AtDir dirs.now pass.old pass.new dir (λ s p q. IfSome note (LearnedIn C.tells C.state O.offers s p q)) }
    ensures only { OnlyDir dir pass.old pass.new }
    ensures own { IsDirPass C.tells C.state O.offers dirs.now pass.new }
{
    if dir < dirs.stores.len() {
        if let Some(note) = note {
            dirs.stores[dir].learn(&mut pass.passes[dir], note);
        }
    }
}
