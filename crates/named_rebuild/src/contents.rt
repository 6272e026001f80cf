// What slots hold, told by names.
ghost use Rattle.std.specs.Prelude.{◌≡◌, ◌↔◌, All, IsTrue, ℕ};
ghost use Rattle.named_rebuild.specs.Contents.{content_at};
ghost use Rattle.named_rebuild.specs.declared.contents.FirstContent.TheVariants as content;

use core_model::LoggedPiece;

/// What a slot holds when a store is opened.
#[derive(Clone, Copy, Debug, PartialEq, Eq)]
pub enum FirstContent {
    /// What the slot has in the first file.
    File,
    /// A piece that was logged for the slot.
    Logged(LoggedPiece),
    /// What a slot holds that was wiped.
    Blank,
}

/// What a slot holds. One behind the last is blank.
pub(crate) fn content_at(contents: &[FirstContent], slot: u32) -> FirstContent
    ensures { result ≡ content_at contents.now slot }
{
    contents
        .get(slot as usize)
        .copied()
        .unwrap_or(FirstContent::Blank)
}

/// Whether all these slots hold what the file has.
pub(crate) fn are_files(contents: &[FirstContent], slots: &[u32]) -> bool
    ensures { IsTrue result ↔ All (λ s. content_at contents.now s ≡ content.File) slots.now }
{
    let mut left = slots;
    'slots: while let Some((slot, rest)) = left.split_first() {
        if !matches!(content_at(contents, *slot), FirstContent::File) {
            return false;
        }
        left = rest;
    }
    true
}
