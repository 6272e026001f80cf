// What steps of a core change.
ghost use Rattle.std.specs.Prelude.{◌≡◌, ◌<◌, ◌≤◌, length, drop, slice_index, slice_get, MatchOption, Some};
ghost use Rattle.lock_word.specs.Words.{IsInRange, word_number};
ghost use Rattle.core_model.specs.Anchors.{Shaped};
ghost use Rattle.core_model.specs.Layout.{anchor_index};

use core_model::{Cell, Chain, TABS, View};
use core_table::{Content, Opening, anchor_index};
use lock_word::{Word, word_of};

/// What steps change.
#[derive(Drop)]
pub struct Table {
    pub words: Vec<u64>,
    /// The cell of each slot, where it is home.
    pub places: Vec<Option<Cell<Content>>>,
    pub views: Vec<View<Content>>,
    pub chains: Vec<Chain>,
}

impl Table {
    ghost use lib.ListN.{get_elem?};
    ghost use mathlib.Core.Option.{some};
    ghost use Rattle.core_model.specs.declared.view.View.{View as ViewOf};
    ghost use Rattle.core_model.specs.Tabs.{IsPass};
    ghost use Rattle.core_table.specs.declared.content.Content.{Content as ContentOf};
    ghost use Rattle.core_table.specs.Inside.{setting};
    ghost use Rattle.core_change.specs.Inside.{state};

    /// The word of an anchor.
    pub fn word_at(&self, opening: &Opening, anchor: u32) -> Word
        requires shaped { Shaped (setting opening.now) (state self.now) }
        requires anchor { anchor < opening.now.anchors }
        ensures number { word_number result ≡ slice_index self.now.words.items (anchor_index anchor) }
        ensures in_range { IsInRange result }
    {
        let _ = opening;
        word_of(self.words[anchor_index(anchor)])
    }

    /// The view of this number, if there is one.
    pub fn view(&self, number: usize) -> Option<&View<Content>>
        ensures { MatchOption result
            (length self.now.views.items ≤ number)
            (λ view. slice_get self.now.views.items number ≡ Some view.now) }
    {
        self.views.get(number)
    }

    /// The views behind those of the passes: of notes, and of notes that were learned.
    pub fn notes(&self, opening: &Opening) -> &[View<Content>]
        ensures { result.now ≡ drop opening.now.passes self.now.views.items }
    {
        let passes = opening.passes as usize;
        if passes > self.views.len() {
            return &[];
        }
        &self.views[passes..]
    }

    /// The view of the pass of this number, if there is one.
    pub fn pass(&self, number: u32) -> Option<&View<Content>>
        ensures { MatchOption result
            ((view : ViewOf ContentOf) → get_elem? self.now.views.items number ≡ some view → IsPass view → ⊥)
            (λ view. (get_elem? self.now.views.items number ≡ some view.now) × IsPass view.now) }
    {
        match self.view(number as usize) {
            None => None,
            Some(view) => {
                if view.tabs.as_slice().len() != TABS {
                    return None;
                }
                Some(view)
            }
        }
    }
}
