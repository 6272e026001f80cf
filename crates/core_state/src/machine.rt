// The pure core.
ghost use Rattle.std.specs.Prelude.{◌≡◌, ◌<◌, ◌≤◌, ℕ, List, All, length, IfOk, OnErr, IsErrOf};
ghost use Rattle.db_layout.specs.Layout.{IsSlotSize};
ghost use Rattle.db_layout.specs.declared.layout.TheConstants.{MOST_SLOTS};
ghost use Rattle.core_table.specs.New.{IsNew};
ghost use Rattle.core_model.specs.Sound.{Sound};
ghost use Rattle.core_state.specs.declared.act.StepFault.TheVariants as fault;
ghost use Rattle.core_openings.specs.KeptSo.{IsKeptSo};
ghost use Rattle.core_state.specs.Opened.{IsOpenedWith};
ghost use Rattle.core_state.specs.Applied.{Applies, MayApply, IsSameStore, kind_of};
ghost use Rattle.core_table.specs.Machine.{setting_of, state_of};

use crate::act::{Step, StepFault};
use crate::decode::decode;
use crate::step::make;
use core_change::{Refusal, Table, opened_table};
use core_model::{Cell, Chain, View};
use core_openings::rebuilds_may_be_opened;
use core_table::{Content, Opening, opening_of};
use plain_rebuild::rebuilt_of;
use rebuild_model::{FileImage, Rebuilt};
use rock_io::Memory;
use std::alloc::Global;
use std::marker::Model;

/// The pure core of a store: the words of its table, its cells at home, what its passes hold and know,
/// and the chains. What is in it is always sound.
#[derive(Drop)]
pub struct Core {
    opening: Opening,
    table: Table,
    alloc: Global,
}

impl Model for Core {
    ghost use Rattle.core_table.specs.Machine.{Machine};

    ghost Value = { Machine };

    ghost use Rattle.core_state.specs.Core.{machine_of, IsSound};

    ghost view = { machine_of };

    ghost invariant = { IsSound };
}

impl Core {
    /// The core of a store that was just opened over a file with these slots: what a rebuild of the file
    /// keeps stands, and all else is free.
    ///
    /// # Errors
    ///
    /// Want of memory alone.
    pub fn new(alloc: Global, image: &FileImage, anchors: u32, passes: u32) -> Result<Core, Memory>
        requires size { IsSlotSize image.now.slot }
        requires wide { All (λ (slot : List ℕ). length slot ≡ image.now.slot) image.now.slots }
        requires some_slot { 0 < length image.now.slots }
        requires few_slots { length image.now.slots ≤ MOST_SLOTS }
        requires some_anchor { 0 < anchors }
        requires few_anchors { anchors ≤ length image.now.slots }
        requires some_pass { 0 < passes }
        requires few_passes { passes ≤ 32 }
        ensures new { IfOk result (λ core. IsNew image.now (length image.now.slots) anchors passes core) }
        ensures sound { IfOk result (λ core. Sound (setting_of core) (state_of core)) }
    {
        rebuilds_may_be_opened();
        let slots = image.slots.as_slice().len() as u32;
        let rebuilt = rebuilt_of(alloc, image, anchors)?;
        Core::opened(alloc, &rebuilt, anchors, slots, passes)
    }

    /// The core of a store of so many slots that was just opened with what a rebuild kept: that stands, and all
    /// else is free.
    ///
    /// # Errors
    ///
    /// Want of memory alone.
    pub fn opened(
        alloc: Global,
        rebuilt: &Rebuilt,
        anchors: u32,
        slots: u32,
        passes: u32,
    ) -> Result<Core, Memory>
        requires kept { IsKeptSo anchors slots rebuilt.now }
        requires some_anchor { 0 < anchors }
        requires few_passes { passes ≤ 32 }
        ensures opened { IfOk result (λ core. IsOpenedWith rebuilt.now anchors slots passes core) }
        ensures sound { IfOk result (λ core. Sound (setting_of core) (state_of core)) }
    {
        let opening = opening_of(alloc, rebuilt, anchors, slots, passes)?;
        let table = opened_table(alloc, &opening, rebuilt)?;
        Ok(Core {
            opening,
            table,
            alloc,
        })
    }

    /// How many anchors the store has.
    pub fn anchors(&self) -> u32
        ensures { result ≡ self.now.anchors }
    {
        self.opening.anchors
    }

    /// How many passes it was opened for.
    pub fn passes(&self) -> u32
        ensures { result ≡ self.now.passes }
    {
        self.opening.passes
    }

    /// The words of the table: that of each anchor with the four beside it, the link and the turn of each
    /// slot, the map of taken slots, the counter of versions, and that of logged pieces.
    pub fn words(&self) -> &[u64]
        ensures { result.now ≡ self.now.words }
    {
        &self.table.words
    }

    /// The cell of each slot, where it is home.
    pub fn places(&self) -> &[Option<Cell<Content>>]
        ensures { result.now ≡ self.now.places }
    {
        &self.table.places
    }

    /// The chain of each anchor.
    pub fn chains(&self) -> &[Chain]
        ensures { result.now ≡ self.now.chains }
    {
        &self.table.chains
    }

    /// The views: those of the passes in order, and then those of notes.
    pub fn views(&self) -> &[View<Content>]
        ensures { result.now ≡ self.now.views }
    {
        &self.table.views
    }

    /// Does nothing. What is in a core is always sound.
    pub fn is_always_sound(&self)
        ensures { Sound (setting_of self.now) (state_of self.now) }
    {
        let _table = &self.table;
    }

    /// Makes a step, and answers the number that it finds: that of the word that it is on as it was,
    /// or, where the step leaves, raises or dooms an anchor, as it is then. A step that stores answers 0.
    ///
    /// # Errors
    ///
    /// [`StepFault::NotAllowed`] exactly where the step is not allowed, with its kind, and
    /// [`StepFault::Memory`] where memory runs out. The core is then as it was.
    pub fn apply(&mut self, step: &Step) -> Result<u64, StepFault>
        ensures made { IfOk result (λ number. Applies self.old step.now number self.new) }
        ensures refused { (kind : ℕ) → IsErrOf result (fault.NotAllowed kind) → MayApply self.old step.now → ⊥ }
        ensures kind { (kind : ℕ) → IsErrOf result (fault.NotAllowed kind) → kind ≡ kind_of step.now }
        ensures unchanged { OnErr result (self.new ≡ self.old) }
        ensures same_store { IsSameStore self.old self.new }
        ensures sound { Sound (setting_of self.new) (state_of self.new) }
    {
        let alloc = self.alloc;
        let act = match step {
            Step::Act(act) => *act,
            Step::Crash { .. } => return Err(StepFault::NotAllowed { kind: 23 }),
            Step::Rebuild => return Err(StepFault::NotAllowed { kind: 24 }),
        };
        let kind = act.kind;
        let Some(step) = decode(&act) else {
            return Err(StepFault::NotAllowed { kind });
        };
        match make(alloc, &self.opening, &mut self.table, act.pass, step) {
            Ok(number) => Ok(number),
            Err(Refusal::NotAllowed) => Err(StepFault::NotAllowed { kind }),
            Err(Refusal::Memory) => Err(StepFault::Memory),
        }
    }
}
