// A core that goes through crashes.
ghost use Rattle.std.specs.Prelude.{◌≡◌, ◌<◌, ◌≤◌, ℕ, List, All, length, IfOk, OnErr, IsErrOf, Option, None};
ghost use Rattle.db_layout.specs.Layout.{IsSlotSize};
ghost use Rattle.db_layout.specs.declared.layout.TheConstants.{MOST_SLOTS};
ghost use Rattle.core_state.specs.declared.act.StepFault.TheVariants as fault;
ghost use Rattle.core_state.specs.Applied.{kind_of};
ghost use Rattle.core_state.specs.Opened.{IsOpenedWith};
ghost use Rattle.core_table.specs.Machine.{setting_of, state_of};
ghost use Rattle.core_model.specs.Sound.{Sound};
ghost use Rattle.rebuild_model.specs.Image.{IsFile};
ghost use Rattle.rebuild_model.specs.declared.rebuilt.Rebuilt.{Rebuilt as RebuiltOf};
ghost use Rattle.named_rebuild.specs.Contents.{AreContents};
ghost use Rattle.named_rebuild.specs.Keeping.{IsRebuiltOfNames};
ghost use Rattle.core_lives.specs.Lived.{HasOrderedLog};
ghost use Rattle.core_lives.specs.Happening.{Happens, IsCrashed, IsNewLife, IsReopened, IsSameLife, MayCrash, MayHappen};

use crate::left::all_left;
use core_model::Row;
use core_openings::{kept_openings_have_no_log, rebuilds_may_be_opened};
use core_state::{Content, Core, Step, StepFault};
use named_rebuild::{FirstContent, rebuilt_of_names};
use rebuild_model::FileImage;
use rock_io::Memory;
use std::alloc::{AllocError, Global};
use std::marker::Model;

/// A pure core, the file that it had at first, and what its slots held when it was last opened.
#[derive(Drop)]
pub struct Life {
    core: Core,
    file: FileImage,
    first: Row<FirstContent>,
    /// What a crash left, until the rebuild.
    left: Option<Row<FirstContent>>,
    alloc: Global,
}

impl Model for Life {
    ghost use Rattle.core_lives.specs.Lived.{Lived, IsSoundLife};

    ghost Value = { Lived };

    ghost use Rattle.core_lives.specs.Life.{lived_of, IsSoundInside};

    ghost view = { lived_of };

    ghost invariant = { IsSoundInside };
}

impl Life {
    ghost use Rattle.core_lives.specs.Lived.{IsSoundLife};

    /// The core of a store that was just opened over this file: what a rebuild of it keeps stands, and all else is
    /// free.
    ///
    /// # Errors
    ///
    /// Want of memory alone.
    pub fn new(alloc: Global, file: FileImage, anchors: u32, passes: u32) -> Result<Life, Memory>
        requires size { IsSlotSize file.slot }
        requires wide { All (λ (slot : List ℕ). length slot ≡ file.slot) file.slots }
        requires some_slot { 0 < length file.slots }
        requires few_slots { length file.slots ≤ MOST_SLOTS }
        requires some_anchor { 0 < anchors }
        requires few_anchors { anchors ≤ length file.slots }
        requires some_pass { 0 < passes }
        requires few_passes { passes ≤ 32 }
        ensures new { IfOk result (λ life. IsNewLife file anchors passes life) }
        ensures sound { IfOk result (λ life. IsSoundLife life) }
    {
        rebuilds_may_be_opened();
        kept_openings_have_no_log::<Content>();
        let slots = file.slots.as_slice().len();
        let core = Core::new(alloc, &file, anchors, passes)?;
        let first = Row::from_vec(vec![in alloc; FirstContent::File; slots]?);
        Ok(Life {
            core,
            file,
            first,
            left: None,
            alloc,
        })
    }

    /// The core. After a crash it is as the crash met it, until the rebuild.
    pub fn core(&self) -> &Core
        ensures { result.now ≡ self.now.core }
    {
        &self.core
    }

    /// What each slot held when the core was last opened.
    pub fn first_contents(&self) -> &[FirstContent]
        ensures { result.now ≡ self.now.first }
    {
        self.first.as_slice()
    }

    /// Does nothing. What is in a life is always sound.
    pub fn is_always_sound(&self)
        ensures { IsSoundLife self.now }
    {
        let _core = &self.core;
    }

    /// Makes a step of a pass, lets a crash come, or rebuilds, and answers a number: of a step of a pass that which
    /// the core answers, and else 0.
    ///
    /// # Errors
    ///
    /// [`StepFault::NotAllowed`] exactly where the step is not allowed, with its kind, and
    /// [`StepFault::Memory`] where memory runs out. All is then as it was.
    pub fn apply(&mut self, step: &Step) -> Result<u64, StepFault>
        ensures made { IfOk result (λ number. Happens self.old step.now number self.new) }
        ensures refused { (kind : ℕ) → IsErrOf result (fault.NotAllowed kind) → MayHappen self.old step.now → ⊥ }
        ensures kind { (kind : ℕ) → IsErrOf result (fault.NotAllowed kind) → kind ≡ kind_of step.now }
        ensures unchanged { OnErr result (self.new ≡ self.old) }
        ensures same_life { IsSameLife self.old self.new }
        ensures sound { IsSoundLife self.new }
    {
        match step {
            Step::Act(act) => {
                if self.left.is_some() {
                    return Err(StepFault::NotAllowed { kind: act.kind });
                }
                self.core.apply(step)
            }
            Step::Crash { picks } => self.crash(picks.as_slice()),
            Step::Rebuild => self.rebuild(),
        }
    }

    /// A crash leaves the contents of these numbers, one for each slot.
    fn crash(&mut self, picks: &[u32]) -> Result<u64, StepFault>
        ensures made { IfOk result (λ number. (number ≡ 0) × IsCrashed self.old picks.now self.new) }
        ensures refused { (kind : ℕ) → IsErrOf result (fault.NotAllowed kind) → MayCrash self.old picks.now → ⊥ }
        ensures kind { (kind : ℕ) → IsErrOf result (fault.NotAllowed kind) → kind ≡ 23 }
        ensures unchanged { OnErr result (self.new ≡ self.old) }
        ensures same_life { IsSameLife self.old self.new }
        ensures sound { IsSoundLife self.new }
    {
        if self.left.is_some() || picks.len() != self.first.as_slice().len() {
            return Err(StepFault::NotAllowed { kind: 23 });
        }
        match all_left(self.alloc, &self.core, self.first.as_slice(), picks) {
            Err(AllocError) => Err(StepFault::Memory),
            Ok(None) => Err(StepFault::NotAllowed { kind: 23 }),
            Ok(Some(left)) => {
                self.left = Some(Row::from_vec(left));
                Ok(0)
            }
        }
    }

    /// The core is opened anew over what a crash left.
    fn rebuild(&mut self) -> Result<u64, StepFault>
        ensures made { IfOk result (λ number. (number ≡ 0) × IsReopened self.old self.new) }
        ensures refused { (kind : ℕ) → IsErrOf result (fault.NotAllowed kind) → self.old.left ≡ None }
        ensures kind { (kind : ℕ) → IsErrOf result (fault.NotAllowed kind) → kind ≡ 24 }
        ensures unchanged { OnErr result (self.new ≡ self.old) }
        ensures same_life { IsSameLife self.old self.new }
        ensures sound { IsSoundLife self.new }
    {
        let Some(left) = self.left.take() else {
            return Err(StepFault::NotAllowed { kind: 24 });
        };
        match reopened(self.alloc, &self.core, &self.file, left.as_slice()) {
            Err(Memory) => {
                self.left = Some(left);
                Err(StepFault::Memory)
            }
            Ok(core) => {
                self.core = core;
                self.first = left;
                Ok(0)
            }
        }
    }
}

/// The core that is opened over what a crash left of another one.
fn reopened(
    alloc: Global,
    core: &Core,
    file: &FileImage,
    left: &[FirstContent],
) -> Result<Core, Memory>
    requires file { IsFile file.now.slot file.now.slots }
    requires slots { length file.now.slots ≡ core.now.slots }
    requires some_anchor { 0 < core.now.anchors }
    requires left { AreContents core.now.slots left.now }
    ensures reopened { IfOk result (λ opened. (rebuilt : RebuiltOf) × IsRebuiltOfNames file.now left.now core.now.anchors rebuilt
        × IsOpenedWith rebuilt core.now.anchors core.now.slots core.now.passes opened) }
    ensures sound { IfOk result (λ opened. Sound (setting_of opened) (state_of opened)) }
    ensures logs { IfOk result (λ opened. HasOrderedLog opened) }
{
    kept_openings_have_no_log::<Content>();
    core.is_always_sound();
    let rebuilt = rebuilt_of_names(alloc, file, left, core.anchors())?;
    Core::opened(
        alloc,
        &rebuilt,
        core.anchors(),
        left.len() as u32,
        core.passes(),
    )
}
