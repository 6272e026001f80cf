//! What files and words say of slot sizes. The function does nothing: the proof of a function that calls it may
//! use what it ensures.
ghost use Rattle.std.specs.Prelude.{◌≡◌, IfSome, List, Option, ℕ};
ghost use Rattle.db_layout.specs.Layout.{IsSlotSize};
ghost use Rattle.rock_disk.specs.File.{Files};
ghost use Rattle.slot_finding.specs.Finding.{FindsSlot, RecordsMisfit, RecordsOther, TellsNoSlot};

/// A file and what was given have one slot size at most. Where they have one, slots may have it if they may have
/// what was given, and there is no cause for a refusal.
pub fn one_slot_is_found()
    ensures one { (files : Files) (name : List ℕ) (given : Option ℕ) (slot other : ℕ)
        → FindsSlot files name given slot → FindsSlot files name given other → slot ≡ other }
    ensures size { (files : Files) (name : List ℕ) (given : Option ℕ) (slot : ℕ)
        → IfSome given IsSlotSize → FindsSlot files name given slot → IsSlotSize slot }
    ensures fits { (files : Files) (name : List ℕ) (given : Option ℕ) (slot : ℕ)
        → FindsSlot files name given slot → RecordsMisfit files name → ⊥ }
    ensures agrees { (files : Files) (name : List ℕ) (given : Option ℕ) (slot : ℕ)
        → FindsSlot files name given slot → RecordsOther files name given → ⊥ }
    ensures known { (files : Files) (name : List ℕ) (given : Option ℕ) (slot : ℕ)
        → FindsSlot files name given slot → TellsNoSlot files name given → ⊥ }
{}
