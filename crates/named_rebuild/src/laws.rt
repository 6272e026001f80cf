// The law on what a rebuild keeps.
ghost use Rattle.std.specs.Prelude.{List, length, ℕ};
ghost use Rattle.rebuild_model.specs.declared.image.FileImage.{FileImage};
ghost use Rattle.rebuild_model.specs.declared.rebuilt.Rebuilt.{Rebuilt};
ghost use Rattle.core_openings.specs.KeptSo.{IsKeptSo};
ghost use Rattle.named_rebuild.specs.declared.contents.FirstContent.{FirstContent};
ghost use Rattle.named_rebuild.specs.Contents.{AreContents};
ghost use Rattle.named_rebuild.specs.Keeping.{IsRebuiltOfNames};

/// What a rebuild keeps of contents that are told by names may be opened.
pub fn named_rebuilds_may_be_opened()
    ensures { (file : FileImage) (contents : List FirstContent) (anchors : ℕ) (r : Rebuilt)
        → AreContents (length file.slots) contents → IsRebuiltOfNames file contents anchors r → IsKeptSo anchors (length file.slots) r }
{}
