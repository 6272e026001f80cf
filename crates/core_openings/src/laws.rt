// The laws on openings.
ghost use Rattle.std.specs.Prelude.{◌≡◌, ◌<◌, ◌^◌, ℕ, List, [], length};
ghost use Rattle.rebuild_model.specs.declared.rebuilt.Rebuilt.{Rebuilt};
ghost use Rattle.rebuild_model.specs.Rebuilt.{IsRebuilt};
ghost use Rattle.core_model.specs.Layout.{Setting};
ghost use Rattle.core_model.specs.State.{State};
ghost use Rattle.core_model.specs.Opening.{IsOpened};
ghost use Rattle.core_model.specs.Sound.{Sound};
ghost use Rattle.core_log.specs.Logged.{LogStands};
ghost use Rattle.core_openings.specs.KeptSo.{IsKeptSo};

/// What a rebuild keeps of a file may be opened, as a store with as many slots as the file.
pub fn rebuilds_may_be_opened()
    ensures { (slot : ℕ) (images : List (List ℕ)) (anchors : ℕ) (r : Rebuilt)
        → IsRebuilt slot images anchors r → IsKeptSo anchors (length images) r }
{}

/// A store that was just opened with what a rebuild kept is sound, where the rebuild may be opened.
pub fn kept_openings_are_sound<X>()
    ensures { (k : Setting X) (r : Rebuilt) (s : State X)
        → IsOpened k r s → IsKeptSo k.anchors k.slots r → Sound k s }
{}

/// Nothing is logged in it.
pub fn kept_openings_have_no_log<X>()
    ensures { (k : Setting X) (r : Rebuilt) (s : State X)
        → k.slots < 2 ^ 32 → IsOpened k r s → IsKeptSo k.anchors k.slots r → LogStands k s [] }
{
    kept_openings_are_sound::<X>();
}
