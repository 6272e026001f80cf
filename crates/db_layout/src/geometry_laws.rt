// How header areas and geometries fit. The function does nothing: the proof of a function that calls it may use what it ensures.
ghost use Rattle.std.specs.Prelude.{◌≡◌, ◌^◌, ◌<◌, List, length, replicate, ℕ};
ghost use Rattle.db_layout.specs.Geometry.{IsMarked, Records, header_of};
ghost use Rattle.db_layout.specs.declared.geometry.Geometry.{Geometry};

use crate::layout::HEADER_BYTES;

/// What is written records its geometry, and fills the header area. A header area records one geometry at most; one
/// that records any is marked, and one of zeros is not.
pub fn geometries_are_read_as_written()
    ensures written { (g : Geometry) → g.slot < 2 ^ 32 → g.slots < 2 ^ 32 → Records (header_of g) g }
    ensures whole { (g : Geometry) → length (header_of g) ≡ HEADER_BYTES }
    ensures one { (header : List ℕ) (g h : Geometry) → Records header g → Records header h → g ≡ h }
    ensures marked { (header : List ℕ) (g : Geometry) → Records header g → IsMarked header }
    ensures zeros { IsMarked (replicate HEADER_BYTES 0) → ⊥ }
{}
