//! What holds of all keys. This function does nothing: the proof of a function that calls it may use what
//! it ensures.
ghost use Rattle.std.specs.Prelude.{◌≡◌, ◌<◌, ℕ, List, length, slice_index_or};
ghost use Rattle.store_key.specs.Key.{key_of};

/// A key has 16 bytes.
pub fn keys_have_16_bytes()
    ensures length { (url : List ℕ) → length (key_of url) ≡ 16 }
    ensures bytes { (url : List ℕ) (i : ℕ) → slice_index_or (key_of url) i 0 < 256 }
{}
