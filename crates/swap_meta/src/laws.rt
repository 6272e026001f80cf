//! What holds of all metadata. These functions do nothing: the proof of a function that calls one may
//! use what it ensures.
ghost use Rattle.std.specs.Prelude.{◌≡◌, ℕ, ◌+◌, ◌^◌, ◌<◌, List, [], ◌++◌, length, take};
ghost use Rattle.swap_meta.specs.Meta.{Spells, meta_bytes};

/// What is written is metadata, and whatever bytes follow it, it stands at their front.
pub fn written_meta_is_spelled()
    ensures size { (key url : List ℕ) → length key ≡ 16 → length (meta_bytes key url) ≡ 32 + length url }
    ensures spelled { (key url more : List ℕ) → length key ≡ 16 → 32 + length url < 2 ^ 32 →
        Spells (take (32 + length url) (meta_bytes key url ++ more)) key url (32 + length url) }
{}

/// No metadata is a proper prefix of other metadata.
pub fn no_spelling_is_a_prefix()
    ensures no_more { (bytes more key url key2 url2 : List ℕ) (n n2 : ℕ) → Spells bytes key url n →
        Spells (bytes ++ more) key2 url2 n2 → more ≡ [] }
    ensures same { (bytes more key url key2 url2 : List ℕ) (n n2 : ℕ) → Spells bytes key url n →
        Spells (bytes ++ more) key2 url2 n2 → (key ≡ key2) × (url ≡ url2) × (n ≡ n2) }
{}
