/// What notes tell, and where they belong. It has no call. All notes of one `Marks` have one home, that of
/// the value of type `Key` that it was made for.
pub trait Home<N> {
    /// What has a home.
    type Key;

    /// What there is to know, and what of it a note tells.
    ghost Fact: { Type 0 };

    ghost tells: { N → Fact → Type 0 };

    /// The homes, and which of them a note and a key have.
    ghost Place: { Type 0 };

    ghost place: { N → Place };

    ghost home: { Self.Key → Place };
}
