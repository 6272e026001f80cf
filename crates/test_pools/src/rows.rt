// Rows of text.

/// The two parts of a text, of which the first ends at the first mark.
pub(crate) fn parted<'a>(text: &'a str, mark: &str) -> Option<(&'a str, &'a str)> {
    text.split_once(mark)
}
