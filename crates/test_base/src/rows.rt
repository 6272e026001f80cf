// The numbers of these tests' rows.

// Words, each with the number that it stands for.
const NAMES: &str = "false;0 true;1 -1;18446744073709551615 -2;18446744073709551614 \
    Empty;0 Taken;1 Appending;2 Closed;3 Halted;4 Freeing;5 Gone;6 \
    hit;0 absent;1 writing;2 leaving;3 other_key;4";

/// The numbers of a text, which has so many.
pub(crate) fn numbers<const N: usize>(text: &str) -> Option<[u64; N]> {
    test_rows::numbers(NAMES, text)
}
