// Rows of a search over two words of the map, and rows that are no steps.

/// The rows of 32 writers are in front: they have reserved the slots of the first word of the map.
pub(super) const SECOND_WORD: &str = "\
stage a search goes on in the second word
map [18446744073709551615, 0]
4 0 1 32 0 = 0
4 0 4 0 0 = 32
4 0 5 0 0 = 32
4 0 6 32 33 = 0
# It begins at the first word alone.
4 0 25 1 0 = 0
claim 4 0 None
4 0 25 0 0 = 18446744073709551615
claim 4 0 Some(64)
4 0 25 1 0 = 0
claim 4 0 Some(64)
4 0 10 64 0 = 0
claim 4 0 None
# All are taken, and the bits behind the last slot are 0.
map [18446744073709551615, 1]
4 0 25 0 0 = 18446744073709551615
claim 4 0 Some(64)
4 0 25 1 0 = 1
claim 4 0 Some(65)
4 0 10 65 0 = refused
made 11
";

/// Kinds on pieces and cells, of a free tab; a note that is not there; and kinds that are no steps of a pass.
pub(super) const NO_STEPS: &str = "\
stage no step
0 0 0 0 0 = refused
0 0 14 0 0 = refused
0 0 15 0 0 = refused
0 0 16 0 0 = refused
0 0 17 0 0 = refused
0 0 18 0 0 = refused
0 0 20 0 0 = refused
0 0 21 0 0 = refused
0 0 22 0 0 = refused
0 0 23 0 0 = refused
0 0 24 0 0 = refused
0 0 26 0 0 = refused
0 0 255 0 0 = refused
made 13
";
