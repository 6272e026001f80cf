// Rows of steps, crashes and rebuilds over empty files. Each script begins with a new store of so many slots, anchors
// and passes. Of what a crash may leave of a slot the number 0 is that of what was written last.

pub(super) const LIVES: &str = "\
life 2 1 1
# A crash takes one number for each slot, and then only a rebuild may come.
crash 0 = refused
crash 0 0 0 = refused
crash 1 0 = refused
rebuild = refused
crash 0 0 = 0
0 0 1 0 0 = refused
crash 0 0 = refused
rebuild = 0
rebuild = refused
0 0 1 0 0 = 0
logged 0

life 2 1 1
# Two pieces are logged, written with no sync, published and closed. A crash leaves the new one in the first slot alone.
0 0 1 0 0 = 0
0 0 4 0 0 = 0
0 0 5 0 0 = 0
0 0 6 0 1 = 0
0 0 9 4 77 = 0
0 0 9 5 78 = 0
0 0 9 6 123 = 0
0 0 10 0 0 = 0
0 0 10 1 0 = 1
0 0 14 0 0 = 0
0 0 15 0 0 = 0
0 0 17 0 0 = 0
0 0 21 0 1 = 0
0 0 18 0 0 = 0
0 0 16 0 0 = 1
0 0 12 0 3 = 0
0 0 9 7 1 = 0
0 0 7 0 2 = word 1 2 0
0 0 14 1 0 = 1
0 0 15 1 0 = 0
0 0 17 1 0 = 0
0 0 21 1 1 = 0
0 0 18 1 0 = 0
0 0 16 1 0 = 1
0 0 12 1 1 = 0
0 0 7 0 3 = word 1 3 0
logged 2
stands 1 3 0
chain [0, 1]
crash 0 2 = refused
crash 0 1 = 0
rebuild = 0
stands 0 0 0
chain []
counter 1
logged 0
map [0]

life 2 1 1
# The same, and both new contents are left: the entry stands as it did, is evicted in the second life and written over, and
# a crash leaves it once more, since its slots were written with no sync.
0 0 1 0 0 = 0
0 0 4 0 0 = 0
0 0 5 0 0 = 0
0 0 6 0 1 = 0
0 0 9 4 77 = 0
0 0 9 5 78 = 0
0 0 9 6 123 = 0
0 0 10 0 0 = 0
0 0 10 1 0 = 1
0 0 14 0 0 = 0
0 0 15 0 0 = 0
0 0 17 0 0 = 0
0 0 21 0 1 = 0
0 0 18 0 0 = 0
0 0 16 0 0 = 1
0 0 12 0 3 = 0
0 0 9 7 1 = 0
0 0 7 0 2 = word 1 2 0
0 0 14 1 0 = 1
0 0 15 1 0 = 0
0 0 17 1 0 = 0
0 0 21 1 1 = 0
0 0 18 1 0 = 0
0 0 16 1 0 = 1
0 0 12 1 1 = 0
0 0 7 0 3 = word 1 3 0
crash 0 0 = 0
rebuild = 0
stands 1 3 0
chain [0, 1]
counter 1
logged 0
map [3]
# The second life. It is read by its key; its offer is its first slot, and its start 1 more. A writer of version 2 evicts
# it, and writes the one piece of a new entry over its first slot.
0 1 2 0 0 = word 1 3 0
0 1 9 0 0 = 77
0 1 9 1 0 = 78
0 1 9 2 0 = 0
0 1 9 3 0 = 1
0 1 3 0 0 = word 1 3 0
0 0 1 0 0 = word 1 3 0
0 0 4 0 0 = 1
0 0 5 0 0 = 1
0 0 6 0 2 = word 1 3 0
stands 2 1 0
0 8 13 0 0 = 3
0 8 12 0 0 = 3
0 8 13 1 0 = 1
0 8 12 1 0 = 1
0 8 11 1 0 = 3
0 8 11 0 0 = 1
0 0 9 4 5 = 0
0 0 9 5 6 = 0
0 0 9 6 9 = 0
0 0 10 0 0 = 0
0 0 14 0 0 = 0
0 0 15 0 0 = 0
0 0 17 0 0 = 0
0 0 21 0 1 = 0
crash 1 0 = 0
rebuild = 0
# What the first life left in the first slot is picked once more, so the old entry is back, whole.
stands 1 3 0
chain [0, 1]
counter 1
map [3]
# The third life does the same. What it wrote is picked, though it published nothing: it is a whole entry.
0 0 1 0 0 = word 1 3 0
0 0 4 0 0 = 1
0 0 5 0 0 = 1
0 0 6 0 2 = word 1 3 0
0 8 13 0 0 = 3
0 8 12 0 0 = 3
0 8 13 1 0 = 1
0 8 12 1 0 = 1
0 8 11 1 0 = 3
0 8 11 0 0 = 1
0 0 9 4 5 = 0
0 0 9 5 6 = 0
0 0 9 6 9 = 0
0 0 10 0 0 = 0
0 0 14 0 0 = 0
0 0 15 0 0 = 0
0 0 17 0 0 = 0
0 0 21 0 1 = 0
crash 0 0 = 0
rebuild = 0
stands 2 3 0
chain [0]
counter 2
map [1]

life 2 1 1
# The last write of the second piece is in doubt: nothing of it is there, and a crash may leave it.
0 0 1 0 0 = 0
0 0 4 0 0 = 0
0 0 5 0 0 = 0
0 0 6 0 1 = 0
0 0 9 4 77 = 0
0 0 9 5 78 = 0
0 0 9 6 123 = 0
0 0 10 0 0 = 0
0 0 10 1 0 = 1
0 0 14 0 0 = 0
0 0 15 0 0 = 0
0 0 17 0 0 = 0
0 0 21 0 1 = 0
0 0 22 0 1 = 0
crash 1 0 = refused
0 0 18 0 0 = 0
0 0 16 0 0 = 1
0 0 12 0 3 = 0
0 0 14 1 0 = 1
0 0 15 1 0 = 0
0 0 17 1 0 = 0
0 0 21 1 0 = 0
crash 0 1 = refused
0 0 21 1 2 = 0
crash 0 0 = 0
rebuild = 0
stands 1 3 0
chain [0, 1]
counter 1

life 2 1 1
# The same, and the old content of the second slot is left.
0 0 1 0 0 = 0
0 0 4 0 0 = 0
0 0 5 0 0 = 0
0 0 6 0 1 = 0
0 0 9 4 77 = 0
0 0 9 5 78 = 0
0 0 9 6 123 = 0
0 0 10 0 0 = 0
0 0 10 1 0 = 1
0 0 14 0 0 = 0
0 0 15 0 0 = 0
0 0 17 0 0 = 0
0 0 21 0 1 = 0
0 0 22 0 1 = 0
0 0 18 0 0 = 0
0 0 16 0 0 = 1
0 0 12 0 3 = 0
0 0 14 1 0 = 1
0 0 15 1 0 = 0
0 0 17 1 0 = 0
0 0 21 1 2 = 0
crash 0 1 = 0
rebuild = 0
stands 0 0 0
chain []
counter 1
";

/// Rows over the base of the images, whose one anchor has `http://a/b` of version 7, in slots 2 and 0. The older
/// `http://a/c` of version 3, in slot 1, is complete too.
pub(super) const OVER_A_FILE: &str = "\
stands 7 3 0
chain [2, 0]
map [5]
# A writer takes the anchor, and the old entry's slots are given back. It reserves slot 0, writes the first of two pieces
# there with no sync, and gives the slot back.
0 0 1 0 0 = word 7 3 0
0 0 4 0 0 = 7
0 0 5 0 0 = 7
0 0 6 0 8 = word 7 3 0
stands 8 1 0
0 8 13 2 0 = 2
0 8 12 2 0 = 2
0 8 13 0 0 = 1
0 8 12 0 0 = 1
0 8 11 2 0 = 5
0 8 11 0 0 = 1
0 0 9 4 77 = 0
0 0 9 5 78 = 0
0 0 9 6 123 = 0
0 0 10 0 0 = 0
0 0 10 3 0 = 1
0 0 14 0 0 = 0
0 0 15 0 0 = 0
0 0 17 0 0 = 0
0 0 21 0 1 = 0
0 0 18 0 0 = 0
0 0 16 0 0 = 1
0 0 11 0 0 = 9
crash 2 0 0 0 = refused
# Picked as it was, the entry stands as it did in the file.
crash 1 0 0 0 = 0
rebuild = 0
stands 7 3 0
chain [2, 0]
counter 7
map [5]
logged 0
0 1 2 0 0 = word 7 3 0
0 1 9 0 0 = 7364101636907690010
0 1 3 0 0 = word 7 3 0
# The same once more. Picked new, the slot has a piece that is no whole entry; the entry is gone, and the older one stands.
0 0 1 0 0 = word 7 3 0
0 0 4 0 0 = 7
0 0 5 0 0 = 7
0 0 6 0 8 = word 7 3 0
stands 8 1 0
0 8 13 2 0 = 2
0 8 12 2 0 = 2
0 8 13 0 0 = 1
0 8 12 0 0 = 1
0 8 11 2 0 = 5
0 8 11 0 0 = 1
0 0 9 4 77 = 0
0 0 9 5 78 = 0
0 0 9 6 123 = 0
0 0 10 0 0 = 0
0 0 10 3 0 = 1
0 0 14 0 0 = 0
0 0 15 0 0 = 0
0 0 17 0 0 = 0
0 0 21 0 1 = 0
0 0 18 0 0 = 0
0 0 16 0 0 = 1
0 0 11 0 0 = 9
crash 0 0 0 0 = 0
rebuild = 0
stands 3 3 0
chain [1]
counter 8
map [2]
logged 0
0 1 2 0 0 = word 3 3 0
0 1 9 0 0 = 11057020479801489224
";
