// Rows of an entry whose first slot is wiped before it is given back, and of one that may not be wiped.

pub(super) const WIPING: &str = "\
core 2 1 1
stage a doomed entry
# Tab 0 publishes an entry of the slots 0 and 1; tab 1 enters, dooms it, is its last user and has it freed.
0 0 1 0 0 = 0
0 0 4 0 0 = 0
0 0 5 0 0 = 0
0 0 6 0 1 = 0
0 0 9 4 77 = 0
0 0 9 5 78 = 0
0 0 9 6 7 = 0
0 0 10 0 0 = 0
0 0 10 1 0 = 1
0 0 14 0 0 = 0
0 0 15 0 0 = 0
0 0 17 0 0 = 0
0 0 21 0 1 = 0
0 0 18 0 0 = 0
0 0 16 0 0 = 1
0 0 12 0 3 = 0
0 0 14 1 0 = 1
0 0 15 1 0 = 0
0 0 17 1 0 = 0
0 0 21 1 1 = 0
0 0 18 1 0 = 0
0 0 16 1 0 = 1
0 0 12 1 1 = 0
0 0 9 7 1 = 0
0 0 7 0 3 = word 1 3 0
0 1 2 0 0 = word 1 3 0
0 1 8 0 0 = word 1 11 1
0 1 3 0 0 = word 1 11 0
0 1 6 0 0 = word 1 11 0
seen 0 Some(18)
made 29
stage its first slot is wiped
# The inner tab takes the turn of the first slot alone, and writes with the cell in its hands alone.
0 8 15 1 0 = refused
0 8 21 0 1 = refused
0 8 15 0 0 = 0
0 8 15 0 0 = refused
# It may say that the slot is wiped only where a crash leaves the blank content and nothing else.
0 8 16 0 2 = refused
# No slot leaves the chain while it has the turn.
0 8 13 0 0 = 3
0 8 12 0 0 = refused
0 8 17 0 0 = 0
inner false 2 true
0 8 21 0 1 = 0
inner true 3 true
0 8 16 0 2 = refused
0 8 18 0 0 = 0
0 8 16 0 2 = refused
0 8 17 0 0 = 0
0 8 22 0 0 = 0
inner true 3 true
0 8 22 0 1 = 0
inner true 1 true
0 8 18 0 0 = 0
0 8 16 0 2 = 1
seen 0 Some(19)
made 17
stage the slots are given back
# No turn is taken any more once a slot has left the chain.
0 8 12 0 0 = 3
0 8 15 1 0 = refused
0 8 13 1 0 = 1
0 8 12 1 0 = 1
0 8 11 0 0 = 3
0 8 11 1 0 = 2
0 8 7 0 6 = word 1 14 0
made 7

core 2 1 1
stage an entry that was given up
# One that is not doomed is not wiped.
0 0 1 0 0 = 0
0 0 4 0 0 = 0
0 0 5 0 0 = 0
0 0 6 0 1 = 0
0 0 9 4 77 = 0
0 0 9 5 78 = 0
0 0 9 6 7 = 0
0 0 10 0 0 = 0
0 0 10 1 0 = 1
0 0 14 0 0 = 0
0 0 15 0 0 = 0
0 0 17 0 0 = 0
0 0 21 0 1 = 0
0 0 18 0 0 = 0
0 0 16 0 0 = 1
0 0 12 0 3 = 0
0 0 9 7 1 = 0
0 0 7 0 4 = word 1 4 0
0 0 6 0 0 = word 1 4 0
0 8 15 0 0 = refused
made 20
";
