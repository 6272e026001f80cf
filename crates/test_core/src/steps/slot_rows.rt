// Rows of steps on slots over empty files: the map of taken slots, logged pieces, and the words of an entry that is written.

/// Scripts that are played each over a new core of so many slots, anchors and passes.
pub(super) const SLOT_SCRIPTS: &str = "\
core 66 2 2
stage the map has a bit for each slot
# 66 slots have two words of the map, which any tab that there is may look at; there is no other word.
map [0, 0]
0 0 25 0 0 = 0
1 8 25 1 0 = 0
0 0 25 2 0 = refused
0 9 25 0 0 = refused
2 0 25 0 0 = refused
made 5
stage two writers begin
# Tab 0 of pass 0 writes version 1 at anchor 0, and tab 1 of pass 1 version 2 at anchor 1.
0 0 1 0 0 = 0
0 0 4 0 0 = 0
0 0 5 0 0 = 0
0 0 6 0 1 = 0
1 1 1 1 0 = 0
1 1 4 0 0 = 1
1 1 5 0 0 = 1
1 1 6 1 2 = 0
made 8
stage a slot is reserved by its bit
# The last slot of the first word, and the first of the second. Each step finds the word as it was.
0 0 10 63 0 = 0
map [9223372036854775808, 0]
1 1 10 64 0 = 0
map [9223372036854775808, 1]
# What another tab has is found taken: the word stays, and the tab that tried does not have the slot.
1 1 10 63 0 = 9223372036854775808
0 0 10 64 0 = 1
map [9223372036854775808, 1]
1 1 11 63 0 = refused
0 0 11 64 0 = refused
# There is no slot behind the last one.
1 1 10 66 0 = refused
1 1 10 65 0 = 1
map [9223372036854775808, 3]
made 8
stage a look changes nothing
0 0 25 0 0 = 9223372036854775808
0 5 25 1 0 = 3
map [9223372036854775808, 3]
made 2
stage a slot is given back by its bit
# The other slots of the word stay taken.
1 1 11 64 0 = 3
map [9223372036854775808, 2]
0 0 11 63 0 = 9223372036854775808
map [0, 2]
1 1 11 65 0 = 2
map [0, 0]
made 3

core 3 3 2
stage three writers begin
# Tab 0 of pass 0 writes at anchor 0, its tab 1 at anchor 1, and tab 0 of pass 1 at anchor 2.
0 0 1 0 0 = 0
0 0 4 0 0 = 0
0 0 5 0 0 = 0
0 0 6 0 1 = 0
0 1 1 1 0 = 0
0 1 4 0 0 = 1
0 1 5 0 0 = 1
0 1 6 1 2 = 0
1 0 1 2 0 = 0
1 0 4 0 0 = 2
1 0 5 0 0 = 2
1 0 6 2 3 = 0
made 12
stage a look begins a search
claim 0 0 None
0 0 25 0 0 = 0
claim 0 0 Some(0)
claim 0 1 None
1 0 25 0 0 = 0
claim 1 0 Some(0)
# A slot that is reserved ends it, also one that is not at its place.
0 0 10 1 0 = 0
claim 0 0 None
# A try that is lost at the place goes on behind it, and past what this step found taken.
0 1 10 0 0 = 2
1 0 10 0 0 = 3
claim 1 0 Some(2)
# A try that is lost elsewhere leaves it, and begins none.
1 0 10 1 0 = 3
claim 1 0 Some(2)
0 0 10 0 0 = 3
claim 0 0 None
# A look at the first word begins again, past what it finds taken.
0 0 25 0 0 = 3
claim 0 0 Some(2)
made 8
stage all are taken
1 0 10 2 0 = 3
claim 1 0 None
map [7]
0 0 10 2 0 = 7
claim 0 0 Some(3)
0 1 25 0 0 = 7
claim 0 1 Some(3)
# What is given back is not found by a search that is past it.
0 1 11 0 0 = 7
claim 0 1 Some(3)
0 0 10 1 0 = 6
claim 0 0 Some(3)
0 0 25 0 0 = 6
claim 0 0 Some(0)
# A tab that gave a slot back reserves no more, and may still look.
0 1 10 0 0 = refused
0 1 7 0 4 = word 2 4 0
0 1 25 0 0 = 6
0 0 10 0 0 = 6
claim 0 0 None
map [7]
made 10

core 2 1 1
stage a writer begins
# Tab 0 of pass 0 writes version 1 at the anchor, has named its entry and reserved the slots 0 and 1.
0 0 1 0 0 = 0
0 0 4 0 0 = 0
0 0 5 0 0 = 0
0 0 6 0 1 = 0
0 0 9 4 77 = 0
0 0 9 5 78 = 0
0 0 9 6 7 = 0
0 0 10 0 0 = 0
0 0 10 1 0 = 1
made 9
stage a piece is logged once
# There is no turn before, a slot that is not the first one has no piece, and a piece is durable, 1, or not, 0.
0 0 15 0 0 = refused
0 0 14 1 1 = refused
0 0 14 0 2 = refused
logged 0
0 0 14 0 1 = 0
logged 1
0 0 14 0 1 = refused
0 0 14 0 0 = refused
0 0 14 0 2 = refused
made 7
stage a durable piece is published alone
# Written and not synced it is not published.
0 0 15 0 0 = 0
0 0 17 0 0 = 0
0 0 21 0 1 = 0
0 0 18 0 0 = 0
0 0 16 0 0 = 1
0 0 12 0 3 = refused
# A sync that failed changes nothing.
0 0 15 0 0 = 0
0 0 17 0 0 = 0
0 0 22 0 0 = 0
0 0 18 0 0 = 0
0 0 16 0 0 = 1
0 0 12 0 3 = refused
# Once it is synced it is published. A crash leaves the cell one content then, and who writes may not say that it wiped the slot.
0 0 15 0 0 = 0
0 0 17 0 0 = 0
0 0 22 0 1 = 0
0 0 18 0 0 = 0
0 0 16 0 2 = refused
0 0 16 0 0 = 1
0 0 12 0 3 = 0
made 19
stage the next piece is logged
# One that is not durable is published as it is written.
0 0 14 1 0 = 1
logged 2
0 0 15 1 0 = 0
0 0 17 1 0 = 0
0 0 21 1 1 = 0
0 0 18 1 0 = 0
0 0 16 1 0 = 1
0 0 12 1 1 = 0
made 7

core 2 1 1
stage a writer begins
# Tab 0 of pass 0 writes version 1 at the anchor, has named its entry and reserved the slots 0 and 1.
0 0 1 0 0 = 0
0 0 4 0 0 = 0
0 0 5 0 0 = 0
0 0 6 0 1 = 0
0 0 9 4 77 = 0
0 0 9 5 78 = 0
0 0 9 6 7 = 0
0 0 10 0 0 = 0
0 0 10 1 0 = 1
made 9
stage its second slot is given back
# What was logged for the first may still be written, and not published. Nothing more is logged.
0 0 14 0 0 = 0
0 0 11 1 0 = 3
0 0 15 0 0 = 0
0 0 17 0 0 = 0
0 0 21 0 1 = 0
0 0 18 0 0 = 0
0 0 16 0 0 = 1
0 0 12 0 3 = refused
0 0 12 0 1 = refused
0 0 14 0 0 = refused
0 0 11 0 0 = 1
0 0 7 0 4 = word 1 4 0
logged 1
made 12

core 2 1 1
stage a writer begins
# Tab 0 of pass 0 writes version 1 at the anchor, has named its entry and reserved the slots 0 and 1.
0 0 1 0 0 = 0
0 0 4 0 0 = 0
0 0 5 0 0 = 0
0 0 6 0 1 = 0
0 0 9 4 77 = 0
0 0 9 5 78 = 0
0 0 9 6 7 = 0
0 0 10 0 0 = 0
0 0 10 1 0 = 1
made 9
stage its first slot is given back
# What was logged for it is for no other slot.
0 0 14 0 0 = 0
0 0 11 0 0 = 3
0 0 15 0 0 = refused
0 0 15 1 0 = refused
0 0 14 1 0 = refused
made 5

core 2 1 2
stage a writer begins
# Tab 0 of pass 0 writes version 1 at the anchor, has named its entry and reserved the slots 0 and 1.
0 0 1 0 0 = 0
0 0 4 0 0 = 0
0 0 5 0 0 = 0
0 0 6 0 1 = 0
0 0 9 4 77 = 0
0 0 9 5 78 = 0
0 0 9 6 7 = 0
0 0 10 0 0 = 0
0 0 10 1 0 = 1
made 9
stage a note tells of a piece
# What pass 0 has seen has the piece, and pass 1 has it by a note.
seen 0 Some(3)
0 0 14 0 0 = 0
seen 0 Some(4)
0 0 19 0 0 = 0
seen 1 Some(1)
seen 2 Some(4)
1 0 20 0 0 = 0
seen 1 Some(5)
made 3

core 2 1 3
stage a writer begins
# Tab 0 of pass 0 writes version 1 at the anchor, has named its entry and reserved the slots 0 and 1.
0 0 1 0 0 = 0
0 0 4 0 0 = 0
0 0 5 0 0 = 0
0 0 6 0 1 = 0
0 0 9 4 77 = 0
0 0 9 5 78 = 0
0 0 9 6 7 = 0
0 0 10 0 0 = 0
0 0 10 1 0 = 1
made 9
stage its first slot is published
# A turn at a slot tells the writer nothing that it knows: it logged the piece itself.
0 0 14 0 0 = 0
seen 0 Some(4)
0 0 15 0 0 = 0
seen 0 Some(4)
0 0 17 0 0 = 0
0 0 21 0 1 = 0
0 0 18 0 0 = 0
0 0 16 0 0 = 1
0 0 12 0 3 = 0
0 0 9 7 1 = 0
0 0 7 0 2 = word 1 2 0
made 9
stage the other piece is logged, and a note has both
0 0 14 1 0 = 1
0 0 19 0 0 = 0
made 2
stage a turn tells of the piece of its slot
# Pass 1 learns no note. With the turn at slot 0 it knows the piece of this slot, once, and not the one of slot 1.
seen 1 Some(1)
1 0 2 0 0 = word 1 2 0
1 0 13 0 0 = 3
seen 1 Some(3)
1 0 15 0 0 = 0
seen 1 Some(4)
made 3
stage a turn that is taken tells of nothing
2 0 2 0 0 = word 1 2 1
2 0 13 0 0 = 3
seen 2 Some(3)
2 0 15 0 0 = 1
seen 2 Some(3)
1 0 16 0 0 = 1
2 0 15 0 0 = 0
seen 2 Some(4)
2 0 16 0 0 = 1
made 6
stage a turn tells of nothing twice
1 0 15 0 0 = 0
seen 1 Some(4)
1 0 16 0 0 = 1
made 2

core 3 2 2
stage a writer begins
# Tab 0 of pass 0 writes version 1 at anchor 1, has named its entry and reserved the slots 2 and 0.
0 0 1 1 0 = 0
0 0 4 0 0 = 0
0 0 5 0 0 = 0
0 0 6 1 1 = 0
0 0 9 4 77 = 0
0 0 9 5 78 = 0
0 0 9 6 7 = 0
0 0 10 2 0 = 0
0 0 10 0 0 = 4
made 9
stage it writes slot 2
# It logs its piece for slot 2, which is its first reserved one, as durable, and writes it there.
0 0 14 2 1 = 0
0 0 15 2 0 = 0
0 0 17 2 0 = 0
0 0 21 2 1 = 0
0 0 22 2 1 = 0
0 0 18 2 0 = 0
0 0 16 2 0 = 1
made 7
stage a reader enters
# The first slot is published, and a reader enters.
0 0 12 2 2 = 0
0 0 9 7 3 = 0
0 0 7 0 2 = word 1 2 0
1 0 2 1 0 = word 1 2 0
1 0 9 0 0 = 77
1 0 9 3 0 = 3
made 6
stage it reads slot 2
# Tab 0 of pass 1 reads slot 2, which is at its place, and goes on.
1 0 13 2 0 = 2
1 0 15 2 0 = 0
1 0 17 2 0 = 0
1 0 18 2 0 = 0
1 0 16 2 1 = 1
made 5
stage a reader leaves what was halted
# The writer gives the entry up while the reader is counted. Its tab is free then, and the slot that the last link names is kept.
0 0 11 0 0 = refused
0 0 7 0 4 = word 1 4 1
0 0 13 2 0 = refused
# The reader leaves last, and its tab frees the entry: no anchor is HALTED then, and no slot is taken.
1 0 3 0 0 = word 1 4 0
1 0 6 1 0 = word 1 4 0
1 8 13 2 0 = 2
1 8 12 2 0 = 2
1 8 13 0 0 = 0
1 8 12 0 0 = 0
1 8 11 2 0 = 5
1 8 11 0 0 = 1
1 8 7 0 6 = word 1 6 0
map [0]
1 0 1 0 0 = word 0 0 0
1 0 1 1 0 = word 1 6 0
made 14

core 3 2 2
stage an entry of the slots 0 and 1
# Tab 0 of pass 0 writes version 1 at anchor 0, and publishes slot 0, whose link names slot 1, and slot 1.
0 0 1 0 0 = 0
0 0 4 0 0 = 0
0 0 5 0 0 = 0
0 0 6 0 1 = 0
0 0 9 4 77 = 0
0 0 9 5 78 = 0
0 0 9 6 7 = 0
0 0 10 0 0 = 0
0 0 10 1 0 = 1
0 0 14 0 0 = 0
0 0 15 0 0 = 0
0 0 17 0 0 = 0
0 0 21 0 1 = 0
0 0 18 0 0 = 0
0 0 16 0 0 = 1
0 0 12 0 3 = 0
0 0 14 1 0 = 1
0 0 15 1 0 = 0
0 0 17 1 0 = 0
0 0 21 1 1 = 0
0 0 18 1 0 = 0
0 0 16 1 0 = 1
0 0 12 1 1 = 0
0 0 9 7 1 = 0
0 0 7 0 3 = word 1 3 0
made 25
stage it is evicted
# The inner tab finds the link of slot 0, and gives both slots back.
0 0 1 0 0 = word 1 3 0
0 8 6 0 0 = word 1 3 0
0 8 13 0 0 = 3
0 8 12 0 0 = 3
0 8 13 1 0 = 1
0 8 12 1 0 = 1
0 8 11 0 0 = 3
0 8 11 1 0 = 2
0 8 7 0 6 = word 1 6 0
map [0]
made 9
stage slot 0 is named by another link
# The tab writes version 2 at anchor 1, reserves the slots 2 and 0, and publishes slot 2 alone, whose link names slot 0.
0 0 1 1 0 = 0
0 0 4 0 0 = 1
0 0 5 0 0 = 1
0 0 6 1 2 = 0
0 0 9 4 77 = 0
0 0 9 5 78 = 0
0 0 9 6 7 = 0
0 0 10 2 0 = 0
0 0 10 0 0 = 4
0 0 14 2 0 = 2
0 0 15 2 0 = 0
0 0 17 2 0 = 0
0 0 21 2 1 = 0
0 0 18 2 0 = 0
0 0 16 2 0 = 1
0 0 12 2 2 = 0
0 0 9 7 3 = 0
0 0 7 0 2 = word 2 2 0
made 18
stage a reader comes to slot 0
1 0 2 1 0 = word 2 2 0
1 0 9 3 0 = 3
1 0 13 2 0 = 2
1 0 15 2 0 = 0
1 0 17 2 0 = 0
1 0 18 2 0 = 0
1 0 16 2 1 = 1
1 0 13 0 0 = 0
made 8
stage the entry is given up, and slot 0 is its tail
# What slot 0 named in the first entry is found by nobody: neither by the reader nor by who frees the entry.
0 0 7 0 4 = word 2 4 1
1 0 13 0 0 = 0
1 0 15 0 0 = refused
1 0 3 0 0 = word 2 4 0
1 0 6 1 0 = word 2 4 0
1 8 13 2 0 = 2
1 8 12 2 0 = 2
1 8 13 0 0 = 0
1 8 12 0 0 = 0
1 8 11 2 0 = 5
1 8 11 0 0 = 1
1 8 7 0 6 = word 2 6 0
map [0]
made 12
";
