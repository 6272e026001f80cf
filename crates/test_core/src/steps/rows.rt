// Rows of steps over empty files, and what each answers.

/// Scripts that are played each over a new core of so many slots, anchors and passes.
pub(super) const SCRIPTS: &str = "\
core 3 2 2
stage slots and names
# Slots and names, each refused by its condition.
# A free tab loads, stores, reserves, gives back and looks at nothing, and there is nothing to loosen.
0 0 9 0 0 = refused
0 0 9 4 5 = refused
0 0 10 0 0 = refused
0 0 11 0 0 = refused
0 8 12 0 0 = refused
0 0 13 0 0 = refused
# Version 1 at anchor 1, by tab 0.
0 0 1 1 0 = 0
0 0 4 0 0 = 0
0 0 5 0 0 = 0
0 0 6 1 1 = 0
# Its key, and an offer that is no slot's number; no start, since nothing is published.
0 0 9 4 77 = 0
0 0 9 0 0 = 77
0 0 9 5 18446744073709551615 = 0
0 0 9 1 0 = 18446744073709551615
0 0 9 6 2 = refused
0 0 9 6 3 = 0
0 0 9 2 0 = 3
0 0 9 7 1 = refused
0 0 9 7 0 = 0
0 0 9 8 0 = refused
# Two slots at most, each of them free; a slot that another has is found so, and stays.
0 0 10 3 0 = refused
0 0 10 2 0 = 0
0 0 10 2 0 = 4
0 0 10 0 0 = 4
0 0 10 1 0 = refused
# An entry with reserved slots is not halted, and nothing is published without a turn.
0 0 7 0 4 = refused
0 0 12 2 1 = refused
0 0 13 2 0 = refused
# Only what it reserved is given back, and then no slot is reserved any more.
0 0 11 1 0 = refused
1 0 11 2 0 = refused
0 0 11 2 0 = 5
0 0 11 2 0 = refused
0 0 10 2 0 = refused
0 0 11 0 0 = 1
0 0 7 0 4 = word 1 4 0
0 0 9 0 0 = refused
made 36

core 1 1 1
stage a new core
# A new core counts a reader, and lets no tab leave.
0 0 3 0 0 = refused
0 0 2 0 0 = 0
made 2

core 2 1 1
stage a reader retreats
# A writer takes an anchor, and a reader retreats.
0 0 1 0 0 = 0
0 0 4 0 0 = 0
0 0 5 0 0 = 0
0 0 6 0 1 = 0
0 0 1 0 0 = word 1 1 0
0 0 10 0 0 = 0
0 0 10 0 0 = 1
0 1 2 0 0 = word 1 1 0
0 1 3 0 0 = word 1 1 0
0 0 7 0 2 = refused
made 10

core 2 2 2
stage each condition
# Each condition of steps at anchors refuses its kind.
# No such anchor, pass or tab.
0 0 1 2 0 = refused
2 0 1 0 0 = refused
0 0 2 2 0 = refused
0 9 2 0 0 = refused
# A free tab does not leave, raise or doom.
0 0 3 0 0 = refused
0 9 3 0 0 = refused
0 0 7 0 4 = refused
0 0 8 0 0 = refused
# A draw comes behind a look at the counter, and each needs one of its own.
0 0 5 0 0 = refused
0 0 4 0 0 = 0
0 0 5 0 0 = 0
0 0 5 0 0 = refused
# No find, and then a version that was drawn before it.
0 0 6 0 1 = refused
0 0 1 0 0 = 0
0 0 6 0 1 = refused
0 0 4 0 0 = 1
0 0 5 0 0 = 1
# A version that is not held, or is none; the inner tab; no such tab or anchor; no find there.
0 0 6 0 3 = refused
0 0 6 0 4294967298 = refused
0 8 6 0 2 = refused
0 9 6 0 2 = refused
0 0 6 2 2 = refused
0 0 6 1 2 = refused
# A vacant anchor has nothing to evict.
0 8 6 0 0 = refused
# A tab that retreats is not free, and raises and dooms nothing.
0 1 2 1 0 = 0
0 1 2 0 0 = refused
0 1 6 0 2 = refused
0 1 7 0 4 = refused
0 1 8 0 0 = refused
# A try that is lost uses the version up.
1 0 2 0 0 = 0
0 0 6 0 2 = 1
0 0 6 0 2 = refused
1 0 3 0 0 = 0
0 0 1 0 0 = 0
0 0 4 0 0 = 2
0 0 5 0 0 = 2
0 0 6 0 3 = 0
# A writing tab does not leave, and with nothing published is raised to HALTED alone.
0 0 3 0 0 = refused
0 0 7 0 0 = refused
0 0 7 0 1 = refused
0 0 7 0 2 = refused
0 0 7 0 3 = refused
0 0 7 0 5 = refused
0 0 7 0 6 = refused
0 0 7 0 7 = refused
# An anchor that is TAKEN is not taken.
0 0 1 0 0 = word 3 1 0
0 0 4 0 0 = 3
0 0 5 0 0 = 3
0 2 6 0 4 = refused
# A last tab raises nothing, and frees its own anchor alone; the inner tab evicts idle entries.
0 0 7 0 4 = word 3 4 0
0 0 7 0 5 = refused
0 0 3 0 0 = refused
0 0 6 1 0 = refused
0 8 6 0 0 = refused
0 0 6 0 0 = word 3 4 0
# A freeing tab is raised to GONE alone.
0 8 7 0 3 = refused
0 8 7 0 6 = word 3 6 0
0 8 7 0 6 = refused
0 0 1 0 0 = word 3 6 0
made 59

core 3 2 2
stage turns by their conditions
# A writer takes turns by their conditions.
# A free tab, no such tab, and one that has not named its entry.
0 0 15 0 0 = refused
0 9 15 0 0 = refused
0 0 16 0 0 = refused
0 0 17 0 0 = refused
0 0 18 0 0 = refused
0 0 21 0 1 = refused
0 0 22 0 1 = refused
1 1 1 0 0 = 0
1 1 4 0 0 = 0
1 1 5 0 0 = 0
1 1 6 0 1 = 0
1 1 10 0 0 = 0
1 1 14 0 0 = refused
1 1 15 0 0 = refused
1 1 9 4 0 = 0
1 1 9 5 0 = 0
1 1 14 0 0 = refused
1 1 15 0 0 = refused
1 1 9 6 3 = 0
# A slot that it has not reserved, and then the second one.
1 1 14 1 0 = refused
1 1 15 1 0 = refused
1 1 10 1 0 = 1
1 1 14 1 0 = refused
1 1 15 1 0 = refused
# No turn before its piece is logged.
1 1 15 0 0 = refused
1 1 14 0 0 = 0
# Nothing is done with a cell without its turn, nor published before it is written.
1 1 17 0 0 = refused
1 1 21 0 1 = refused
1 1 12 0 3 = refused
1 1 15 0 0 = 0
1 1 15 0 0 = refused
# With the turn no slot is given back, and the entry is not given up.
1 1 11 1 0 = refused
1 1 7 0 4 = refused
# The cell of another slot, a cell that is home, and then one that is out.
1 1 17 1 0 = refused
1 1 18 0 0 = refused
1 1 21 0 1 = refused
1 1 22 0 1 = refused
1 1 17 0 0 = 0
1 1 17 0 0 = refused
1 1 16 0 0 = refused
1 1 18 1 0 = refused
1 1 21 1 1 = refused
1 1 22 1 1 = refused
# There are four outcomes of a write, and two of a sync.
1 1 21 0 4 = refused
1 1 22 0 2 = refused
1 1 21 0 1 = 0
1 1 12 0 3 = refused
1 1 18 0 0 = 0
1 1 21 0 1 = refused
# There are three ways to end a turn, and to say that a slot was wiped is for a tab that frees alone.
1 1 16 0 3 = refused
1 1 16 0 2 = refused
# A slot whose turn is taken is not published, nor one with another link.
1 1 12 0 3 = refused
1 1 16 0 0 = 1
1 1 16 0 0 = refused
1 1 12 0 1 = refused
1 1 12 0 4 = refused
1 1 12 1 1 = refused
1 1 12 0 3 = 0
1 1 12 0 3 = refused
# The piece is the last one now, and no slot is reserved behind it.
1 1 15 1 0 = refused
1 1 14 1 0 = 1
1 1 15 1 0 = 0
1 1 10 2 0 = refused
1 1 16 1 0 = 1
1 1 12 1 1 = refused
# It names its entry no more.
1 1 9 4 1 = refused
1 1 9 7 1 = 0
1 1 9 7 2 = refused
made 68

core 3 2 2
stage a writer begins
# Tab 0 of pass 0 writes version 1 at anchor 1, has named its entry and reserved the slots 2 and 0.
0 0 1 1 0 = 0
0 0 4 0 0 = 0
0 0 5 0 0 = 0
0 0 6 1 1 = 0
0 0 9 4 77 = 0
0 0 9 5 78 = 0
0 0 9 6 7 = 0
0 0 10 2 0 = 0
0 0 10 0 0 = 4
made 9
stage it writes slot 2
# It logs its piece for slot 2, which is its first reserved one, as durable, and writes it there.
0 0 14 2 1 = 0
0 0 15 2 0 = 0
0 0 17 2 0 = 0
0 0 21 2 1 = 0
0 0 22 2 1 = 0
0 0 18 2 0 = 0
0 0 16 2 0 = 1
made 7
stage a reader enters
# The first slot is published, and a reader enters.
0 0 12 2 2 = 0
0 0 9 7 3 = 0
0 0 7 0 2 = word 1 2 0
1 0 2 1 0 = word 1 2 0
1 0 9 0 0 = 77
1 0 9 3 0 = 3
made 6
stage it reads slot 2
# Tab 0 of pass 1 reads slot 2, which is at its place, and goes on.
1 0 13 2 0 = 2
1 0 15 2 0 = 0
1 0 17 2 0 = 0
1 0 18 2 0 = 0
1 0 16 2 1 = 1
made 5
stage slot 0 is not written
# The next slot is not written, so its cell is not read.
1 0 13 0 0 = 0
1 0 15 0 0 = refused
1 0 13 2 0 = refused
made 3
stage slot 0 is written
# The same in slot 0.
0 0 14 0 1 = 1
0 0 15 0 0 = 0
0 0 17 0 0 = 0
0 0 21 0 1 = 0
0 0 22 0 1 = 0
0 0 18 0 0 = 0
0 0 16 0 0 = 1
made 7
stage the entry is closed
# The last slot is published.
0 0 12 0 1 = 0
0 0 7 0 3 = word 1 3 1
made 2
stage slot 0 is read
# The same of slot 0, which is the last one.
1 0 13 0 0 = 1
1 0 15 0 0 = 0
1 0 17 0 0 = 0
1 0 18 0 0 = 0
1 0 16 0 1 = 1
made 5
stage the slots are given back
# Behind the last slot there is none; the last user gives both slots back.
1 0 13 0 0 = refused
1 0 15 0 0 = refused
1 0 8 0 0 = word 1 11 1
1 0 3 0 0 = word 1 11 0
# The last user gives both slots back.
1 0 6 1 0 = word 1 11 0
1 8 13 2 0 = 2
1 8 12 2 0 = 2
1 8 13 0 0 = 1
1 8 12 0 0 = 1
1 8 7 0 6 = refused
1 8 11 0 0 = 5
1 8 11 2 0 = 4
1 8 7 0 6 = word 1 14 0
made 13

core 3 2 2
stage a writer begins
# Tab 0 of pass 0 writes version 1 at anchor 1, has named its entry and reserved the slots 2 and 0.
0 0 1 1 0 = 0
0 0 4 0 0 = 0
0 0 5 0 0 = 0
0 0 6 1 1 = 0
0 0 9 4 77 = 0
0 0 9 5 78 = 0
0 0 9 6 7 = 0
0 0 10 2 0 = 0
0 0 10 0 0 = 4
made 9
stage it writes slot 2
# It logs its piece for slot 2, which is its first reserved one, as durable, and writes it there.
0 0 14 2 1 = 0
0 0 15 2 0 = 0
0 0 17 2 0 = 0
0 0 21 2 1 = 0
0 0 22 2 1 = 0
0 0 18 2 0 = 0
0 0 16 2 0 = 1
made 7
stage two readers
# A turn has one holder.
0 0 12 2 2 = 0
0 0 9 7 3 = 0
0 0 7 0 2 = word 1 2 0
1 0 2 1 0 = word 1 2 0
1 1 2 1 0 = word 1 2 1
# No turn before the link was found written.
1 0 15 2 0 = refused
1 0 13 2 0 = 2
1 1 13 2 0 = 2
1 0 15 0 0 = refused
# One has the turn, and the other finds it taken.
1 0 15 2 0 = 0
1 1 15 2 0 = 1
1 1 17 2 0 = refused
1 1 16 2 0 = refused
# A reading tab writes nothing, and does not leave with the turn.
1 0 17 2 0 = 0
1 0 21 2 1 = refused
1 0 22 2 1 = refused
1 0 3 0 0 = refused
1 0 16 2 1 = refused
1 0 18 2 0 = 0
1 0 16 2 2 = refused
# It does not go on, and may read once more.
1 0 16 2 0 = 1
1 1 15 2 0 = 0
1 0 15 2 0 = 1
1 1 16 2 1 = 1
1 0 15 2 0 = 0
1 0 16 2 0 = 1
1 1 13 2 0 = refused
1 1 13 0 0 = 0
1 0 3 0 0 = word 1 2 1
made 29

core 3 2 2
stage a writer begins
# Tab 0 of pass 0 writes version 1 at anchor 1, has named its entry and reserved the slots 2 and 0.
0 0 1 1 0 = 0
0 0 4 0 0 = 0
0 0 5 0 0 = 0
0 0 6 1 1 = 0
0 0 9 4 77 = 0
0 0 9 5 78 = 0
0 0 9 6 7 = 0
0 0 10 2 0 = 0
0 0 10 0 0 = 4
made 9
stage writes and syncs
0 0 14 2 0 = 0
0 0 15 2 0 = 0
0 0 17 2 0 = 0
cell false 1 true
# A write failed and left nothing; then a crash may leave the piece; then it is there.
0 0 21 2 0 = 0
cell false 1 true
0 0 21 2 2 = 0
cell false 2 true
# What is not there is not published, though a sync was kept.
0 0 22 2 0 = 0
0 0 18 2 0 = 0
0 0 16 2 0 = 1
0 0 12 2 2 = refused
0 0 15 2 0 = 0
0 0 17 2 0 = 0
cell false 2 true
0 0 22 2 1 = 0
cell false 1 true
0 0 21 2 3 = 0
cell true 2 true
0 0 21 2 1 = 0
cell true 3 true
0 0 22 2 0 = 0
cell true 3 true
0 0 22 2 1 = 0
cell true 1 true
made 16
stage the piece is published
0 0 18 2 0 = 0
0 0 16 2 1 = 1
0 0 12 2 2 = 0
made 3

core 2 2 2
stage notes are made
0 0 20 0 0 = refused
0 0 1 1 0 = 0
0 0 19 0 0 = 0
0 0 19 0 0 = 1
# Each pass has seen both anchors at the opening, and one looked at one.
seen 0 Some(3)
seen 1 Some(2)
seen 2 Some(3)
made 4
stage a note is learned
1 0 20 2 0 = refused
1 0 20 0 0 = 0
seen 0 Some(3)
seen 1 Some(5)
seen 2 Some(0)
made 2
# It is gone, and its number is free. A pass may learn its own note too.
stage a note is gone
1 0 20 0 0 = refused
1 0 20 1 0 = 0
1 0 19 0 0 = 0
1 0 20 0 0 = 0
seen 1 Some(16)
seen 4 None
made 4
";
