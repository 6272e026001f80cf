// Orders of steps by which workers search for a free slot, and what each step finds.

/// Stores, each with a first line `store SLOTS ANCHORS PASSES TAKEN`: in a new core of so many slots, anchors and passes
/// the first TAKEN slots are taken by 32 writers, and then come the rows below it. Workers A, B and C are tab 0 of the
/// passes 5, 6 and 7. Behind `orders COUNT` stand as many orders of their steps, each of which is played over a core of
/// its own and then the rows behind `end`. Parts of an order are:
///
/// - `A0=F`: A looks at word 0 of the map, which begins a search, and finds it full;
/// - `A1=5`: A, whose search has come to slot 64, looks at word 1, and finds that its bits 0 and 2 are set;
/// - `A65=5`: A, whose search has come to slot 65, tries for it, and finds the word so. It has the slot where its bit
///   is not set in what it finds;
/// - `A:65`: in the end A searches no more, and has this slot and no other;
/// - `A>68`: in the end A has no slot, and its search has passed all 68.
///
/// Orders stand in the order of their text, so that no two are the same. A store fits where the slots that its writers
/// have and one for each worker are together no more than it has.
pub(super) const SEARCHES: &str = "\
store 68 35 7 64
stage two workers, and the slots 65 and 67 are free
# Tab 0 of pass 4 has the slots 64 and 66. A and B begin.
4 0 1 32 0 = 0
4 0 4 0 0 = 32
4 0 5 0 0 = 32
4 0 6 32 33 = 0
4 0 10 64 0 = 0
4 0 10 66 0 = 1
5 0 1 33 0 = 0
5 0 4 0 0 = 33
5 0 5 0 0 = 33
5 0 6 33 34 = 0
6 0 1 34 0 = 0
6 0 4 0 0 = 34
6 0 5 0 0 = 34
6 0 6 34 35 = 0
map [18446744073709551615, 5]
made 14
orders 20
A0=F A1=5 A65=5 B0=F B1=7 B67=7 A:65 B:67
A0=F A1=5 B0=F A65=5 B1=7 B67=7 A:65 B:67
A0=F A1=5 B0=F B1=5 A65=5 B65=7 B67=7 A:65 B:67
A0=F A1=5 B0=F B1=5 B65=5 A65=7 A67=7 A:67 B:65
A0=F B0=F A1=5 A65=5 B1=7 B67=7 A:65 B:67
A0=F B0=F A1=5 B1=5 A65=5 B65=7 B67=7 A:65 B:67
A0=F B0=F A1=5 B1=5 B65=5 A65=7 A67=7 A:67 B:65
A0=F B0=F B1=5 A1=5 A65=5 B65=7 B67=7 A:65 B:67
A0=F B0=F B1=5 A1=5 B65=5 A65=7 A67=7 A:67 B:65
A0=F B0=F B1=5 B65=5 A1=7 A67=7 A:67 B:65
B0=F A0=F A1=5 A65=5 B1=7 B67=7 A:65 B:67
B0=F A0=F A1=5 B1=5 A65=5 B65=7 B67=7 A:65 B:67
B0=F A0=F A1=5 B1=5 B65=5 A65=7 A67=7 A:67 B:65
B0=F A0=F B1=5 A1=5 A65=5 B65=7 B67=7 A:65 B:67
B0=F A0=F B1=5 A1=5 B65=5 A65=7 A67=7 A:67 B:65
B0=F A0=F B1=5 B65=5 A1=7 A67=7 A:67 B:65
B0=F B1=5 A0=F A1=5 A65=5 B65=7 B67=7 A:65 B:67
B0=F B1=5 A0=F A1=5 B65=5 A65=7 A67=7 A:67 B:65
B0=F B1=5 A0=F B65=5 A1=7 A67=7 A:67 B:65
B0=F B1=5 B65=5 A0=F A1=7 A67=7 A:67 B:65
end
map [18446744073709551615, 15]
made 0

store 70 37 8 64
stage three workers, and the slots 65, 67 and 69 are free
# Tab 0 of pass 4 has the slots 64 and 66, and its tab 1 has slot 68. A, B and C begin.
4 0 1 32 0 = 0
4 0 4 0 0 = 32
4 0 5 0 0 = 32
4 0 6 32 33 = 0
4 0 10 64 0 = 0
4 0 10 66 0 = 1
4 1 1 33 0 = 0
4 1 4 0 0 = 33
4 1 5 0 0 = 33
4 1 6 33 34 = 0
4 1 10 68 0 = 5
5 0 1 34 0 = 0
5 0 4 0 0 = 34
5 0 5 0 0 = 34
5 0 6 34 35 = 0
6 0 1 35 0 = 0
6 0 4 0 0 = 35
6 0 5 0 0 = 35
6 0 6 35 36 = 0
7 0 1 36 0 = 0
7 0 4 0 0 = 36
7 0 5 0 0 = 36
7 0 6 36 37 = 0
map [18446744073709551615, 21]
made 23
orders 5
A0=F A1=21 A65=21 B0=F B1=23 B67=23 C0=F C1=31 C69=31 A:65 B:67 C:69
A0=F B0=F C0=F A1=21 B1=21 C1=21 A65=21 B65=23 C65=23 B67=23 C67=31 C69=31 A:65 B:67 C:69
A0=F B0=F C0=F C1=21 B1=21 C65=21 A1=23 B65=23 A67=23 B67=31 B69=31 A:67 B:69 C:65
B0=F B1=21 A0=F A1=21 A65=21 C0=F C1=23 C67=23 B65=31 B69=31 A:65 B:69 C:67
C0=F B0=F A0=F A1=21 A65=21 B1=23 C1=23 C67=23 B67=31 B69=31 A:65 B:69 C:67
end
map [18446744073709551615, 63]
made 0

store 68 36 8 64
stage three workers, and the slots 65 and 67 alone are free
# This store does not fit: one worker finds all slots taken.
4 0 1 32 0 = 0
4 0 4 0 0 = 32
4 0 5 0 0 = 32
4 0 6 32 33 = 0
4 0 10 64 0 = 0
4 0 10 66 0 = 1
5 0 1 33 0 = 0
5 0 4 0 0 = 33
5 0 5 0 0 = 33
5 0 6 33 34 = 0
6 0 1 34 0 = 0
6 0 4 0 0 = 34
6 0 5 0 0 = 34
6 0 6 34 35 = 0
7 0 1 35 0 = 0
7 0 4 0 0 = 35
7 0 5 0 0 = 35
7 0 6 35 36 = 0
map [18446744073709551615, 5]
made 18
orders 3
A0=F A1=5 A65=5 B0=F B1=7 B67=7 C0=F C1=15 A:65 B:67 C>68
A0=F B0=F C0=F A1=5 B1=5 C1=5 A65=5 B65=7 C65=7 C67=7 B67=15 A:65 B>68 C:67
C0=F C1=5 A0=F A1=5 A65=5 B0=F B1=7 B67=7 C65=15 A:65 B:67 C>68
end
map [18446744073709551615, 15]
made 0

store 64 33 6 63
stage slot 63 of 64 is free
5 0 1 32 0 = 0
5 0 4 0 0 = 32
5 0 5 0 0 = 32
5 0 6 32 33 = 0
map [9223372036854775807]
made 4
orders 1
A0=9223372036854775807 A63=9223372036854775807 A:63
end
map [18446744073709551615]
made 0

store 65 33 6 64
stage slot 64 of 65 is free
5 0 1 32 0 = 0
5 0 4 0 0 = 32
5 0 5 0 0 = 32
5 0 6 32 33 = 0
map [18446744073709551615, 0]
made 4
orders 1
A0=F A1=0 A64=0 A:64
end
map [18446744073709551615, 1]
made 0

store 65 34 6 63
stage slot 63 of 65 is free
4 0 1 32 0 = 0
4 0 4 0 0 = 32
4 0 5 0 0 = 32
4 0 6 32 33 = 0
4 0 10 64 0 = 0
5 0 1 33 0 = 0
5 0 4 0 0 = 33
5 0 5 0 0 = 33
5 0 6 33 34 = 0
map [9223372036854775807, 1]
made 9
orders 1
A0=9223372036854775807 A63=9223372036854775807 A:63
end
map [18446744073709551615, 1]
made 0
";
