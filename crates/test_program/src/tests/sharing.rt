// Several workers.
use super::story::plays;
use std::test::Fail;

#[test]
fn workers_meet_at_marks(rt: HostRuntime) -> Result<(), Fail> {
    plays(
        &rt,
        rt.alloc(),
        "\
volume

create db 512 4

run db 512 1 2
1 mark 0 -> MARKED
2 mark 1 -> MARKED
1 await 1 -> MET
2 await 0 -> MET

has db 4

# The mark is set by a later line.
volume

create db 512 4

run db 512 1 2
1 await 0 -> UNMET
2 mark 0 -> MARKED

has db 4
",
    )
}

/// A response of 120,000 bytes takes 8 slots, of which two workers are given the first three while it is written.
#[test]
fn two_workers_follow_a_third(rt: HostRuntime) -> Result<(), Fail> {
    plays(
        &rt,
        rt.alloc(),
        "\
volume

create db 16384 64

run db 16384 16 3
1 begin 0 URL(200) #120000:0 -> BEGUN 1
1 add 0 60000 -> ADDED 60000
1 mark 0 -> MARKED
2 await 0 -> MET
2 open 0 URL(200) -> OPEN 1
2 more 0 -> PART 1.2 48800 MADE(0,48800)
2 mark 1 -> MARKED
3 await 0 -> MET
3 open 0 URL(200) -> OPEN 1
3 more 0 -> PART 1.2 48800 MADE(0,48800)
3 mark 2 -> MARKED
1 await 1 -> MET
1 await 2 -> MET
1 end 0 -> STORED 1
1 mark 3 -> MARKED
2 await 3 -> MET
2 more 0 -> END 71200 MADE(48800,71200)
2 close 0 -> CLOSED
3 await 3 -> MET
3 more 0 -> END 71200 MADE(48800,71200)
3 close 0 -> CLOSED

has db 64
",
    )
}

/// There are slots for one of two entries, and the one that nobody reads gives way.
#[test]
fn an_entry_of_another_worker_gives_way(rt: HostRuntime) -> Result<(), Fail> {
    plays(
        &rt,
        rt.alloc(),
        "\
volume

create db 512 3

run db 512 2 2
1 put u0 #901:0 -> STORED 1
1 mark 0 -> MARKED
2 await 0 -> MET
2 get u0 -> HIT 1 901 MADE(0,901)
2 put u1 #901:0 -> STORED 2
2 get u1 -> HIT 2 901 MADE(0,901)
2 get u0 -> MISS absent 1.6

has db 3
",
    )
}

/// Three anchors come to need two slots, two and one, and the file has five. A URL that is too long needs none. Nothing is lost,
/// and no line is FULL, although an entry is replaced while all slots are taken. One line more, which needs two slots where one
/// was needed, costs another entry.
#[test]
fn a_script_that_fits_loses_nothing(rt: HostRuntime) -> Result<(), Fail> {
    plays(
        &rt,
        rt.alloc(),
        "\
volume

create db 512 5

run db 512 3 3
1 put u0 #901:0 -> STORED 1
1 put URL(441) #2000:0 -> LONGURL
1 mark 0 -> MARKED
2 await 0 -> MET
2 begin 0 u1 #901:0 -> BEGUN 2
2 add 0 900 -> ADDED 900
2 mark 1 -> MARKED
3 await 1 -> MET
3 open 0 u1 -> OPEN 2
3 put u2 =x -> STORED 3
3 mark 2 -> MARKED
1 await 2 -> MET
1 put u0 #901:5 -> STORED 4
1 mark 3 -> MARKED
2 await 3 -> MET
2 drop 0 -> DROPPED
2 put u1 =y -> BUSY 2.4/1 2.4/1
2 mark 4 -> MARKED
3 await 4 -> MET
3 more 0 -> HALTED 429 MADE(0,429)
3 close 0 -> CLOSED
3 mark 5 -> MARKED
2 await 5 -> MET
2 put u1 #901:7 -> STORED 5
2 mark 6 -> MARKED
1 await 6 -> MET
1 get u0 -> HIT 4 901 MADE(5,901)
1 get u1 -> HIT 5 901 MADE(7,901)
1 get u2 -> HIT 3 1 78

list db 512
> ENTRY 0 4 2 901 u0
> ENTRY 2 5 2 901 u1
> ENTRY 4 3 1 1 u2

# The same lines with one more.
volume

create db 512 5

run db 512 3 3
1 put u0 #901:0 -> STORED 1
1 put URL(441) #2000:0 -> LONGURL
1 mark 0 -> MARKED
2 await 0 -> MET
2 begin 0 u1 #901:0 -> BEGUN 2
2 add 0 900 -> ADDED 900
2 mark 1 -> MARKED
3 await 1 -> MET
3 open 0 u1 -> OPEN 2
3 put u2 =x -> STORED 3
3 mark 2 -> MARKED
1 await 2 -> MET
1 put u0 #901:5 -> STORED 4
1 mark 3 -> MARKED
2 await 3 -> MET
2 drop 0 -> DROPPED
2 put u1 =y -> BUSY 2.4/1 2.4/1
2 mark 4 -> MARKED
3 await 4 -> MET
3 more 0 -> HALTED 429 MADE(0,429)
3 close 0 -> CLOSED
3 mark 5 -> MARKED
2 await 5 -> MET
2 put u1 #901:7 -> STORED 5
2 mark 6 -> MARKED
1 await 6 -> MET
1 put u2 #473:0 -> STORED 6
1 get u0 -> MISS absent 4.6
1 get u1 -> HIT 5 901 MADE(7,901)
1 get u2 -> HIT 6 473 MADE(0,473)

list db 512
> ENTRY 2 5 2 901 u1
> ENTRY 4 6 2 473 u2
",
    )
}

/// The same lines need five slots. With four of them one line is FULL, and a later one costs an entry.
#[test]
fn a_script_that_misses_by_one_slot_is_full(rt: HostRuntime) -> Result<(), Fail> {
    plays(
        &rt,
        rt.alloc(),
        "\
volume

create db 512 5

run db 512 3 3
1 put u0 #901:0 -> STORED 1
1 open 0 u0 -> OPEN 1
1 mark 0 -> MARKED
2 await 0 -> MET
2 begin 0 u1 #901:0 -> BEGUN 2
2 add 0 900 -> ADDED 900
2 mark 1 -> MARKED
3 await 1 -> MET
3 put u2 =x -> STORED 3
3 mark 2 -> MARKED
1 await 2 -> MET
1 more 0 -> END 901 MADE(0,901)
1 close 0 -> CLOSED
1 mark 3 -> MARKED
2 await 3 -> MET
2 end 0 -> STORED 2
2 mark 4 -> MARKED
3 await 4 -> MET
3 put u2 =y -> STORED 4
3 get u0 -> HIT 1 901 MADE(0,901)
3 get u1 -> HIT 2 901 MADE(0,901)
3 get u2 -> HIT 4 1 79

list db 512
> ENTRY 0 1 2 901 u0
> ENTRY 2 2 2 901 u1
> ENTRY 4 4 1 1 u2

volume

create db 512 4

run db 512 3 3
1 put u0 #901:0 -> STORED 1
1 open 0 u0 -> OPEN 1
1 mark 0 -> MARKED
2 await 0 -> MET
2 begin 0 u1 #901:0 -> BEGUN 2
2 add 0 900 -> ADDED 900
2 mark 1 -> MARKED
3 await 1 -> MET
3 put u2 =x -> FULL
3 mark 2 -> MARKED
1 await 2 -> MET
1 more 0 -> END 901 MADE(0,901)
1 close 0 -> CLOSED
1 mark 3 -> MARKED
2 await 3 -> MET
2 end 0 -> STORED 2
2 mark 4 -> MARKED
3 await 4 -> MET
3 put u2 =y -> STORED 4
3 get u0 -> MISS absent 1.6
3 get u1 -> HIT 2 901 MADE(0,901)
3 get u2 -> HIT 4 1 79

list db 512
> ENTRY 0 4 1 1 u2
> ENTRY 2 2 2 901 u1
",
    )
}

/// What the file has counts, also where a line needs less there: two slots and one are three. The last run needs one slot more.
#[test]
fn entries_of_the_file_take_slots_too(rt: HostRuntime) -> Result<(), Fail> {
    plays(
        &rt,
        rt.alloc(),
        "\
volume

create db 512 3

run db 512 2 1
1 put u0 #901:0 -> STORED 1

run db 512 2 2
1 get u0 -> HIT 1 901 MADE(0,901)
1 mark 0 -> MARKED
2 await 0 -> MET
2 put u1 =x -> STORED 2
2 get u0 -> HIT 1 901 MADE(0,901)
2 mark 1 -> MARKED
1 await 1 -> MET
1 get u1 -> HIT 2 1 78

list db 512
> ENTRY 0 1 2 901 u0
> ENTRY 2 2 1 1 u1

run db 512 2 2
1 get u0 -> HIT 1 901 MADE(0,901)
1 mark 0 -> MARKED
2 await 0 -> MET
2 put u1 #901:0 -> STORED 3
2 get u0 -> MISS absent 1.6
2 mark 1 -> MARKED
1 await 1 -> MET
1 get u1 -> HIT 3 901 MADE(0,901)

list db 512
> ENTRY 2 3 2 901 u1
",
    )
}

/// There are 1 to 32 workers. A script is judged by their number before that is judged itself.
#[test]
fn more_than_32_workers_are_refused(rt: HostRuntime) -> Result<(), Fail> {
    plays(
        &rt,
        rt.alloc(),
        "\
volume

create db 512 4

run db 512 1 0
= BadGeometry { field: 3 } 8

run db 512 1 0
<| 0 get -
= BadScript { line: 1, cause: 3 } 7

volume

create db 512 4

run db 512 1 1

run db 512 1 1
<| 1 get -
> 1 1 MISS absent 0.0

volume

create db 512 4

run db 512 1 32

run db 512 1 32
<| 32 get -
> 32 1 MISS absent 0.0

volume

create db 512 4

run db 512 1 33
= BadGeometry { field: 3 } 8

run db 512 1 33
<| 33 get -
= BadGeometry { field: 3 } 8
",
    )
}

/// A response is stored, and got by another worker, which waits at a mark. A third one does nothing.
#[test]
fn workers_share_a_file(rt: HostRuntime) -> Result<(), Fail> {
    plays(
        &rt,
        rt.alloc(),
        "\
volume
zeros 2048

run db 512 1 3
1 put http://a/b =hello -> STORED 1
1 mark 0 -> MARKED
2 await 0 -> MET
2 get http://a/b -> HIT 1 5 68656c6c6f
2 await 5 -> UNMET

has db 4

# The body stands behind 40 bytes of header and 42 of metadata.
bytes db 0 82 68656c6c6f

# The first worker has no line.
volume
zeros 2048

run db 512 4 2
2 get - -> MISS absent 0.0
",
    )
}
