// What becomes of a run in which a call of the disk, of the source or of the sink fails.
use super::story::{plays, plays_each};
use std::test::Fail;

/// Two writes, two reads, a write, a sync and a read. Each of them fails in turn.
#[test]
fn a_fault_of_a_station_is_a_line(rt: HostRuntime) -> Result<(), Fail> {
    plays(
        &rt,
        rt.alloc(),
        "\
volume stations=//0

create db 512 4

run db 512 2 1
1 put http://a/b #431:0 -> FAULT
1 get http://a/b -> MISS absent 1.6
1 save http://a/b =y -> STORED 2
1 get http://a/b -> HIT 2 1 79

list db 512
> ENTRY 0 2 1 1 http://a/b

volume stations=//1

create db 512 4

run db 512 2 1
1 put http://a/b #431:0 -> FAULT
1 get http://a/b -> MISS absent 1.6
1 save http://a/b =y -> STORED 2
1 get http://a/b -> HIT 2 1 79

list db 512
> ENTRY 0 2 1 1 http://a/b

volume stations=//2

create db 512 4

run db 512 2 1
1 put http://a/b #431:0 -> STORED 1
1 get http://a/b -> FAULT 0 -
1 save http://a/b =y -> STORED 2
1 get http://a/b -> HIT 2 1 79

list db 512
> ENTRY 0 2 1 1 http://a/b

volume stations=//3

create db 512 4

run db 512 2 1
1 put http://a/b #431:0 -> STORED 1
1 get http://a/b -> FAULT 430 MADE(0,430)
1 save http://a/b =y -> STORED 2
1 get http://a/b -> HIT 2 1 79

list db 512
> ENTRY 0 2 1 1 http://a/b

# The write fails, so that the file has what it had,
volume stations=//4

create db 512 4

run db 512 2 1
1 put http://a/b #431:0 -> STORED 1
1 get http://a/b -> HIT 1 431 MADE(0,431)
1 save http://a/b =y -> FAULT
1 get http://a/b -> MISS absent 2.6

list db 512
> ENTRY 0 1 2 431 http://a/b

# or the sync, so that it is not known what a crash leaves.
volume stations=//5

create db 512 4

run db 512 2 1
1 put http://a/b #431:0 -> STORED 1
1 get http://a/b -> HIT 1 431 MADE(0,431)
1 save http://a/b =y -> FAULT
1 get http://a/b -> MISS absent 2.6

list db 512
> ENTRY 0 2 1 1 http://a/b

volume stations=//6

create db 512 4

run db 512 2 1
1 put http://a/b #431:0 -> STORED 1
1 get http://a/b -> HIT 1 431 MADE(0,431)
1 save http://a/b =y -> STORED 2
1 get http://a/b -> FAULT 0 -

list db 512
> ENTRY 0 2 1 1 http://a/b

# There are no more calls.
volume stations=//7

create db 512 4

run db 512 2 1
1 put http://a/b #431:0 -> STORED 1
1 get http://a/b -> HIT 1 431 MADE(0,431)
1 save http://a/b =y -> STORED 2
1 get http://a/b -> HIT 2 1 79

list db 512
> ENTRY 0 2 1 1 http://a/b
",
    )
}

/// A read that fails is told, and the next one is not.
#[test]
fn a_read_is_made_again(rt: HostRuntime) -> Result<(), Fail> {
    plays(
        &rt,
        rt.alloc(),
        "\
volume stations=//1

create db 512 4

run db 512 2 1
1 put http://a/b =x -> STORED 1
1 get http://a/b -> FAULT 0 -
1 get http://a/b -> HIT 1 1 78

list db 512
> ENTRY 0 1 1 1 http://a/b
",
    )
}

/// A write, a read, two writes and two reads of a script in which a reader follows a writer. Each of them fails in turn.
#[test]
fn a_follower_meets_faults(rt: HostRuntime) -> Result<(), Fail> {
    plays(
        &rt,
        rt.alloc(),
        "\
volume stations=//0

create db 512 8

run db 512 2 1
1 begin 0 http://a/b #1300:0 -> BEGUN 1
1 open 1 http://a/b -> MISS writing 1.1
1 add 0 900 -> FAULT
1 open 1 http://a/b -> MISS absent 1.6
1 more 1 -> TAB
1 more 1 -> TAB
1 end 0 -> TAB
1 more 1 -> TAB
1 more 1 -> TAB
1 close 1 -> TAB

list db 512

volume stations=//1

create db 512 8

run db 512 2 1
1 begin 0 http://a/b #1300:0 -> BEGUN 1
1 open 1 http://a/b -> MISS writing 1.1
1 add 0 900 -> ADDED 900
1 open 1 http://a/b -> OPEN 1
1 more 1 -> FAULT 0 -
1 more 1 -> PART 1.2 430 MADE(0,430)
1 end 0 -> STORED 1
1 more 1 -> END 870 MADE(430,870)
1 more 1 -> END 0 -
1 close 1 -> CLOSED

list db 512
> ENTRY 0 1 3 1300 http://a/b

volume stations=//2

create db 512 8

run db 512 2 1
1 begin 0 http://a/b #1300:0 -> BEGUN 1
1 open 1 http://a/b -> MISS writing 1.1
1 add 0 900 -> ADDED 900
1 open 1 http://a/b -> OPEN 1
1 more 1 -> PART 1.2 430 MADE(0,430)
1 more 1 -> PART 1.2 0 -
1 end 0 -> FAULT
1 more 1 -> HALTED 0 -
1 more 1 -> HALTED 0 -
1 close 1 -> CLOSED

list db 512

volume stations=//3

create db 512 8

run db 512 2 1
1 begin 0 http://a/b #1300:0 -> BEGUN 1
1 open 1 http://a/b -> MISS writing 1.1
1 add 0 900 -> ADDED 900
1 open 1 http://a/b -> OPEN 1
1 more 1 -> PART 1.2 430 MADE(0,430)
1 more 1 -> PART 1.2 0 -
1 end 0 -> FAULT
1 more 1 -> HALTED 472 MADE(430,472)
1 more 1 -> HALTED 0 -
1 close 1 -> CLOSED

list db 512

volume stations=//4

create db 512 8

run db 512 2 1
1 begin 0 http://a/b #1300:0 -> BEGUN 1
1 open 1 http://a/b -> MISS writing 1.1
1 add 0 900 -> ADDED 900
1 open 1 http://a/b -> OPEN 1
1 more 1 -> PART 1.2 430 MADE(0,430)
1 more 1 -> PART 1.2 0 -
1 end 0 -> STORED 1
1 more 1 -> FAULT 0 -
1 more 1 -> END 870 MADE(430,870)
1 close 1 -> CLOSED

list db 512
> ENTRY 0 1 3 1300 http://a/b

volume stations=//5

create db 512 8

run db 512 2 1
1 begin 0 http://a/b #1300:0 -> BEGUN 1
1 open 1 http://a/b -> MISS writing 1.1
1 add 0 900 -> ADDED 900
1 open 1 http://a/b -> OPEN 1
1 more 1 -> PART 1.2 430 MADE(0,430)
1 more 1 -> PART 1.2 0 -
1 end 0 -> STORED 1
1 more 1 -> FAULT 472 MADE(430,472)
1 more 1 -> END 398 MADE(902,398)
1 close 1 -> CLOSED

list db 512
> ENTRY 0 1 3 1300 http://a/b

volume stations=//6

create db 512 8

run db 512 2 1
1 begin 0 http://a/b #1300:0 -> BEGUN 1
1 open 1 http://a/b -> MISS writing 1.1
1 add 0 900 -> ADDED 900
1 open 1 http://a/b -> OPEN 1
1 more 1 -> PART 1.2 430 MADE(0,430)
1 more 1 -> PART 1.2 0 -
1 end 0 -> STORED 1
1 more 1 -> END 870 MADE(430,870)
1 more 1 -> END 0 -
1 close 1 -> CLOSED

list db 512
> ENTRY 0 1 3 1300 http://a/b
",
    )
}

/// From some call of the second of two responses that are to outlive a crash on, each call of the station fails. The first
/// one is kept, and the second one is in the file where only the last sync was missing.
#[test]
fn what_was_saved_is_kept(rt: HostRuntime) -> Result<(), Fail> {
    plays(
        &rt,
        rt.alloc(),
        "\
volume stations=//4,5,6,7,8,9

create db 512 4

run db 512 2 1
1 save u0 #901:0 -> STORED 1
1 save u1 #901:0 -> FAULT

list db 512
> ENTRY 0 1 2 901 u0

volume stations=//5,6,7,8,9

create db 512 4

run db 512 2 1
1 save u0 #901:0 -> STORED 1
1 save u1 #901:0 -> FAULT

list db 512
> ENTRY 0 1 2 901 u0

volume stations=//6,7,8,9

create db 512 4

run db 512 2 1
1 save u0 #901:0 -> STORED 1
1 save u1 #901:0 -> FAULT

list db 512
> ENTRY 0 1 2 901 u0

volume stations=//7,8,9

create db 512 4

run db 512 2 1
1 save u0 #901:0 -> STORED 1
1 save u1 #901:0 -> FAULT

list db 512
> ENTRY 0 1 2 901 u0
> ENTRY 2 2 2 901 u1
",
    )
}

/// A first part of the answers was printed, and what was stored is in the file.
#[test]
fn a_fault_of_the_sink_leaves_what_was_stored(rt: HostRuntime) -> Result<(), Fail> {
    let alloc = rt.alloc();
    // The answers have 36 bytes.
    plays_each(
        &rt,
        alloc,
        0..36,
        "\
volume
zeros 2048

pipes given=8 taken=8 room=@

run db 512 1 1
< 1 put http://a/b =hello
< 1 get http://a/b
> 1 1 STORED 1
> 1 2 HIT 1 5 68656c6c6f
cut @
= SinkFault 5

pipes room=4096

list db 512
> ENTRY 0 1 1 5 http://a/b
",
    )?;
    plays_each(
        &rt,
        alloc,
        36..37,
        "\
volume
zeros 2048

pipes given=8 taken=8 room=@

run db 512 1 1
< 1 put http://a/b =hello
< 1 get http://a/b
> 1 1 STORED 1
> 1 2 HIT 1 5 68656c6c6f

pipes room=4096

list db 512
> ENTRY 0 1 1 5 http://a/b
",
    )?;
    // The sink takes eight bytes at once, so the answers need five calls.
    plays(
        &rt,
        alloc,
        "\
volume
zeros 2048

pipes given=8 taken=8 room=4096 sink=0

run db 512 1 1
< 1 put http://a/b =hello
< 1 get http://a/b
> 1 1 STORED 1
> 1 2 HIT 1 5 68656c6c6f
cut 0
= SinkFault 5

pipes room=4096

list db 512
> ENTRY 0 1 1 5 http://a/b

volume
zeros 2048

pipes given=8 taken=8 room=4096 sink=1

run db 512 1 1
< 1 put http://a/b =hello
< 1 get http://a/b
> 1 1 STORED 1
> 1 2 HIT 1 5 68656c6c6f
cut 8
= SinkFault 5

pipes room=4096

list db 512
> ENTRY 0 1 1 5 http://a/b

volume
zeros 2048

pipes given=8 taken=8 room=4096 sink=2

run db 512 1 1
< 1 put http://a/b =hello
< 1 get http://a/b
> 1 1 STORED 1
> 1 2 HIT 1 5 68656c6c6f
cut 16
= SinkFault 5

pipes room=4096

list db 512
> ENTRY 0 1 1 5 http://a/b

volume
zeros 2048

pipes given=8 taken=8 room=4096 sink=3

run db 512 1 1
< 1 put http://a/b =hello
< 1 get http://a/b
> 1 1 STORED 1
> 1 2 HIT 1 5 68656c6c6f
cut 24
= SinkFault 5

pipes room=4096

list db 512
> ENTRY 0 1 1 5 http://a/b

volume
zeros 2048

pipes given=8 taken=8 room=4096 sink=4

run db 512 1 1
< 1 put http://a/b =hello
< 1 get http://a/b
> 1 1 STORED 1
> 1 2 HIT 1 5 68656c6c6f
cut 32
= SinkFault 5

pipes room=4096

list db 512
> ENTRY 0 1 1 5 http://a/b
",
    )?;
    Ok(())
}

/// The first write fails, then the first sync, then neither does: a crash may leave each content that was there or that was
/// written in vain, and behind a sync only the last one.
#[test]
fn a_write_that_fails_keeps_the_old_content_possible(rt: HostRuntime) -> Result<(), Fail> {
    plays(
        &rt,
        rt.alloc(),
        "\
volume stations=//0,2

create db 512 1

run db 512 1 1
1 save http://a/b =x -> FAULT

possible db 0 2

volume stations=//0,2

create db 512 1

run db 512 1 1
1 save http://a/b =x -> FAULT
1 save http://a/b =y -> FAULT

possible db 0 3

volume stations=//0,2

create db 512 1

run db 512 1 1
1 save http://a/b =x -> FAULT
1 save http://a/b =y -> FAULT
1 save http://a/b =z -> STORED 3

possible db 0 1

# What was not synced may be lost.
volume

create db 512 1

run db 512 1 1
1 put http://a/b =x -> STORED 1

possible db 0 2
",
    )
}
