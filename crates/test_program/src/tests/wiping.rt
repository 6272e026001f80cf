// Entries that are wiped: what is answered, and what a later command and a crash find of them.
use super::story::plays;
use std::test::Fail;

/// What was wiped is gone from the file; what was purged, or wiped while it was read, is not.
#[test]
fn what_was_wiped_is_gone(rt: HostRuntime) -> Result<(), Fail> {
    plays(
        &rt,
        rt.alloc(),
        "\
volume

create db 512 4

run db 512 1 1
1 save http://a/b =x -> STORED 1
1 wipe http://a/b -> WIPED 1.3d
1 get http://a/b -> MISS absent 1.6d

images db 1

list db 512

volume

create db 512 4

run db 512 1 1
1 save http://a/b =x -> STORED 1
1 purge http://a/b -> PURGED 1.3d
1 get http://a/b -> MISS absent 1.6d

list db 512
> ENTRY 0 1 1 1 http://a/b

volume

create db 512 4

run db 512 1 1
1 put http://a/b =x -> STORED 1
1 open 0 http://a/b -> OPEN 1
1 wipe http://a/b -> LATER 1.3d
1 close 0 -> CLOSED

list db 512
> ENTRY 0 1 1 1 http://a/b

# An entry of four slots loses its first one.
volume

create db 512 4

run db 512 1 1
1 save http://a/b #1500:0 -> STORED 1
1 wipe http://a/b -> WIPED 1.3d

images db 1

list db 512

# So does one that the file had.
volume

create db 512 4

run db 512 1 1
1 save http://a/b =x -> STORED 1

run db 512 1 1
1 wipe http://a/b -> WIPED 1.3d
1 get http://a/b -> MISS absent 1.6d

images db 1

list db 512
",
    )
}

/// A wipe erases one entry. An older one, which that had taken the place of, comes up again.
#[test]
fn what_was_replaced_is_not_wiped(rt: HostRuntime) -> Result<(), Fail> {
    plays(
        &rt,
        rt.alloc(),
        "\
volume

create db 512 4

run db 512 2 1
1 save http://a/00 =x -> STORED 1
1 save http://a/02 =y -> STORED 2
1 purge http://a/00 -> PURGED 1.3d
1 save http://a/02 =z -> STORED 3
1 wipe http://a/02 -> WIPED 3.3d
1 get http://a/02 -> MISS absent 3.6d

images db 1
all ENTRY 1 2 1 1 http://a/02

run db 512 2 1
1 get http://a/02 -> HIT 2 1 79
",
    )
}

/// What others used while it was wiped is still in the file, and a later run wipes it.
#[test]
fn a_later_run_wipes_what_was_left(rt: HostRuntime) -> Result<(), Fail> {
    plays(
        &rt,
        rt.alloc(),
        "\
volume

create db 512 4

run db 512 1 1
1 save http://a/b =x -> STORED 1
1 open 0 http://a/b -> OPEN 1
1 wipe http://a/b -> LATER 1.3d
1 more 0 -> END 1 78
1 close 0 -> CLOSED

images db 1
all ENTRY 0 1 1 1 http://a/b

run db 512 1 1
1 wipe http://a/b -> WIPED 1.3d

images db 1

list db 512
",
    )
}

/// The third and the fourth call of the worker's station are the write and the sync of the blank slot.
#[test]
fn a_station_fails_while_an_entry_is_wiped(rt: HostRuntime) -> Result<(), Fail> {
    plays(
        &rt,
        rt.alloc(),
        "\
volume stations=//2

create db 512 4

run db 512 1 1
1 save http://a/b =x -> STORED 1
1 wipe http://a/b -> FAULT
1 get http://a/b -> MISS absent 1.6d

possible db 0 2

images db 2
some ENTRY 0 1 1 1 http://a/b

volume stations=//3

create db 512 4

run db 512 1 1
1 save http://a/b =x -> STORED 1
1 wipe http://a/b -> FAULT
1 get http://a/b -> MISS absent 1.6d

possible db 0 2

images db 2
some ENTRY 0 1 1 1 http://a/b
",
    )
}

#[test]
fn what_can_not_be_wiped(rt: HostRuntime) -> Result<(), Fail> {
    plays(
        &rt,
        rt.alloc(),
        "\
volume

create db 512 8

run db 512 1 1
1 wipe http://a/b -> NONE absent 0.0
1 put http://a/c =y -> STORED 1
1 wipe http://a/b -> NONE other 1.3 KEY(http://a/c)
1 begin 0 http://a/b #1300:0 -> BEGUN 2
1 wipe http://a/b -> NONE writing 2.1
1 add 0 900 -> ADDED 900
1 open 1 http://a/b -> OPEN 2
1 drop 0 -> DROPPED
1 wipe http://a/b -> NONE leaving 2.4
1 close 1 -> CLOSED
1 wipe http://a/b -> NONE absent 2.6
1 begin 0 http://a/b #900:0 -> BEGUN 3
1 add 0 900 -> ADDED 900
1 wipe http://a/b -> LATER 3.2d
1 end 0 -> DOOMED 3

# The other worker has it open.
volume

create db 512 4

run db 512 1 2
1 save http://a/b =x -> STORED 1
1 open 0 http://a/b -> OPEN 1
1 mark 0 -> MARKED
2 await 0 -> MET
2 wipe http://a/b -> LATER 1.3d
2 wipe http://a/b -> NONE leaving 1.3d
2 mark 1 -> MARKED
1 await 1 -> MET
1 wipe http://a/b -> NONE leaving 1.3d
1 close 0 -> CLOSED
1 save http://a/b =y -> STORED 2
1 wipe http://a/b -> WIPED 2.3d
",
    )
}
