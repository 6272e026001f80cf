// What a crash may leave of the file that a run gave back.
use super::story::plays;
use std::test::Fail;

/// Of two responses of two slots each the first one is saved. Two writes and two syncs are made for each. From a call for the
/// second one on, each call of the worker's station fails.
#[test]
fn what_was_saved_outlives_a_station_that_fails(rt: HostRuntime) -> Result<(), Fail> {
    plays(
        &rt,
        rt.alloc(),
        "\
# The write of its first slot fails, so a crash may have left it or not.
volume stations=//4,5,6,7,8,9

create db 512 4

run db 512 2 1
1 save u0 #901:0 -> STORED 1
1 save u1 #901:0 -> FAULT

possible db 0 1

possible db 1 1

possible db 2 2

possible db 3 1

images db 2
all ENTRY 0 1 2 901 u0

list db 512
> ENTRY 0 1 2 901 http://a/02

# The sync of its first slot fails.
volume stations=//5,6,7,8,9

create db 512 4

run db 512 2 1
1 save u0 #901:0 -> STORED 1
1 save u1 #901:0 -> FAULT

possible db 0 1

possible db 1 1

possible db 2 2

possible db 3 1

images db 2
all ENTRY 0 1 2 901 u0

list db 512
> ENTRY 0 1 2 901 http://a/02

# The write of its last slot fails. It is a whole entry where that slot is new.
volume stations=//6,7,8,9

create db 512 4

run db 512 2 1
1 save u0 #901:0 -> STORED 1
1 save u1 #901:0 -> FAULT

possible db 0 1

possible db 1 1

possible db 2 1

possible db 3 2

images db 2
all ENTRY 0 1 2 901 u0
some ENTRY 2 2 2 901 u1

list db 512
> ENTRY 0 1 2 901 http://a/02

# The sync of its last slot fails.
volume stations=//7,8,9

create db 512 4

run db 512 2 1
1 save u0 #901:0 -> STORED 1
1 save u1 #901:0 -> FAULT

possible db 0 1

possible db 1 1

possible db 2 1

possible db 3 2

images db 2
all ENTRY 0 1 2 901 u0
some ENTRY 2 2 2 901 u1

list db 512
> ENTRY 0 1 2 901 http://a/02
> ENTRY 2 2 2 901 http://a/00

# No call fails.
volume stations=//8,9

create db 512 4

run db 512 2 1
1 save u0 #901:0 -> STORED 1
1 save u1 #901:0 -> STORED 2

images db 1
all ENTRY 0 1 2 901 u0
all ENTRY 2 2 2 901 u1
",
    )
}

/// A response of three slots is saved in place of another one under its URL. Three writes and three syncs are made for it, and each of
/// them fails in turn. A crash leaves the old one, the new one, or none.
#[test]
fn what_is_saved_in_place_of_another_is_whole(rt: HostRuntime) -> Result<(), Fail> {
    plays(
        &rt,
        rt.alloc(),
        "\
# The write of its first slot fails, in which the old one stands,
volume stations=//2

create db 512 4

run db 512 2 1
1 save http://a/b =old -> STORED 1
1 save http://a/b #1300:0 -> FAULT

images db 2
some ENTRY 0 1 1 3 http://a/b

list db 512
> ENTRY 0 1 1 3 http://a/b

# or the sync of it.
volume stations=//3

create db 512 4

run db 512 2 1
1 save http://a/b =old -> STORED 1
1 save http://a/b #1300:0 -> FAULT

images db 2
some ENTRY 0 1 1 3 http://a/b

list db 512

# The write of its second slot fails,
volume stations=//4

create db 512 4

run db 512 2 1
1 save http://a/b =old -> STORED 1
1 save http://a/b #1300:0 -> FAULT

images db 2

list db 512

# or the sync of it.
volume stations=//5

create db 512 4

run db 512 2 1
1 save http://a/b =old -> STORED 1
1 save http://a/b #1300:0 -> FAULT

images db 2

list db 512

# The write of its last slot fails,
volume stations=//6

create db 512 4

run db 512 2 1
1 save http://a/b =old -> STORED 1
1 save http://a/b #1300:0 -> FAULT

images db 2
some ENTRY 0 2 3 1300 http://a/b

list db 512

# or the sync of it. It was given up and is whole where that slot is new: the next run has its body.
volume stations=//7

create db 512 4

run db 512 2 1
1 save http://a/b =old -> STORED 1
1 save http://a/b #1300:0 -> FAULT

images db 2
some ENTRY 0 2 3 1300 http://a/b

list db 512
> ENTRY 0 2 3 1300 http://a/b

run db 512 2 1
1 get http://a/b -> HIT 2 1300 MADE(0,1300)

# No call fails.
volume stations=//8

create db 512 4

run db 512 2 1
1 save http://a/b =old -> STORED 1
1 save http://a/b #1300:0 -> STORED 2

images db 1
all ENTRY 0 2 3 1300 http://a/b

list db 512
> ENTRY 0 2 3 1300 http://a/b
",
    )
}

/// Nothing says that what was put outlives a crash.
#[test]
fn what_was_put_may_be_gone(rt: HostRuntime) -> Result<(), Fail> {
    plays(
        &rt,
        rt.alloc(),
        "\
volume

create db 512 1

run db 512 1 1
1 put http://a/b =x -> STORED 1

possible db 0 2

images db 2
some ENTRY 0 1 1 1 http://a/b
",
    )
}

/// What was saved is written over what was put before it, and synced there.
#[test]
fn what_was_saved_stands_in_place_of_what_was_put(rt: HostRuntime) -> Result<(), Fail> {
    plays(
        &rt,
        rt.alloc(),
        "\
volume

create db 512 2

run db 512 1 1
1 put http://a/b =x -> STORED 1
1 save http://a/b =y -> STORED 2

possible db 0 1

possible db 1 1

bytes db 0 82 79

images db 1
all ENTRY 0 2 1 1 http://a/b
",
    )
}

/// A purge erases nothing, so what was saved before it is found again.
#[test]
fn what_was_purged_is_found_again(rt: HostRuntime) -> Result<(), Fail> {
    plays(
        &rt,
        rt.alloc(),
        "\
volume

create db 512 2

run db 512 1 1
1 save http://a/b =x -> STORED 1
1 purge http://a/b -> PURGED 1.3d

images db 1
all ENTRY 0 1 1 1 http://a/b
",
    )
}

/// An entry of two slots gives way, and the other one is saved in one of them.
#[test]
fn what_was_saved_outlives_what_gave_way(rt: HostRuntime) -> Result<(), Fail> {
    plays(
        &rt,
        rt.alloc(),
        "\
volume

create db 512 2

run db 512 2 1
1 save u0 #901:0 -> STORED 1
1 save u1 =x -> STORED 2

images db 1
all ENTRY 0 2 1 1 u1
",
    )
}

/// One slot of a response was written when it was given up. No crash leaves an entry.
#[test]
fn what_was_given_up_is_not_found(rt: HostRuntime) -> Result<(), Fail> {
    plays(
        &rt,
        rt.alloc(),
        "\
volume

create db 512 4

run db 512 1 1
1 begin 0 http://a/b #1300:0 -> BEGUN 1
1 add 0 900 -> ADDED 900
1 drop 0 -> DROPPED

possible db 0 2

images db 2
",
    )
}
