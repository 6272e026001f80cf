// What each request is answered, and what it leaves in the file.
use super::story::plays;
use std::test::Fail;

#[test]
fn a_response_is_stored_and_got(rt: HostRuntime) -> Result<(), Fail> {
    plays(
        &rt,
        rt.alloc(),
        "\
# A body that fills one slot, and one of a byte more.
volume

create db 512 4

run db 512 1 1
1 put http://a/b #430:0 -> STORED 1

list db 512
> ENTRY 0 1 1 430 http://a/b

volume

create db 512 4

run db 512 1 1
1 put http://a/b #431:0 -> STORED 1

list db 512
> ENTRY 0 1 2 431 http://a/b

volume

create db 512 4

run db 512 1 1
1 put http://a/b - -> STORED 1
1 get http://a/b -> HIT 1 0 -

list db 512
> ENTRY 0 1 1 0 http://a/b

volume

create db 512 4

run db 512 1 1
1 get http://a/b -> MISS absent 0.0

list db 512

volume

create db 512 4

run db 512 1 1
1 put http://a/b =hello -> STORED 1
1 get http://a/b -> HIT 1 5 68656c6c6f

list db 512
> ENTRY 0 1 1 5 http://a/b

# Two URLs of one anchor.
volume

create db 512 4

run db 512 1 1
1 put http://a/b =x -> STORED 1
1 put http://a/c =y -> STORED 2
1 get http://a/b -> MISS other 2.3 KEY(http://a/c)
1 get http://a/c -> HIT 2 1 79
1 purge http://a/b -> NONE other 2.3 KEY(http://a/c)

list db 512
> ENTRY 0 2 1 1 http://a/c

# A URL that leaves no room in a slot, and the longest that does.
volume

create db 512 4

run db 512 1 1
1 put URL(441) =x -> LONGURL
1 put URL(440) =x -> STORED 1
1 get URL(440) -> HIT 1 1 78
1 add 0 5 -> TAB
1 await 5 -> UNMET

list db 512
> ENTRY 0 1 2 1 URL(440)
",
    )
}

#[test]
fn a_follower_is_given_what_is_there(rt: HostRuntime) -> Result<(), Fail> {
    plays(
        &rt,
        rt.alloc(),
        "\
volume

create db 512 8

run db 512 1 1
1 begin 0 http://a/b #1300:0 -> BEGUN 1
1 open 1 http://a/b -> MISS writing 1.1
1 add 0 900 -> ADDED 900
1 open 1 http://a/b -> OPEN 1
1 more 1 -> PART 1.2 430 MADE(0,430)
1 more 1 -> PART 1.2 0 -
1 end 0 -> STORED 1
1 more 1 -> END 870 MADE(430,870)
1 more 1 -> END 0 -
1 close 1 -> CLOSED

list db 512
> ENTRY 0 1 3 1300 http://a/b

# The writer gives up. Its first slot stays in the file, and is no entry.
volume

create db 512 8

run db 512 1 1
1 begin 0 http://a/b #1300:0 -> BEGUN 1
1 add 0 900 -> ADDED 900
1 open 1 http://a/b -> OPEN 1
1 drop 0 -> DROPPED
1 more 1 -> HALTED 430 MADE(0,430)
1 get http://a/b -> MISS leaving 1.4
1 close 1 -> CLOSED
1 get http://a/b -> MISS absent 1.6

check db 512 1
> slots=8 kept=0 used=0 free=8 version=1
",
    )
}

#[test]
fn a_purged_entry_is_kept_for_its_readers(rt: HostRuntime) -> Result<(), Fail> {
    plays(
        &rt,
        rt.alloc(),
        "\
volume

create db 512 4

run db 512 1 1
1 put http://a/b =x -> STORED 1
1 open 0 http://a/b -> OPEN 1
1 put http://a/b =y -> BUSY 1.3/1 1.3/1
1 close 0 -> CLOSED
1 put http://a/b =y -> STORED 2

list db 512
> ENTRY 0 2 1 1 http://a/b

# A purge takes an entry out of the store, and not out of the file.
volume

create db 512 4

run db 512 1 1
1 put http://a/b =x -> STORED 1
1 open 0 http://a/b -> OPEN 1
1 purge http://a/b -> PURGED 1.3d
1 get http://a/b -> MISS leaving 1.3d
1 more 0 -> END 1 78
1 close 0 -> CLOSED
1 get http://a/b -> MISS absent 1.6d
1 purge http://a/b -> NONE absent 1.6d

list db 512
> ENTRY 0 1 1 1 http://a/b

volume

create db 512 4

run db 512 1 1
1 begin 0 http://a/b #900:0 -> BEGUN 1
1 add 0 900 -> ADDED 900
1 purge http://a/b -> PURGED 1.2d
1 end 0 -> DOOMED 1
1 get http://a/b -> MISS absent 1.6d

list db 512
> ENTRY 0 1 2 900 http://a/b
",
    )
}

#[test]
fn a_full_store_gives_its_slots_back(rt: HostRuntime) -> Result<(), Fail> {
    plays(
        &rt,
        rt.alloc(),
        "\
volume

create db 512 2

run db 512 1 1
1 put http://a/b #902:0 -> STORED 1
1 put http://a/b #903:0 -> LARGE
1 get http://a/b -> MISS absent 2.6

check db 512 1
> slots=2 kept=0 used=0 free=2 version=2

# An entry that is read does not give way,
volume

create db 512 3

run db 512 2 1
1 put u0 #901:0 -> STORED 1
1 open 0 u0 -> OPEN 1
1 put u1 #901:0 -> FULL
1 get u1 -> MISS absent 2.6
1 put u1 =x -> STORED 3
1 get u1 -> HIT 3 1 78

list db 512
> ENTRY 0 1 2 901 u0
> ENTRY 2 3 1 1 u1

# and one that is not does.
volume

create db 512 2

run db 512 2 1
1 put u0 #901:0 -> STORED 1
1 put u1 =x -> STORED 2
1 get u0 -> MISS absent 1.6

list db 512
> ENTRY 0 2 1 1 u1
",
    )
}
