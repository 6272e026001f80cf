// The life of an entry, as one worker with several tabs meets it.
use super::story::plays;
use std::test::Fail;

#[test]
fn responses_are_stored_read_and_purged(rt: HostRuntime) -> Result<(), Fail> {
    plays(
        &rt,
        rt.alloc(),
        "\
volume

create db 512 4

run db 512 1 1
1 get http://a/b -> MISS absent 0.0
1 put http://a/b =hello -> STORED 1
1 get http://a/b -> HIT 1 5 68656c6c6f
1 save http://a/b - -> STORED 2
1 get http://a/b -> HIT 2 0 -
1 put http://a/b #431:0 -> STORED 3
1 put http://a/c =y -> STORED 4
1 get http://a/b -> MISS other 4.3 KEY(http://a/c)
1 purge http://a/b -> NONE other 4.3 KEY(http://a/c)
1 open 0 http://a/c -> OPEN 4
1 put http://a/b =y -> BUSY 4.3/1 4.3/1
1 purge http://a/c -> PURGED 4.3d
1 get http://a/c -> MISS leaving 4.3d
1 more 0 -> END 1 79
1 close 0 -> CLOSED
1 get http://a/c -> MISS absent 4.6d
1 purge http://a/c -> NONE absent 4.6d
",
    )
}

#[test]
fn an_entry_is_followed_ended_dropped_and_doomed(rt: HostRuntime) -> Result<(), Fail> {
    plays(
        &rt,
        rt.alloc(),
        "\
volume

create db 512 4

run db 512 1 1
1 begin 0 http://a/b #1300:0 -> BEGUN 1
1 open 1 http://a/b -> MISS writing 1.1
1 get http://a/b -> MISS writing 1.1
1 purge http://a/b -> NONE writing 1.1
1 add 0 900 -> ADDED 900
1 get http://a/b -> PART 1.2 430 MADE(0,430)
1 open 1 http://a/b -> OPEN 1
1 more 1 -> PART 1.2 430 MADE(0,430)
1 more 1 -> PART 1.2 0 -
1 end 0 -> STORED 1
1 more 1 -> END 870 MADE(430,870)
1 more 1 -> END 0 -
1 close 1 -> CLOSED
1 begin 6 http://a/b #1300:0 -> BEGUN 2
1 add 6 900 -> ADDED 900
1 open 5 http://a/b -> OPEN 2
1 drop 6 -> DROPPED
1 more 5 -> HALTED 430 MADE(0,430)
1 get http://a/b -> MISS leaving 2.4
1 open 4 http://a/b -> MISS leaving 2.4
1 purge http://a/b -> NONE leaving 2.4
1 begin 3 http://a/b =x -> BUSY 2.4/1 2.4/1
1 close 5 -> CLOSED
1 get http://a/b -> MISS absent 2.6
1 begin 0 http://a/b #900:0 -> BEGUN 3
1 add 0 900 -> ADDED 900
1 purge http://a/b -> PURGED 3.2d
1 end 0 -> DOOMED 3
1 get http://a/b -> MISS absent 3.6d
",
    )
}

#[test]
fn tabs_that_are_not_as_needed_and_marks(rt: HostRuntime) -> Result<(), Fail> {
    plays(
        &rt,
        rt.alloc(),
        "\
volume

create db 512 4

run db 512 1 1
1 add 0 5 -> TAB
1 more 0 -> TAB
1 begin 0 http://a/b =xy -> BEGUN 1
1 open 0 http://a/b -> TAB
1 close 0 -> TAB
1 add 0 1 -> ADDED 1
1 add 0 5 -> ADDED 1
1 end 0 -> STORED 1
1 end 0 -> TAB
1 open 0 http://a/b -> OPEN 1
1 drop 0 -> TAB
1 begin 0 http://a/c =z -> TAB
1 await 5 -> UNMET
1 mark 5 -> MARKED
1 await 5 -> MET
1 begin 1 http://a/c =z -> BUSY 1.3/1 1.3/1
",
    )
}

#[test]
fn slots_are_wanting(rt: HostRuntime) -> Result<(), Fail> {
    plays(
        &rt,
        rt.alloc(),
        "\
volume

create db 512 2

run db 512 1 1
1 put http://a/b #902:0 -> STORED 1
1 put http://a/b #903:0 -> LARGE
1 get http://a/b -> MISS absent 2.6
1 begin 0 http://a/b #903:0 -> BEGUN 3
1 add 0 903 -> LARGE
1 begin 0 http://a/b #903:0 -> BEGUN 4
1 end 0 -> LARGE
1 get http://a/b -> MISS absent 4.6

volume

create db 512 2

run db 512 2 1
1 put u0 #901:0 -> STORED 1
1 open 0 u0 -> OPEN 1
1 put u1 #901:0 -> FULL
1 get u1 -> MISS absent 2.6
1 begin 1 u1 #901:0 -> BEGUN 3
1 add 1 901 -> FULL
1 begin 1 u1 #901:0 -> BEGUN 4
1 end 1 -> FULL
1 close 0 -> CLOSED
1 put u1 =x -> STORED 5
1 get u1 -> HIT 5 1 78
1 get u0 -> MISS absent 1.6
",
    )
}

#[test]
fn urls_are_long_and_stations_fail(rt: HostRuntime) -> Result<(), Fail> {
    plays(
        &rt,
        rt.alloc(),
        "\
volume

create db 512 4

run db 512 1 1
1 put URL(441) =x -> LONGURL
1 begin 0 URL(441) =x -> LONGURL
1 put URL(440) =x -> STORED 1
1 get URL(440) -> HIT 1 1 78

# A write and a read of whole requests and of tabs, each once, and a sync.
volume stations=//0,2,4,6,7,9

create db 512 4

run db 512 1 1
1 put http://a/b =x -> FAULT
1 put http://a/b =x -> STORED 2
1 get http://a/b -> FAULT 0 -
1 get http://a/b -> HIT 2 1 78
1 open 0 http://a/b -> OPEN 2
1 more 0 -> FAULT 0 -
1 more 0 -> END 1 78
1 close 0 -> CLOSED
1 begin 1 http://a/b #900:0 -> BEGUN 3
1 add 1 900 -> FAULT
1 begin 1 http://a/b =y -> BEGUN 4
1 end 1 -> FAULT
1 get http://a/b -> MISS absent 4.6
1 save http://a/b =z -> FAULT
1 save http://a/b =z -> STORED 6
1 get http://a/b -> HIT 6 1 7a
",
    )
}

/// An entry that nobody uses is freed at once, so that the next one has all four slots.
#[test]
fn entries_are_purged_while_they_are_read_and_written(rt: HostRuntime) -> Result<(), Fail> {
    plays(
        &rt,
        rt.alloc(),
        "\
volume

create db 512 4

run db 512 1 1
1 purge http://a/b -> NONE absent 0.0
1 put http://a/b #1500:0 -> STORED 1
1 open 0 http://a/b -> OPEN 1
1 purge http://a/c -> NONE other 1.3 KEY(http://a/b)
1 purge http://a/b -> PURGED 1.3d
1 purge http://a/b -> NONE leaving 1.3d
1 close 0 -> CLOSED
1 purge http://a/b -> NONE absent 1.6d
1 put http://a/b #1500:0 -> STORED 2
1 purge http://a/b -> PURGED 2.3d
1 purge http://a/b -> NONE absent 2.6d
1 put http://a/b #1500:0 -> STORED 3
1 purge http://a/b -> PURGED 3.3d
1 purge http://a/b -> NONE absent 3.6d
1 begin 0 http://a/b #1500:0 -> BEGUN 4
1 purge http://a/b -> NONE writing 4.1
1 add 0 500 -> ADDED 500
1 purge http://a/b -> PURGED 4.2d
1 end 0 -> DOOMED 4
1 purge http://a/b -> NONE absent 4.6d
",
    )
}

#[test]
fn a_response_is_stored_and_got_whole(rt: HostRuntime) -> Result<(), Fail> {
    plays(
        &rt,
        rt.alloc(),
        "\
volume

create db 512 4

run db 512 1 1
1 get http://a/b -> MISS absent 0.0
1 save http://a/b #1500:0 -> STORED 1
1 get http://a/b -> HIT 1 1500 MADE(0,1500)

list db 512
> ENTRY 0 1 4 1500 http://a/b
",
    )
}

#[test]
fn an_entry_of_three_slots_is_read_whole(rt: HostRuntime) -> Result<(), Fail> {
    plays(
        &rt,
        rt.alloc(),
        "\
volume

create db 512 3

run db 512 1 1
1 open 0 http://a/b -> MISS absent 0.0
1 begin 1 http://a/b #1300:0 -> BEGUN 1
1 open 0 http://a/b -> MISS writing 1.1
1 open 0 http://a/c -> MISS writing 1.1
1 end 1 -> STORED 1
1 open 0 http://a/c -> MISS other 1.3 KEY(http://a/b)
1 open 0 http://a/b -> OPEN 1
1 more 0 -> END 1300 MADE(0,1300)
1 more 0 -> END 0 -
1 close 0 -> CLOSED

list db 512
> ENTRY 0 1 3 1300 http://a/b
",
    )
}

/// Then another one has all slots.
#[test]
fn a_doomed_entry_is_given_whole_and_freed_by_its_last_reader(rt: HostRuntime) -> Result<(), Fail> {
    plays(
        &rt,
        rt.alloc(),
        "\
volume

create db 512 3

run db 512 1 1
1 put http://a/b #1300:0 -> STORED 1
1 open 0 http://a/b -> OPEN 1
1 purge http://a/b -> PURGED 1.3d
1 open 1 http://a/b -> MISS leaving 1.3d
1 put http://a/c =x -> BUSY 1.3d/1 1.3d/1
1 more 0 -> END 1300 MADE(0,1300)
1 more 0 -> END 0 -
1 open 1 http://a/b -> MISS leaving 1.3d
1 close 0 -> CLOSED
1 get http://a/b -> MISS absent 1.6d
1 put http://a/c #1300:0 -> STORED 2
1 get http://a/c -> HIT 2 1300 MADE(0,1300)

list db 512
> ENTRY 0 2 3 1300 http://a/c
",
    )
}

/// The slot behind the published one is freed with it. Then another one has all slots.
#[test]
fn a_halted_entry_is_given_as_far_as_it_came_and_freed(rt: HostRuntime) -> Result<(), Fail> {
    plays(
        &rt,
        rt.alloc(),
        "\
volume

create db 512 3

run db 512 1 1
1 begin 0 http://a/b #1300:0 -> BEGUN 1
1 add 0 900 -> ADDED 900
1 open 1 http://a/b -> OPEN 1
1 open 2 http://a/b -> OPEN 1
1 drop 0 -> DROPPED
1 more 1 -> HALTED 430 MADE(0,430)
1 more 1 -> HALTED 0 -
1 put http://a/c =x -> BUSY 1.4/2 1.4/2
1 close 1 -> CLOSED
1 put http://a/c =x -> BUSY 1.4/1 1.4/1
1 more 2 -> HALTED 430 MADE(0,430)
1 close 2 -> CLOSED
1 get http://a/b -> MISS absent 1.6
1 put http://a/c #1300:0 -> STORED 2
1 get http://a/c -> HIT 2 1300 MADE(0,1300)

list db 512
> ENTRY 0 2 3 1300 http://a/c
",
    )
}

/// All slots are taken as it is given up. Its reader finds where it ended, and the entry at the other anchor stays.
#[test]
fn an_entry_that_is_given_up_leaves_the_other_one(rt: HostRuntime) -> Result<(), Fail> {
    plays(
        &rt,
        rt.alloc(),
        "\
volume

create db 512 4

run db 512 2 1
1 put u0 #901:0 -> STORED 1
1 begin 0 u1 #901:0 -> BEGUN 2
1 add 0 900 -> ADDED 900
1 open 1 u1 -> OPEN 2
1 drop 0 -> DROPPED
1 more 1 -> HALTED 429 MADE(0,429)
1 more 1 -> HALTED 0 -
1 close 1 -> CLOSED
1 get u0 -> HIT 1 901 MADE(0,901)
",
    )
}

/// Three entries give way to others. The first is read meanwhile and passed over, and is the last one once its reader has left.
#[test]
fn the_hand_goes_round_and_passes_over_what_is_read(rt: HostRuntime) -> Result<(), Fail> {
    plays(
        &rt,
        rt.alloc(),
        "\
volume

create db 512 5

run db 512 5 1
1 put u0 =a -> STORED 1
1 put u1 #600:0 -> STORED 2
1 put u2 #600:0 -> STORED 3
1 open 0 u0 -> OPEN 1
1 begin 1 u3 #1400:0 -> BEGUN 4
1 add 1 800 -> ADDED 800
1 get u1 -> MISS absent 2.6
1 get u2 -> HIT 3 600 MADE(0,600)
1 add 1 600 -> ADDED 600
1 get u2 -> MISS absent 3.6
1 get u0 -> HIT 1 1 61
1 close 0 -> CLOSED
1 begin 2 u4 =e -> BEGUN 5
1 end 2 -> STORED 5
1 get u0 -> MISS absent 1.6
1 end 1 -> STORED 4
1 get u3 -> HIT 4 1400 MADE(0,1400)
1 get u4 -> HIT 5 1 65

list db 512
> ENTRY 0 5 1 1 u4
> ENTRY 1 4 4 1400 u3
",
    )
}

/// The first has one slot of the entry that gave way, and the second the other one.
#[test]
fn a_victim_is_freed_while_two_tabs_ask_for_slots(rt: HostRuntime) -> Result<(), Fail> {
    plays(
        &rt,
        rt.alloc(),
        "\
volume

create db 512 5

run db 512 5 1
1 put u1 #2300:0 -> STORED 1
1 begin 0 u3 =x -> BEGUN 2
1 begin 1 u4 =y -> BEGUN 3
1 end 0 -> STORED 2
1 end 1 -> STORED 3
1 get u1 -> MISS absent 1.6
1 get u3 -> HIT 2 1 78
1 get u4 -> HIT 3 1 79

list db 512
> ENTRY 0 2 1 1 u3
> ENTRY 1 3 1 1 u4
",
    )
}

/// An anchor that is written is taken. There is no slot behind the first one where another tab has it.
#[test]
fn two_tabs_write_at_once(rt: HostRuntime) -> Result<(), Fail> {
    plays(
        &rt,
        rt.alloc(),
        "\
volume

create db 512 4

run db 512 2 1
1 begin 0 u0 #800:0 -> BEGUN 1
1 begin 1 u1 #800:3 -> BEGUN 2
1 put u0 =x -> BUSY 1.1/0 1.1/0
1 add 0 430 -> ADDED 430
1 add 1 430 -> ADDED 430
1 add 0 1 -> ADDED 1
1 add 1 1 -> ADDED 1
1 add 0 100 -> ADDED 100
1 end 1 -> STORED 2
1 end 0 -> STORED 1
1 get u0 -> HIT 1 800 MADE(0,800)
1 get u1 -> HIT 2 800 MADE(3,800)

volume

create db 512 3

run db 512 2 1
1 begin 0 u0 #800:0 -> BEGUN 1
1 begin 1 u1 #800:3 -> BEGUN 2
1 add 0 600 -> ADDED 600
1 add 1 600 -> FULL
1 get u0 -> PART 1.2 429 MADE(0,429)
1 end 0 -> STORED 1
1 get u0 -> HIT 1 800 MADE(0,800)
1 get u1 -> MISS absent 2.6
",
    )
}

/// At once, or by the reader that leaves it as the last. Until then a second response finds no slot, and then both.
#[test]
fn an_entry_that_is_given_up_is_freed_by_its_last_user(rt: HostRuntime) -> Result<(), Fail> {
    plays(
        &rt,
        rt.alloc(),
        "\
volume

create db 512 2

run db 512 2 1
1 begin 0 u0 #800:0 -> BEGUN 1
1 add 0 600 -> ADDED 600
1 drop 0 -> DROPPED
1 put u1 #800:0 -> STORED 2
1 get u1 -> HIT 2 800 MADE(0,800)

volume

create db 512 2

run db 512 2 1
1 begin 0 u0 #800:0 -> BEGUN 1
1 add 0 600 -> ADDED 600
1 open 1 u0 -> OPEN 1
1 drop 0 -> DROPPED
1 put u1 #800:0 -> FULL
1 close 1 -> CLOSED
1 put u1 #800:0 -> STORED 3
1 get u1 -> HIT 3 800 MADE(0,800)
",
    )
}

/// It is freed at once, or by the reader that leaves it as the last.
#[test]
fn an_entry_that_is_doomed_while_it_is_written_ends_so(rt: HostRuntime) -> Result<(), Fail> {
    plays(
        &rt,
        rt.alloc(),
        "\
volume

create db 512 2

run db 512 2 1
1 begin 0 u0 #800:0 -> BEGUN 1
1 add 0 600 -> ADDED 600
1 purge u0 -> PURGED 1.2d
1 end 0 -> DOOMED 1
1 put u1 #800:0 -> STORED 2
1 get u1 -> HIT 2 800 MADE(0,800)

volume

create db 512 2

run db 512 2 1
1 begin 0 u0 #800:0 -> BEGUN 1
1 add 0 600 -> ADDED 600
1 open 1 u0 -> OPEN 1
1 purge u0 -> PURGED 1.2d
1 end 0 -> DOOMED 1
1 put u1 #800:0 -> FULL
1 more 1 -> END 800 MADE(0,800)
1 close 1 -> CLOSED
1 put u1 #800:0 -> STORED 3
1 get u1 -> HIT 3 800 MADE(0,800)
",
    )
}

/// No version is behind the greatest. The entry that has it stays.
#[test]
fn the_greatest_version_is_drawn_once(rt: HostRuntime) -> Result<(), Fail> {
    plays(
        &rt,
        rt.alloc(),
        "\
volume
entry 4294901759 http://a/b hello
empty

run db 512 1 1
1 get http://a/b -> HIT 4294901759 5 68656c6c6f
1 put http://a/b =x -> STORED 4294901760
1 put http://a/b =y -> SPENT 4294901760
1 begin 0 http://a/b =y -> SPENT 4294901760
1 get http://a/b -> HIT 4294901760 1 78

list db 512
> ENTRY 0 4294901760 1 1 http://a/b
",
    )
}

/// Slots are claimed by words of 64: in a store of three words, of one and one slot more, of one, and of a single slot.
#[test]
fn the_least_free_slot_is_claimed_in_stores_of_any_size(rt: HostRuntime) -> Result<(), Fail> {
    plays(
        &rt,
        rt.alloc(),
        "\
volume

create db 512 130

run db 512 130 1
1 put http://a/b #20254:0 -> STORED 1
1 put http://a/c #20254:0 -> STORED 2
1 put http://a/d #20254:0 -> STORED 3
1 put http://a/e =x -> STORED 4

list db 512
> ENTRY 0 1 43 20254 http://a/b
> ENTRY 43 2 43 20254 http://a/c
> ENTRY 86 3 43 20254 http://a/d
> ENTRY 129 4 1 1 http://a/e

run db 512 130 1
1 open 0 http://a/b -> OPEN 1
1 open 1 http://a/c -> OPEN 2
1 open 2 http://a/d -> OPEN 3
1 open 3 http://a/e -> OPEN 4
1 put http://a/f =y -> FULL
1 close 1 -> CLOSED
1 purge http://a/c -> PURGED 2.3d
1 put http://a/f #473:0 -> STORED 6

list db 512
> ENTRY 0 1 43 20254 http://a/b
> ENTRY 43 6 2 473 http://a/f
> ENTRY 86 3 43 20254 http://a/d
> ENTRY 129 4 1 1 http://a/e

volume

create db 512 65

run db 512 65 1
1 put http://a/b #30638:0 -> STORED 1
1 open 0 http://a/b -> OPEN 1
1 put http://a/c =y -> FULL

list db 512
> ENTRY 0 1 65 30638 http://a/b

volume

create db 512 64

run db 512 64 1
1 put http://a/b #30166:0 -> STORED 1
1 open 0 http://a/b -> OPEN 1
1 put http://a/c =y -> FULL

list db 512
> ENTRY 0 1 64 30166 http://a/b

volume

create db 512 1

run db 512 1 1
1 put http://a/b =x -> STORED 1
1 put http://a/c =y -> STORED 2
1 purge http://a/c -> PURGED 2.3d
1 put http://a/b =z -> STORED 3

list db 512
> ENTRY 0 3 1 1 http://a/b
",
    )
}
