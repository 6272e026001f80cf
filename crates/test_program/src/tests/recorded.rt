// Stories of files whose header areas record their slots, and of command lines with `-` for the size of a slot.
use super::story::plays;
use std::test::Fail;

/// The refusals of `list` by the header area, in their order, and what is listed by the size that is recorded. No slot of zeros
/// is in an entry, so a listing of such slots has no line.
#[test]
fn a_report_finds_the_slot_size(rt: HostRuntime) -> Result<(), Fail> {
    plays(
        &rt,
        rt.alloc(),
        "\
volume

list db -
= Missing 8

list db 500
= BadGeometry { field: 1 } 8

lacks db

# A file that is too short has no header area.
volume
length 16383

list db -
= Small { bytes: 16383 } 8

list db 512
= Small { bytes: 16383 } 8

has db

# One that records nothing leaves the size to the word.
volume
length 16384

list db -
= BadGeometry { field: 7 } 8

list db 512
= Small { bytes: 16384 } 8

has db

volume
zeros 2048
header 0 526f636b534d50310002000004000000

list db -
= BadGeometry { field: 7 } 8

list db 512

has db 4

volume
zeros 2048
header 0 726f636b534d50320002000004000000

list db -
= BadGeometry { field: 7 } 8

has db

# One that records its slots has one size.
volume
zeros 2048
record 512 4

list db -

list db 512

list db 1024
= BadGeometry { field: 5 } 8

list db 513
= BadGeometry { field: 1 } 8

check db - 4
> slots=4 kept=0 used=0 free=4 version=0

check db - 5
= BadGeometry { field: 2 } 8

check db - 0
= BadGeometry { field: 2 } 8

check db 1024 5
= BadGeometry { field: 5 } 8

has db 4

# Bytes behind the numbers tell nothing.
volume
zeros 2048
record 512 4
header 16 ffffffffffffffff
header 16376 ffffffffffffffff

list db -

has db 4

# A part of a slot is no slot.
volume
record 512 4
length 18943

list db -

has db 4

# Other slots than are recorded are refused before another size is.
volume
record 512 4
length 18431

list db -
= BadGeometry { field: 6 } 8

list db 512
= BadGeometry { field: 6 } 8

list db 1024
= BadGeometry { field: 6 } 8

has db

volume
record 512 4
length 18944

list db -
= BadGeometry { field: 6 } 8

list db 512
= BadGeometry { field: 6 } 8

list db 1024
= BadGeometry { field: 6 } 8

check db - 9
= BadGeometry { field: 6 } 8

has db

volume
zeros 2048
record 512 0

list db -
= BadGeometry { field: 6 } 8

list db 512
= BadGeometry { field: 6 } 8

has db

volume
zeros 2048
record 513 4

list db -
= BadGeometry { field: 6 } 8

list db 512
= BadGeometry { field: 6 } 8

has db

volume
zeros 2048
record 0 4

list db -
= BadGeometry { field: 6 } 8

list db 512
= BadGeometry { field: 6 } 8

has db

volume
zeros 2048
record 33280 4

list db -
= BadGeometry { field: 6 } 8

list db 512
= BadGeometry { field: 6 } 8

has db
",
    )
}

/// The look at the header area is the first call of the volume, and the opening the second. After each fault the file is as it
/// was.
#[test]
fn a_look_may_fail(rt: HostRuntime) -> Result<(), Fail> {
    plays(
        &rt,
        rt.alloc(),
        "\
volume calls=0
entry 7 http://a/b hello
record 512 1

pipes room=99 taken=7

list db -
= DeviceFault 6

list db -
> ENTRY 0 7 1 5 http://a/b

volume calls=1
entry 7 http://a/b hello
record 512 1

pipes room=99 taken=7

list db -
= DeviceFault 6

list db -
> ENTRY 0 7 1 5 http://a/b

volume calls=0
length 16384

list db -
= DeviceFault 6

list db -
= BadGeometry { field: 7 } 8

volume calls=1
length 16384

list db -
= BadGeometry { field: 7 } 8

volume calls=0

list db -
= Missing 8

volume calls=0
length 16383

list db -
= Small { bytes: 16383 } 8

volume calls=0
zeros 2048
record 512 4

run db - 1 1
< 1 put http://a/b =hello
= DeviceFault 6

run db - 1 1
1 put http://a/b =hello -> STORED 1
",
    )
}

/// The script is refused before the numbers, these before the file, and the header area before the slots.
#[test]
fn a_run_finds_the_slot_size(rt: HostRuntime) -> Result<(), Fail> {
    plays(
        &rt,
        rt.alloc(),
        "\
volume

run db - 1 1
<| 1 get
= BadScript { line: 1, cause: 5 } 7

run db - 1 33
= BadGeometry { field: 3 } 8

run db - 1 1
= Missing 8

lacks db

volume
length 16383

run db - 1 1
= Small { bytes: 16383 } 8

volume
length 16384

run db - 0 1
= BadGeometry { field: 7 } 8

run db 512 0 1
= Small { bytes: 16384 } 8

volume
zeros 2048
record 512 4

run db 1024 1 1
= BadGeometry { field: 5 } 8

run db 1024 0 1
= BadGeometry { field: 5 } 8

run db 500 0 33
= BadGeometry { field: 1 } 8

run db - 5 1
= BadGeometry { field: 2 } 8

run db - 0 1
= BadGeometry { field: 2 } 8

has db 4

volume
zeros 2048
record 512 5

run db - 0 1
= BadGeometry { field: 6 } 8

run db 1024 0 1
= BadGeometry { field: 6 } 8

has db
",
    )
}

/// No other word may be `-`.
#[test]
fn only_the_slot_size_may_be_left_out(rt: HostRuntime) -> Result<(), Fail> {
    plays(
        &rt,
        rt.alloc(),
        "\
volume
zeros 2048
record 512 4

list - 512
= Usage 2

list - -
= Usage 2

list db --
= Usage 2

list db -512
= Usage 2

list db
= Usage 2

check db - -
= Usage 2

create db - 4
= Usage 2

create no - 4
= Usage 2

run db - - 1
= Usage 2

run db - 1 -
= Usage 2

bench - 1 1 1
= Usage 2

bench no - 1 1
= Usage 2

lacks no

has db
",
    )
}

/// Three files that record their slots, each with `-` and with its number.
#[test]
fn scripts_are_answered_as_over_the_number(rt: HostRuntime) -> Result<(), Fail> {
    for slot in ["-", "512"] {
        let first = format!(in rt.alloc();
            "\
volume
entry 7 http://a/b hello
empty
empty
record 512 3

list db {slot}
> ENTRY 0 7 1 5 http://a/b

check db {slot} 2
> slots=3 kept=1 used=1 free=2 version=7

run db {slot} 2 1
1 get http://a/b -> HIT 7 5 68656c6c6f
1 put http://a/c =world -> STORED 8
1 get http://a/c -> HIT 8 5 776f726c64

list db {slot}
> ENTRY 0 7 1 5 http://a/b
> ENTRY 1 8 1 5 http://a/c
"
        )?;
        plays(&rt, rt.alloc(), first.as_str())?;
        let second = format!(in rt.alloc();
            "\
volume
zeros 2048
record 512 4

run db {slot} 4 2
1 put http://a/b =hello -> STORED 1
1 mark 0 -> MARKED
2 await 0 -> MET
2 get http://a/b -> HIT 1 5 68656c6c6f

has db 4

list db {slot}
> ENTRY 0 1 1 5 http://a/b
"
        )?;
        plays(&rt, rt.alloc(), second.as_str())?;
    }
    for slot in ["-", "1024"] {
        let third = format!(in rt.alloc();
            "\
volume
zeros 2048
record 1024 2

check db {slot} 2
> slots=2 kept=0 used=0 free=2 version=0

run db {slot} 1 1
1 put http://a/b =hello -> STORED 1
1 get http://a/b -> HIT 1 5 68656c6c6f

list db {slot}
> ENTRY 0 1 1 5 http://a/b
"
        )?;
        plays(&rt, rt.alloc(), third.as_str())?;
    }
    Ok(())
}
