// How files are made, with header areas that record their slots.
use super::story::plays;
use std::test::Fail;

/// Behind the mark `RockSMP2` stand the numbers 512 and 4, little endian, and zeros.
#[test]
fn a_new_file_records_its_slots(rt: HostRuntime) -> Result<(), Fail> {
    plays(
        &rt,
        rt.alloc(),
        "\
volume

create db 512 4

has db 4

bytes db header 0 526f636b534d5032000200000400000000000000

bytes db header 16368 00000000000000000000000000000000

list db -

list db 512

list db 1024
= BadGeometry { field: 5 } 8

check db - 4
> slots=4 kept=0 used=0 free=4 version=0

create db 512 4
= Exists 9

create db 1024 2
= Exists 9

bytes db header 0 526f636b534d5032000200000400000000000000

run db - 1 1
1 put http://a/b =hello -> STORED 1

list db -
> ENTRY 0 1 1 5 http://a/b

bytes db header 0 526f636b534d5032000200000400000000000000

volume

create db 32768 2

bytes db header 0 526f636b534d5032008000000200000000000000

check db - 2
> slots=2 kept=0 used=0 free=2 version=0
",
    )
}

/// The file is made, and opened, and a station is made, which writes its header area and syncs it. What is left of a header area
/// that was not written records nothing.
#[test]
fn a_fault_while_a_file_is_made_is_a_status(rt: HostRuntime) -> Result<(), Fail> {
    plays(
        &rt,
        rt.alloc(),
        "\
volume calls=0

create db 512 4
= DeviceFault 6

lacks db

volume calls=1

create db 512 4
= DeviceFault 6

bytes db header 0 000000000000000000000000000000000000

list db -
= BadGeometry { field: 7 } 8

check db 512 4
> slots=4 kept=0 used=0 free=4 version=0

volume calls=2

create db 512 4
= DeviceFault 6

bytes db header 0 000000000000000000000000000000000000

list db -
= BadGeometry { field: 7 } 8

check db 512 4
> slots=4 kept=0 used=0 free=4 version=0

# The write fails.
volume stations=0

create db 512 4
= DeviceFault 6

bytes db header 0 000000000000000000000000000000000000

list db -
= BadGeometry { field: 7 } 8

check db 512 4
> slots=4 kept=0 used=0 free=4 version=0

# The sync fails.
volume stations=1

create db 512 4
= DeviceFault 6

bytes db header 0 526f636b534d5032000200000400000000000000

check db - 4
> slots=4 kept=0 used=0 free=4 version=0

create db 512 4
= Exists 9

# There are no more calls.
volume calls=3 stations=2

create db 512 4

list db -
= DeviceFault 6

list db -
",
    )
}

/// A file of four slots of 512 bytes has 18,432 bytes.
#[test]
fn a_file_is_created_once_and_then_read(rt: HostRuntime) -> Result<(), Fail> {
    plays(
        &rt,
        rt.alloc(),
        "\
volume

pipes room=99 taken=7

create db 500 4
= BadGeometry { field: 1 } 8

create db 500 0
= BadGeometry { field: 1 } 8

create db 512 0
= BadGeometry { field: 4 } 8

create db 512 1048577
= BadGeometry { field: 4 } 8

create db 512
= Usage 2

create db 512 04
= Usage 2

create -db 512 4
= Usage 2

make db 512 4
= Usage 2

list db 512
= Missing 8

create db 512 4

list db 512

check db 512 4
> slots=4 kept=0 used=0 free=4 version=0

check db 512 5
= BadGeometry { field: 2 } 8

list db 2560
= BadGeometry { field: 5 } 8

create db 512 0
= BadGeometry { field: 4 } 8

create db 512 4
= Exists 9

check db 2048 1
= BadGeometry { field: 5 } 8

check db - 4
> slots=4 kept=0 used=0 free=4 version=0
",
    )
}

/// The first call of the volume fails. Where the file is there, that call is not needed to know it.
#[test]
fn a_create_that_is_refused_leaves_the_files(rt: HostRuntime) -> Result<(), Fail> {
    plays(
        &rt,
        rt.alloc(),
        "\
volume calls=0
entry 7 http://a/b hello

create db 512 1
= Exists 9

list db 512
> ENTRY 0 7 1 5 http://a/b

volume calls=0

create db 512 1
= DeviceFault 6

list db 512
= Missing 8
",
    )
}
