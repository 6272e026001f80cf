// Files whose header areas are made to record their slots.
use super::story::plays;
use std::test::Fail;

/// Behind the mark `RockSMP2` stand the numbers 512 and 1, little endian, and zeros. What was there before is gone.
#[test]
fn an_older_file_is_made_to_record_its_slots(rt: HostRuntime) -> Result<(), Fail> {
    plays(
        &rt,
        rt.alloc(),
        "\
volume
entry 7 http://a/b hello
header 16 ffffffffffffffff
header 16376 ffffffffffffffff

list db -
= BadGeometry { field: 7 } 8

migrate db 512
> MIGRATED slots=1

bytes db header 0 526f636b534d5032000200000100000000000000

bytes db header 16368 00000000000000000000000000000000

migrate db 512
> MIGRATED slots=1

list db -
> ENTRY 0 7 1 5 http://a/b

list db 512
> ENTRY 0 7 1 5 http://a/b

migrate db 1024
= BadGeometry { field: 5 } 8

run db - 1 1
1 get http://a/b -> HIT 7 5 68656c6c6f

# A part of a slot is no slot.
volume
zeros 2048
length 18943

migrate db 512
> MIGRATED slots=4

check db - 4
> slots=4 kept=0 used=0 free=4 version=0

# A wrong size is recorded as it stands. The entry of the second slot is then not found; that of the first one fits its front.
volume
entry 7 http://a/b hello
entry 8 http://a/c hello

migrate db 1024
> MIGRATED slots=1

list db -
> ENTRY 0 7 1 5 http://a/b

list db 512
= BadGeometry { field: 5 } 8
",
    )
}

/// The refusals of `migrate`, in their order. None of them changes the file.
#[test]
fn a_file_may_be_refused(rt: HostRuntime) -> Result<(), Fail> {
    plays(
        &rt,
        rt.alloc(),
        "\
volume

migrate db 500
= BadGeometry { field: 1 } 8

migrate db 512
= Missing 8

migrate db -
= Usage 2

migrate db
= Usage 2

migrate db 512 1
= Usage 2

migrate -db 512
= Usage 2

migrate db 0512
= Usage 2

lacks db

volume
length 16383

migrate db 500
= BadGeometry { field: 1 } 8

migrate db 512
= Small { bytes: 16383 } 8

volume
length 16384

migrate db 512
= Small { bytes: 16384 } 8

list db -
= BadGeometry { field: 7 } 8

volume
zeros 1023

migrate db 1024
= Small { bytes: 17407 } 8

migrate db 512
> MIGRATED slots=1

# A file that records its slots, and was cut by one of them.
volume
zeros 1536
record 512 4

migrate db 512
= BadGeometry { field: 6 } 8

migrate db 1024
= BadGeometry { field: 6 } 8

volume
zeros 2048
record 512 4

migrate db 1024
= BadGeometry { field: 5 } 8

migrate db 513
= BadGeometry { field: 1 } 8

migrate db 512
> MIGRATED slots=4
",
    )
}

/// Two looks at the header area are the first calls of the volume; then the file is opened, and a station is made, which writes
/// the header area and syncs it. The entry stands after each fault.
#[test]
fn a_fault_while_the_slots_are_recorded_is_a_status(rt: HostRuntime) -> Result<(), Fail> {
    plays(
        &rt,
        rt.alloc(),
        "\
volume calls=0
entry 7 http://a/b hello

migrate db 512
= DeviceFault 6

list db -
= BadGeometry { field: 7 } 8

list db 512
> ENTRY 0 7 1 5 http://a/b

volume calls=1
entry 7 http://a/b hello

migrate db 512
= DeviceFault 6

list db -
= BadGeometry { field: 7 } 8

list db 512
> ENTRY 0 7 1 5 http://a/b

volume calls=2
entry 7 http://a/b hello

migrate db 512
= DeviceFault 6

list db -
= BadGeometry { field: 7 } 8

list db 512
> ENTRY 0 7 1 5 http://a/b

volume calls=3
entry 7 http://a/b hello

migrate db 512
= DeviceFault 6

list db -
= BadGeometry { field: 7 } 8

list db 512
> ENTRY 0 7 1 5 http://a/b

# The write fails.
volume stations=0
entry 7 http://a/b hello

migrate db 512
= DeviceFault 6

possible db 0 1

list db -
= BadGeometry { field: 7 } 8

list db 512
> ENTRY 0 7 1 5 http://a/b

migrate db 512
> MIGRATED slots=1

# The sync fails.
volume stations=1
entry 7 http://a/b hello

migrate db 512
= DeviceFault 6

possible db 0 1

list db -
> ENTRY 0 7 1 5 http://a/b

migrate db 512
> MIGRATED slots=1

# Of a file that records its slots the two looks are all calls.
volume calls=2,3,4,5 stations=0,1
entry 7 http://a/b hello
record 512 1

migrate db 512
> MIGRATED slots=1

migrate db 512
= DeviceFault 6

# Where the line is not taken, the slots are recorded.
volume
entry 7 http://a/b hello

pipes room=10 taken=7

migrate db 512
> MIGRATED slots=1
cut 10
= SinkFault 5

pipes room=99 taken=7

list db -
> ENTRY 0 7 1 5 http://a/b
",
    )
}
