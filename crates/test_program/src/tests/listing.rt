// What is listed of a file, what is summed up, and how each of these commands ends.
use super::story::plays;
use std::test::Fail;

/// One byte or more of the slot is another one.
#[test]
fn one_slot_is_listed_where_it_is_an_entry(rt: HostRuntime) -> Result<(), Fail> {
    plays(
        &rt,
        rt.alloc(),
        "\
# the same byte
volume
entry 7 http://a/b hello
patch 0 1a

list db 512
> ENTRY 0 7 1 5 http://a/b

# next slot 0, which it is itself
volume
entry 7 http://a/b hello
patch 36 00000000

list db 512

# the greatest version
volume
entry 7 http://a/b hello
patch 28 0000ffff

list db 512
> ENTRY 0 4294901760 1 5 http://a/b

# and one more
volume
entry 7 http://a/b hello
patch 28 0100ffff

list db 512

# an entry size that is not the payload's
volume
entry 7 http://a/b hello
patch 16 30

list db 512

# and is counted, as the version is sane
volume
entry 7 http://a/b hello
patch 16 2e

list db 512

check db 512 1
> slots=1 kept=0 used=0 free=1 version=7

# first slot 1
volume
entry 7 http://a/b hello
patch 32 01

list db 512

# another key in the header,
volume
entry 7 http://a/b hello
patch 0 1b

list db 512

# in the metadata,
volume
entry 7 http://a/b hello
patch 50 1b

list db 512

# and another URL
volume
entry 7 http://a/b hello
patch 71 48

list db 512
",
    )
}

/// The key of a URL is the MD5 of a byte 1 and the URL: here by the program md5sum, and the other bytes by the format.
#[test]
fn the_slots_of_these_tests_are_as_md5sum_has_their_keys(rt: HostRuntime) -> Result<(), Fail> {
    plays(
        &rt,
        rt.alloc(),
        "\
volume
entry 7 http://a/b hello
entry 5 http://a/c y

list db 512
> ENTRY 0 7 1 5 http://a/b
> ENTRY 1 5 1 1 http://a/c

bytes db 0 0 1a68c10d6c8b326657c775f53c866dd12f000000000000002f0000000700000000000000ffffffff032a00000003100000001a68c10d6c8b326657c775f53c866dd1040b000000687474703a2f2f612f620068656c6c6f

bytes db 1 0 4877c9348b6d7299e213896f839c80b8
",
    )
}

#[test]
fn each_status_has_its_cause(rt: HostRuntime) -> Result<(), Fail> {
    plays(
        &rt,
        rt.alloc(),
        "\
volume
zeros 1124

pipes room=99 taken=7

list db 512

has db

volume

pipes room=99 taken=7

list db 512
= Missing 8

lacks db

volume calls=0

pipes room=99 taken=7

list db 512
= Missing 8

lacks db

volume calls=1
zeros 511

pipes room=99 taken=7

list db 512
= Small { bytes: 16895 } 8

has db

volume calls=0
zeros 511

pipes room=99 taken=7

list db 512
= DeviceFault 6

has db

volume calls=0

pipes room=99 taken=7

list db 500
= BadGeometry { field: 1 } 8

lacks db

volume
entry 7 http://a/b hello

pipes room=99 taken=7

list db 33280
= BadGeometry { field: 1 } 8

has db

volume
entry 7 http://a/b hello

pipes room=99 taken=7

fetch db
= Usage 2

has db

volume
entry 7 http://a/b hello

pipes room=99 taken=7

list db 0512
= Usage 2

has db

volume
entry 7 http://a/b hello

pipes room=99 taken=7

list -db 512
= Usage 2

has db

volume
entry 7 http://a/b hello

pipes room=99 taken=7

(no words)
= Usage 2

has db

volume calls=0
entry 7 http://a/b hello

pipes room=99 taken=7

list db 512
= DeviceFault 6

has db

volume calls=1
entry 7 http://a/b hello

pipes room=99 taken=7

list db 512
= DeviceFault 6

has db

volume calls=2
entry 7 http://a/b hello

pipes room=99 taken=7

list db 512
= DeviceFault 6

has db

volume stations=0
entry 7 http://a/b hello

pipes room=99 taken=7

list db 512
= DeviceFault 6

has db

volume
entry 7 http://a/b hello

pipes room=9 taken=7

list db 512
= SinkFault 5
> ENTRY 0 7 1 5 http://a/b
cut 9

has db
",
    )
}

#[test]
fn each_end_of_a_check_has_its_cause(rt: HostRuntime) -> Result<(), Fail> {
    plays(
        &rt,
        rt.alloc(),
        "\
volume
entry 7 http://a/b hello

pipes room=99 taken=7

check db 512 1
> slots=1 kept=1 used=1 free=0 version=7

has db

volume
zeros 1124

pipes room=99 taken=7

check db 512 1
> slots=2 kept=0 used=0 free=2 version=0

has db

volume
zeros 2048

pipes room=99 taken=7

check db 512 4
> slots=4 kept=0 used=0 free=4 version=0

has db

# more anchors than slots, and none
volume
zeros 2048

pipes room=99 taken=7

check db 512 5
= BadGeometry { field: 2 } 8

has db

volume
zeros 2048

pipes room=99 taken=7

check db 512 0
= BadGeometry { field: 2 } 8

has db

volume
zeros 2048

pipes room=99 taken=7

check db 512 4294967295
= BadGeometry { field: 2 } 8

has db

# the order of refusals
volume calls=0

pipes room=99 taken=7

check db 500 0
= BadGeometry { field: 1 } 8

lacks db

volume calls=0

pipes room=99 taken=7

check db 512 0
= Missing 8

lacks db

volume calls=1
zeros 511

pipes room=99 taken=7

check db 512 0
= Small { bytes: 16895 } 8

has db

volume calls=0
zeros 2048

pipes room=99 taken=7

check db 512 5
= DeviceFault 6

has db

volume calls=1
zeros 2048

pipes room=99 taken=7

check db 512 5
= DeviceFault 6

has db

volume calls=2 stations=0
zeros 2048

pipes room=0 taken=7

check db 512 5
= BadGeometry { field: 2 } 8

has db

volume calls=2
zeros 2048

pipes room=99 taken=7

check db 512 4
= DeviceFault 6

has db

volume stations=0
zeros 2048

pipes room=99 taken=7

check db 512 4
= DeviceFault 6

has db

volume stations=3
zeros 2048

pipes room=99 taken=7

check db 512 4
= DeviceFault 6

has db

# four slots are four reads
volume stations=4
zeros 2048

pipes room=99 taken=7

check db 512 4
> slots=4 kept=0 used=0 free=4 version=0

has db

volume
zeros 2048

pipes room=9 taken=7

check db 512 4
= SinkFault 5
> slots=4 kept=0 used=0 free=4 version=0
cut 9

has db

# no command lines
volume
zeros 2048

pipes room=99 taken=7

check db 512
= Usage 2

has db

volume
zeros 2048

pipes room=99 taken=7

check db 512 04
= Usage 2

has db

volume
zeros 2048

pipes room=99 taken=7

list db 512 4
= Usage 2

has db
",
    )
}

#[test]
fn words_that_are_no_line_run_change_nothing(rt: HostRuntime) -> Result<(), Fail> {
    plays(
        &rt,
        rt.alloc(),
        "\
volume
entry 7 http://a/b hello

run
= Usage 2

has db

volume
entry 7 http://a/b hello

run db 512 1
= Usage 2

has db

volume
entry 7 http://a/b hello

run db 512 1 1 1
= Usage 2

has db

volume
entry 7 http://a/b hello

run -db 512 1 1
= Usage 2

has db

volume
entry 7 http://a/b hello

run  512 1 1
= Usage 2

has db

volume
entry 7 http://a/b hello

run db 0512 1 1
= Usage 2

has db

volume
entry 7 http://a/b hello

run db 512 01 1
= Usage 2

has db

volume
entry 7 http://a/b hello

run db 512 1 01
= Usage 2

has db

volume
entry 7 http://a/b hello

run db 512 1 +1
= Usage 2

has db

volume
entry 7 http://a/b hello

run db 512 1 4294967296
= Usage 2

has db

volume
entry 7 http://a/b hello

check db 512 1 1
= Usage 2

has db
",
    )
}

/// Two entries, and what is kept of them for one anchor and for two.
#[test]
fn the_best_entry_of_an_anchor_is_kept(rt: HostRuntime) -> Result<(), Fail> {
    plays(
        &rt,
        rt.alloc(),
        "\
volume
entry 3 http://a/b x
entry 5 http://a/c y

check db 512 1
> slots=2 kept=1 used=1 free=1 version=5

check db 512 2
> slots=2 kept=2 used=2 free=0 version=5

volume
entry 3 http://a/b x
entry 1 http://a/c y

check db 512 1
> slots=2 kept=1 used=1 free=1 version=3

check db 512 2
> slots=2 kept=2 used=2 free=0 version=3

volume
entry 3 http://a/b x
entry 3 http://a/c y

check db 512 1
> slots=2 kept=1 used=1 free=1 version=3

check db 512 2
> slots=2 kept=2 used=2 free=0 version=3
",
    )
}

#[test]
fn entries_are_listed_in_order_of_their_slots(rt: HostRuntime) -> Result<(), Fail> {
    plays(
        &rt,
        rt.alloc(),
        "\
volume
entry 3 http://a/b x
entry 5 http://a/c y

list db 512
> ENTRY 0 3 1 1 http://a/b
> ENTRY 1 5 1 1 http://a/c
",
    )
}

/// Three slots, and what is listed. The slots of the last row are free.
#[test]
fn chains_are_followed_from_slot_to_slot(rt: HostRuntime) -> Result<(), Fail> {
    plays(
        &rt,
        rt.alloc(),
        "\
volume
slot 473 1 4 2 -1
empty
slot 0 472 4 2 0

list db 512
> ENTRY 2 4 2 431 http://a/b

# a slot that 430 bytes fill
volume
slot 472 472 1 0 -1
empty
empty

list db 512
> ENTRY 0 1 1 430 http://a/b

# the last slot names another first
volume
slot 473 1 4 0 -1
empty
slot 0 472 4 2 0

list db 512

# one byte less than there are,
volume
slot 472 1 4 2 -1
empty
slot 0 472 4 2 0

list db 512

# and one more
volume
slot 474 1 4 2 -1
empty
slot 0 472 4 2 0

list db 512

# another version
volume
slot 473 1 5 2 -1
empty
slot 0 472 4 2 0

list db 512

# a ring
volume
slot 472 472 4 2 2
empty
slot 0 472 4 2 0

list db 512

# a middle slot that is full,
volume
slot 945 1 4 2 -1
slot 0 472 4 2 0
slot 0 472 4 2 1

list db 512
> ENTRY 2 4 3 903 http://a/b

# and one that is not
volume
slot 944 1 4 2 -1
slot 0 471 4 2 0
slot 0 472 4 2 1

list db 512

# a slot that goes on in itself, version 0, and a payload past the slot
volume
slot 472 472 5 0 0
slot 47 47 0 1 -1
slot 473 473 9 2 -1

list db 512

check db 512 1
> slots=3 kept=0 used=0 free=3 version=5
",
    )
}
