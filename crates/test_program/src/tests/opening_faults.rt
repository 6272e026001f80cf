// What becomes of a command in which a call of the volume, of the rebuild or of the source fails before a line is served.
use super::story::{plays, plays_each};
use std::test::Fail;

/// Each call of the volume, of the rebuild and of the source fails in turn. Nothing is printed, and nothing is stored.
#[test]
fn a_fault_before_the_workers_is_a_status(rt: HostRuntime) -> Result<(), Fail> {
    let alloc = rt.alloc();
    // The header area of a file is looked at, the file is opened, and two stations are made.
    plays_each(
        &rt,
        alloc,
        0..4,
        "\
volume calls=@
zeros 2048

pipes given=8 taken=8 room=4096

run db 512 1 1
< 1 put http://a/b =hello
< 1 get http://a/b
= DeviceFault 6

check db 512 1
> slots=4 kept=0 used=0 free=4 version=0
",
    )?;
    plays_each(
        &rt,
        alloc,
        4..7,
        "\
volume calls=@
zeros 2048

pipes given=8 taken=8 room=4096

run db 512 1 1
< 1 put http://a/b =hello
< 1 get http://a/b
> 1 1 STORED 1
> 1 2 HIT 1 5 68656c6c6f
",
    )?;
    // The rebuild reads four slots.
    plays_each(
        &rt,
        alloc,
        0..4,
        "\
volume stations=@
zeros 2048

pipes given=8 taken=8 room=4096

run db 512 1 1
< 1 put http://a/b =hello
< 1 get http://a/b
= DeviceFault 6

check db 512 1
> slots=4 kept=0 used=0 free=4 version=0
",
    )?;
    plays_each(
        &rt,
        alloc,
        4..6,
        "\
volume stations=@
zeros 2048

pipes given=8 taken=8 room=4096

run db 512 1 1
< 1 put http://a/b =hello
< 1 get http://a/b
> 1 1 STORED 1
> 1 2 HIT 1 5 68656c6c6f
",
    )?;
    // Six pieces of the script come at least, and then its end.
    plays_each(
        &rt,
        alloc,
        0..6,
        "\
volume
zeros 2048

pipes given=8 taken=8 room=4096 source=@

run db 512 1 1
< 1 put http://a/b =hello
< 1 get http://a/b
= SourceFault 4

check db 512 1
> slots=4 kept=0 used=0 free=4 version=0
",
    )?;
    // The script comes at once, and then its end.
    plays_each(
        &rt,
        alloc,
        0..2,
        "\
volume
zeros 2048

pipes source=@

run db 512 1 1
< 1 put http://a/b =hello
< 1 get http://a/b
= SourceFault 4

check db 512 1
> slots=4 kept=0 used=0 free=4 version=0
",
    )?;
    // Two workers have two stations.
    plays_each(
        &rt,
        alloc,
        0..5,
        "\
volume calls=@
zeros 2048

run db 512 1 2
= DeviceFault 6

has db
",
    )?;
    plays_each(
        &rt,
        alloc,
        5..6,
        "\
volume calls=@
zeros 2048

run db 512 1 2

has db
",
    )?;
    plays(
        &rt,
        alloc,
        "\
volume stations=2
zeros 2048

run db 512 1 2
= DeviceFault 6

has db

volume calls=0
zeros 1024

run db 512 1 1
= DeviceFault 6

has db

volume calls=1
zeros 1024

run db 512 1 1
= DeviceFault 6

has db

volume stations=1
zeros 1024

run db 512 1 1
= DeviceFault 6

has db
",
    )?;
    Ok(())
}

/// The look at the header area, the call that opens the file or the one that makes a station fails. The file is as it was.
#[test]
fn a_fault_of_the_volume_leaves_the_entries(rt: HostRuntime) -> Result<(), Fail> {
    let alloc = rt.alloc();
    plays_each(
        &rt,
        alloc,
        0..3,
        "\
volume calls=@
entry 3 http://a/b x
entry 5 http://a/c y

list db 512
= DeviceFault 6

check db 512 2
> slots=2 kept=2 used=2 free=0 version=5

list db 512
> ENTRY 0 3 1 1 http://a/b
> ENTRY 1 5 1 1 http://a/c
",
    )?;
    plays_each(
        &rt,
        alloc,
        0..3,
        "\
volume calls=@
entry 3 http://a/b x
entry 5 http://a/c y

check db 512 2
= DeviceFault 6

check db 512 2
> slots=2 kept=2 used=2 free=0 version=5

list db 512
> ENTRY 0 3 1 1 http://a/b
> ENTRY 1 5 1 1 http://a/c
",
    )?;
    plays_each(
        &rt,
        alloc,
        0..3,
        "\
volume calls=@
entry 3 http://a/b x
entry 5 http://a/c y

run db 512 2 1
< 1 put http://a/b =z
= DeviceFault 6

check db 512 2
> slots=2 kept=2 used=2 free=0 version=5

list db 512
> ENTRY 0 3 1 1 http://a/b
> ENTRY 1 5 1 1 http://a/c
",
    )?;
    Ok(())
}

/// The first or the second read of a file of two slots fails. The slots have the bytes that they had.
#[test]
fn a_read_that_fails_leaves_the_slots(rt: HostRuntime) -> Result<(), Fail> {
    let alloc = rt.alloc();
    plays_each(
        &rt,
        alloc,
        0..2,
        "\
volume stations=@
entry 3 http://a/b x
entry 5 http://a/c y

list db 512
= DeviceFault 6

bytes db 0 0 1a68c10d6c8b326657c775f53c866dd12b000000000000002b0000000300000000000000ffffffff032a00000003100000001a68c10d6c8b326657c775f53c866dd1040b000000687474703a2f2f612f620078

bytes db 1 0 4877c9348b6d7299e213896f839c80b82b000000000000002b0000000500000001000000ffffffff032a00000003100000004877c9348b6d7299e213896f839c80b8040b000000687474703a2f2f612f630079

check db 512 2
> slots=2 kept=2 used=2 free=0 version=5
",
    )?;
    plays_each(
        &rt,
        alloc,
        0..2,
        "\
volume stations=@
entry 3 http://a/b x
entry 5 http://a/c y

check db 512 2
= DeviceFault 6

bytes db 0 0 1a68c10d6c8b326657c775f53c866dd12b000000000000002b0000000300000000000000ffffffff032a00000003100000001a68c10d6c8b326657c775f53c866dd1040b000000687474703a2f2f612f620078

bytes db 1 0 4877c9348b6d7299e213896f839c80b82b000000000000002b0000000500000001000000ffffffff032a00000003100000004877c9348b6d7299e213896f839c80b8040b000000687474703a2f2f612f630079

check db 512 2
> slots=2 kept=2 used=2 free=0 version=5
",
    )?;
    plays_each(
        &rt,
        alloc,
        0..2,
        "\
volume stations=@
entry 3 http://a/b x
entry 5 http://a/c y

run db 512 2 1
< 1 put http://a/b =z
= DeviceFault 6

bytes db 0 0 1a68c10d6c8b326657c775f53c866dd12b000000000000002b0000000300000000000000ffffffff032a00000003100000001a68c10d6c8b326657c775f53c866dd1040b000000687474703a2f2f612f620078

bytes db 1 0 4877c9348b6d7299e213896f839c80b82b000000000000002b0000000500000001000000ffffffff032a00000003100000004877c9348b6d7299e213896f839c80b8040b000000687474703a2f2f612f630079

check db 512 2
> slots=2 kept=2 used=2 free=0 version=5
",
    )?;
    Ok(())
}
