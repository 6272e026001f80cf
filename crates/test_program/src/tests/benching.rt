// Benchmarks: their lines, their refusals, and faults.
use super::story::plays;
use std::test::Fail;

/// The lines were worked out by a program in another language, from the rules of one worker's store: no two workers of a
/// benchmark share an anchor. A script is not read.
#[test]
fn a_benchmark_prints_one_line(rt: HostRuntime) -> Result<(), Fail> {
    plays(
        &rt,
        rt.alloc(),
        "\
volume

bench db 0 1 0
< 1 get http://a/b
> bench requests=0 hits=0 misses=0 stored=0 purged=0 none=0 other=0 bytes=0

has db 64

volume

bench db 1 2 0
< 1 get http://a/b
> bench requests=0 hits=0 misses=0 stored=0 purged=0 none=0 other=0 bytes=0

has db 128

volume

bench db 0 1 1
< 1 get http://a/b
> bench requests=1 hits=0 misses=1 stored=0 purged=0 none=0 other=0 bytes=0

has db 64

volume

bench db 7 1 30
< 1 get http://a/b
> bench requests=30 hits=0 misses=14 stored=10 purged=0 none=6 other=0 bytes=0

has db 64

volume

bench db 18446744073709551615 3 40
< 1 get http://a/b
> bench requests=120 hits=7 misses=48 stored=51 purged=2 none=12 other=0 bytes=2740

has db 192

volume

bench db 2 32 3
< 1 get http://a/b
> bench requests=96 hits=0 misses=43 stored=38 purged=0 none=15 other=0 bytes=0

has db 2048

volume

bench db 5 2 20
< 1 get http://a/b
> bench requests=40 hits=0 misses=19 stored=19 purged=0 none=2 other=0 bytes=0

has db 128

# Another one does not touch the file.
bench db 5 2 20
= Exists 9

has db 128
",
    )
}

/// Ten thousand requests, over two fresh volumes.
#[test]
fn a_long_benchmark_prints_the_same_line(rt: HostRuntime) -> Result<(), Fail> {
    plays(
        &rt,
        rt.alloc(),
        "\
volume

bench db 7 1 10000
> bench requests=10000 hits=1129 misses=3825 stored=3797 purged=274 none=975 other=0 bytes=710762

has db 64

volume

bench db 7 1 10000
> bench requests=10000 hits=1129 misses=3825 stored=3797 purged=274 none=975 other=0 bytes=710762

has db 64
",
    )
}

/// Ten thousand requests of four workers, over ten fresh volumes. Whichever worker comes first, no two share an anchor.
#[test]
fn four_workers_print_the_same_line(rt: HostRuntime) -> Result<(), Fail> {
    for turn in 0..10u32 {
        let _ = turn;
        plays(
            &rt,
            rt.alloc(),
            "\
volume

bench db 7 4 2500
> bench requests=10000 hits=1150 misses=3804 stored=3797 purged=285 none=964 other=0 bytes=755636

has db 256
",
        )?;
    }
    Ok(())
}

/// The first refusal in order is told, nothing is printed, and no file is made.
#[test]
fn a_benchmark_is_refused_by_the_first_cause(rt: HostRuntime) -> Result<(), Fail> {
    plays(
        &rt,
        rt.alloc(),
        "\
volume

bench db 0 0 10001
= BadGeometry { field: 3 } 8

lacks db

bench db 0 33 0
= BadGeometry { field: 3 } 8

lacks db

bench db 0 4294967295 0
= BadGeometry { field: 3 } 8

lacks db

bench db 0 1 10001
= BadGeometry { field: 4 } 8

lacks db

bench db 0 32 4294967295
= BadGeometry { field: 4 } 8

lacks db

bench -db 0 1 0
= Usage 2

lacks db

bench db 0 1
= Usage 2

lacks db

bench db 0 1 0 0
= Usage 2

lacks db

bench db 18446744073709551616 1 0
= Usage 2

lacks db

bench db 0 4294967296 0
= Usage 2

lacks db

bench db 0 1 4294967296
= Usage 2

lacks db

bench db 00 1 0
= Usage 2

lacks db

bench db 0 01 0
= Usage 2

lacks db

bench db 0 1 +0
= Usage 2

lacks db

bench db x 1 0
= Usage 2

lacks db
",
    )
}

/// A file of that name is kept. The numbers are judged before the name.
#[test]
fn a_file_that_is_there_is_kept(rt: HostRuntime) -> Result<(), Fail> {
    plays(
        &rt,
        rt.alloc(),
        "\
volume

create db 512 3

bench db 0 33 0
= BadGeometry { field: 3 } 8

check db 512 1
> slots=3 kept=0 used=0 free=3 version=0

bench db 0 1 10001
= BadGeometry { field: 4 } 8

check db 512 1
> slots=3 kept=0 used=0 free=3 version=0

bench db 0 1 10000
= Exists 9

check db 512 1
> slots=3 kept=0 used=0 free=3 version=0
",
    )
}

/// The volume makes the file, opens it and makes a station for its header area, opens it for the run, and makes the stations
/// of the rebuild and of the two workers.
#[test]
fn a_fault_of_the_volume_is_a_status(rt: HostRuntime) -> Result<(), Fail> {
    plays(
        &rt,
        rt.alloc(),
        "\
volume calls=0

bench db 7 2 5
= DeviceFault 6

lacks db

volume calls=1

bench db 7 2 5
= DeviceFault 6

bytes db header 0 0000000000000000

check db 512 1
> slots=128 kept=0 used=0 free=128 version=0

volume calls=2

bench db 7 2 5
= DeviceFault 6

bytes db header 0 0000000000000000

check db 512 1
> slots=128 kept=0 used=0 free=128 version=0

volume calls=3

bench db 7 2 5
= DeviceFault 6

check db 512 1
> slots=128 kept=0 used=0 free=128 version=0

volume calls=4

bench db 7 2 5
= DeviceFault 6

check db 512 1
> slots=128 kept=0 used=0 free=128 version=0

volume calls=5

bench db 7 2 5
= DeviceFault 6

check db 512 1
> slots=128 kept=0 used=0 free=128 version=0

volume calls=6

bench db 7 2 5
= DeviceFault 6

check db 512 1
> slots=128 kept=0 used=0 free=128 version=0
",
    )
}

/// The header area of the file is written, and then synced.
#[test]
fn a_fault_of_the_header_area_is_a_status(rt: HostRuntime) -> Result<(), Fail> {
    plays(
        &rt,
        rt.alloc(),
        "\
volume stations=0

bench db 7 2 5
= DeviceFault 6

bytes db header 0 0000000000000000

check db 512 1
> slots=128 kept=0 used=0 free=128 version=0

volume stations=1

bench db 7 2 5
= DeviceFault 6

bytes db header 0 526f636b534d50320002000080000000

check db 512 1
> slots=128 kept=0 used=0 free=128 version=0

volume stations=2

bench db 7 2 5
> bench requests=10 hits=0 misses=6 stored=2 purged=0 none=2 other=0 bytes=0

bytes db header 0 526f636b534d50320002000080000000

has db 128
",
    )
}

/// The rebuild reads each slot once.
#[test]
fn a_fault_of_the_rebuild_is_a_status(rt: HostRuntime) -> Result<(), Fail> {
    plays(
        &rt,
        rt.alloc(),
        "\
volume stations=/0

bench db 7 2 5
= DeviceFault 6

has db 128

volume stations=/1

bench db 7 2 5
= DeviceFault 6

has db 128

volume stations=/127

bench db 7 2 5
= DeviceFault 6

has db 128

volume stations=/128

bench db 7 2 5
> bench requests=10 hits=0 misses=6 stored=2 purged=0 none=2 other=0 bytes=0

has db 128
",
    )
}

/// The first write of one worker fails: what it was to store is counted as another answer, and not found later.
#[test]
fn a_fault_of_a_worker_is_counted(rt: HostRuntime) -> Result<(), Fail> {
    plays(
        &rt,
        rt.alloc(),
        "\
volume stations=///

bench db 11 2 40
> bench requests=80 hits=4 misses=33 stored=33 purged=0 none=10 other=0 bytes=3210

has db 128

volume stations=//0/

bench db 11 2 40
> bench requests=80 hits=3 misses=34 stored=32 purged=0 none=10 other=1 bytes=2324

has db 128

volume stations=///0

bench db 11 2 40
> bench requests=80 hits=4 misses=33 stored=32 purged=0 none=10 other=1 bytes=3210

has db 128
",
    )
}

/// The line has 75 bytes.
#[test]
fn a_fault_of_the_sink_leaves_a_first_part(rt: HostRuntime) -> Result<(), Fail> {
    plays(
        &rt,
        rt.alloc(),
        "\
volume

pipes given=16 taken=16 room=0

bench db 7 2 5
> bench requests=10 hits=0 misses=6 stored=2 purged=0 none=2 other=0 bytes=0
cut 0
= SinkFault 5

has db 128

volume

pipes given=16 taken=16 room=1

bench db 7 2 5
> bench requests=10 hits=0 misses=6 stored=2 purged=0 none=2 other=0 bytes=0
cut 1
= SinkFault 5

has db 128

volume

pipes given=16 taken=16 room=16

bench db 7 2 5
> bench requests=10 hits=0 misses=6 stored=2 purged=0 none=2 other=0 bytes=0
cut 16
= SinkFault 5

has db 128

volume

pipes given=16 taken=16 room=74

bench db 7 2 5
> bench requests=10 hits=0 misses=6 stored=2 purged=0 none=2 other=0 bytes=0
cut 74
= SinkFault 5

has db 128

volume

pipes given=16 taken=16 room=75

bench db 7 2 5
> bench requests=10 hits=0 misses=6 stored=2 purged=0 none=2 other=0 bytes=0

has db 128

volume

pipes given=16 taken=16 room=4096 sink=0

bench db 7 2 5
> bench requests=10 hits=0 misses=6 stored=2 purged=0 none=2 other=0 bytes=0
cut 0
= SinkFault 5

has db 128

volume

pipes given=16 taken=16 room=4096 sink=1

bench db 7 2 5
> bench requests=10 hits=0 misses=6 stored=2 purged=0 none=2 other=0 bytes=0
cut 16
= SinkFault 5

has db 128

volume

pipes given=16 taken=16 room=4096 sink=4

bench db 7 2 5
> bench requests=10 hits=0 misses=6 stored=2 purged=0 none=2 other=0 bytes=0
cut 64
= SinkFault 5

has db 128

volume

pipes given=16 taken=16 room=4096 sink=5

bench db 7 2 5
> bench requests=10 hits=0 misses=6 stored=2 purged=0 none=2 other=0 bytes=0

has db 128
",
    )
}
