// What is no run, and what is said of it.
use super::story::plays;
use std::test::Fail;

/// The first bad line is told with its cause. Nothing is printed, and nothing is stored.
#[test]
fn bad_scripts_have_a_line_and_a_cause(rt: HostRuntime) -> Result<(), Fail> {
    plays(
        &rt,
        rt.alloc(),
        "\
volume

create db 512 4

run db 512 1 1
< 1 put http://a/b
= BadScript { line: 1, cause: 5 } 7

check db 512 1
> slots=4 kept=0 used=0 free=4 version=0

volume

create db 512 4

run db 512 1 1
< 2 get http://a/b
= BadScript { line: 1, cause: 3 } 7

check db 512 1
> slots=4 kept=0 used=0 free=4 version=0

volume

create db 512 4

run db 512 1 1
< 0 get http://a/b
= BadScript { line: 1, cause: 3 } 7

check db 512 1
> slots=4 kept=0 used=0 free=4 version=0

volume

create db 512 4

run db 512 1 1
< 
= BadScript { line: 1, cause: 3 } 7

check db 512 1
> slots=4 kept=0 used=0 free=4 version=0

volume

create db 512 4

run db 512 1 1
< 1 fetch http://a/b
= BadScript { line: 1, cause: 4 } 7

check db 512 1
> slots=4 kept=0 used=0 free=4 version=0

volume

create db 512 4

run db 512 1 1
< 1 more 7
= BadScript { line: 1, cause: 6 } 7

check db 512 1
> slots=4 kept=0 used=0 free=4 version=0

volume

create db 512 4

run db 512 1 1
< 1 put http://a/b x
= BadScript { line: 1, cause: 8 } 7

check db 512 1
> slots=4 kept=0 used=0 free=4 version=0

volume

create db 512 4

run db 512 1 1
< 1 mark 64
= BadScript { line: 1, cause: 9 } 7

check db 512 1
> slots=4 kept=0 used=0 free=4 version=0

volume

create db 512 4

run db 512 1 1
< 1 get\thttp://a/b
= BadScript { line: 1, cause: 2 } 7

check db 512 1
> slots=4 kept=0 used=0 free=4 version=0

volume

create db 512 4

run db 512 1 1
< 1 get
= BadScript { line: 1, cause: 5 } 7

check db 512 1
> slots=4 kept=0 used=0 free=4 version=0

volume

create db 512 4

run db 512 1 1
< 1 get URL(2049)
= BadScript { line: 1, cause: 7 } 7

check db 512 1
> slots=4 kept=0 used=0 free=4 version=0

# A good line in front does nothing.
volume

create db 512 4

run db 512 1 1
< 1 put http://a/b =x
< 1 get
= BadScript { line: 2, cause: 5 } 7

check db 512 1
> slots=4 kept=0 used=0 free=4 version=0

volume

create db 512 4

run db 512 1 1
< 1 put http://a/b =x
< 1 mark 3
< 1 mark 3
= BadScript { line: 3, cause: 9 } 7

check db 512 1
> slots=4 kept=0 used=0 free=4 version=0

# A line of a byte too many, which is no text otherwise either, and the longest, which is.
volume

create db 512 4

run db 512 1 1
<| ONES(8193)
= BadScript { line: 1, cause: 1 } 7

check db 512 1
> slots=4 kept=0 used=0 free=4 version=0

volume

create db 512 4

run db 512 1 1
<| ONES(8192)
= BadScript { line: 1, cause: 3 } 7

check db 512 1
> slots=4 kept=0 used=0 free=4 version=0
",
    )
}

#[test]
fn a_word_of_one_byte_is_a_url(rt: HostRuntime) -> Result<(), Fail> {
    plays(
        &rt,
        rt.alloc(),
        "\
volume

create db 512 4

# The last line lacks its line feed.
run db 512 1 1
< 1 put http://a/b =x
<| 1 get -
> 1 1 STORED 1
> 1 2 MISS other 1.3 KEY(http://a/b)
",
    )
}

/// Nothing is printed, and the file is in the volume as before.
#[test]
fn a_run_is_refused_by_the_first_cause(rt: HostRuntime) -> Result<(), Fail> {
    plays(
        &rt,
        rt.alloc(),
        "\
# Words
volume
zeros 2048

run db 512 1
<| 1 get
= Usage 2

has db

volume
zeros 2048

run db 512 1 1 1
<| 1 get
= Usage 2

has db

volume
zeros 2048

run db 512 1 01
<| 1 get
= Usage 2

has db

volume
zeros 2048

run -db 512 1 1
<| 1 get
= Usage 2

has db

volume
zeros 2048

fetch db 512 1 1
<| 1 get
= Usage 2

has db

# come before the script,
volume
zeros 2048

run no 500 0 1
<| 1 get
= BadScript { line: 1, cause: 5 } 7

has db

volume
zeros 2048

run db 512 1 0
<| 1 get -
= BadScript { line: 1, cause: 3 } 7

has db

# the script before the slot size, that before the number of workers,
volume calls=0
zeros 2048

run no 500 0 33
= BadGeometry { field: 1 } 8

has db

volume calls=0
zeros 2048

run no 33280 0 33
= BadGeometry { field: 1 } 8

has db

volume calls=0
zeros 2048

run no 512 0 33
= BadGeometry { field: 3 } 8

has db

volume
zeros 2048

run db 512 1 33
= BadGeometry { field: 3 } 8

has db

volume
zeros 2048

run db 512 1 0
= BadGeometry { field: 3 } 8

has db

# that before the file,
volume calls=0
zeros 2048

run no 512 0 1
= Missing 8

has db

volume

run db 512 1 1
= Missing 8

lacks db

volume calls=1
zeros 511

run db 512 0 1
= Small { bytes: 16895 } 8

has db

# and the file before the number of anchors.
volume
zeros 2048

run db 512 5 1
= BadGeometry { field: 2 } 8

has db

volume
zeros 1124

run db 512 0 1
= BadGeometry { field: 2 } 8

has db

# The same with other numbers.
volume
zeros 100

run no 500 0 33
< 1 put http://a/b
= BadScript { line: 1, cause: 5 } 7

has db

volume
zeros 2048

run db 512 1 1
< 1 get -
<| 2 get http://a/b
= BadScript { line: 2, cause: 3 } 7

has db

volume
zeros 2048

run db 512 1 0
< 1 get -
= BadScript { line: 1, cause: 3 } 7

has db

volume
zeros 2048

run db 512 1 1
< 1 fetch http://a/b
= BadScript { line: 1, cause: 4 } 7

has db

volume
zeros 100

run no 500 0 33
= BadGeometry { field: 1 } 8

has db

volume
zeros 100

run no 512 0 33
= BadGeometry { field: 3 } 8

has db

volume
zeros 100

run db 500 0 0
= BadGeometry { field: 1 } 8

has db

volume
zeros 1024

run db 100 0 0
= BadGeometry { field: 1 } 8

has db

volume
zeros 100

run db 512 0 0
= BadGeometry { field: 3 } 8

has db

volume
zeros 1024

run db 512 0 0
= BadGeometry { field: 3 } 8

has db

volume
zeros 1024

run db 512 0 33
= BadGeometry { field: 3 } 8

has db

volume
zeros 100

run no 512 0 1
= Missing 8

has db

volume
zeros 512

run other 512 0 1
= Missing 8

has db

volume
zeros 100

run db 512 0 1
= Small { bytes: 16484 } 8

has db

volume
zeros 511

run db 512 0 1
= Small { bytes: 16895 } 8

has db

volume
zeros 2048

run db 512 0 1
= BadGeometry { field: 2 } 8

has db

volume
zeros 2048

run db 512 5 1
= BadGeometry { field: 2 } 8

has db

volume
zeros 1024

run db 512 0 1
= BadGeometry { field: 2 } 8

has db

volume
zeros 1024

run db 512 3 1
= BadGeometry { field: 2 } 8

has db

# 32 workers may be, with no line.
volume
zeros 1024

run db 512 2 32

has db

volume
zeros 2048

run db 512 4 32

has db
",
    )
}

/// A script has at most 4,096 lines.
#[test]
fn a_line_too_many_is_a_cause(rt: HostRuntime) -> Result<(), Fail> {
    let alloc = rt.alloc();
    let mut story = String::from_str(
        alloc,
        "\
volume

create db 512 4

run db 512 1 1
= BadScript { line: 4097, cause: 1 } 7
",
    )?;
    for _ in 0..4_096u32 {
        story.push_str("< 1 await 5\n")?;
    }
    story.push_str(
        "\
<| 1 await 5

check db 512 1
> slots=4 kept=0 used=0 free=4 version=0
",
    )?;
    plays(&rt, alloc, story.as_str())
}
