// Scripts that are served on a small store, as a table.
ghost use Rattle.std.specs.Prelude.{All, IfSome, IsTrue};
ghost use Rattle.rock_disk.specs.File.{NoneAway};
ghost use Rattle.rock_disk.specs.Memory.{volume_files};
ghost use Rattle.test_forwarding_kit.specs.Standing.{IsRead};

use crate::playing::{Limits, alone, played};
use rock_disk::{MemVolume, Stations, Volume};
use rock_io::MemSource;
use rock_run::read_lines_may_be_asked;
use script_text::{Script, read_script};
use std::alloc::Global;
use std::fmt::Write;
use std::sync::Wait;
use std::test::Fail;
use test_many_workers_kit::Lying;
use test_rows::{numbers, short};
use test_stories::{file_of, push_text};

// Cases, each with its title, its setting and what its lines come to. The setting has the slots and the anchors of the
// store, how often a forwarding may look in vain, and the calls of the fetcher, of the sink and of the station of worker 1
// that fail. A line without an answer is one of the file. The others are those of a script, but for worker 1, whose `put`
// lines are forwarded, and told with what went to the sink and how many fetches were started. Worker 3 is worker 2 in the
// midst of the forwarding below: before each piece that goes to the sink one of its lines is served.
//
// A slot has room for 472 bytes, of which the metadata of `http://a/b` takes 42 in the first one. A fetcher gives 600 bytes
// at a time.
const CASES: &str = "\
a response is fetched, and then it is a hit, for the other worker too; 8 1 3 - - -
1 put http://a/b =hello -> Fetched { version: 1 } =hello 1
1 put http://a/b =other -> Hit { version: 1 } =hello 0
2 get http://a/b -> Hit 1 =hello

so is an empty one; 8 1 3 - - -
1 put http://a/b - -> Fetched { version: 1 } - 1
1 put http://a/b =other -> Hit { version: 1 } - 0

one of another URL takes the place of an idle one; 8 1 3 - - -
2 put http://a/b #1300:0 -> Stored { version: 1 }
1 put http://a/b =x -> Hit { version: 1 } #1300:0 0
1 put http://a/c #1300:13 -> Fetched { version: 2 } #1300:13 1
2 get http://a/c -> Hit 2 #1300:13

an idle entry is evicted where no slot is free; 2 2 3 - - -
2 put u0 #901:0 -> Stored { version: 1 }
1 put u1 =x -> Fetched { version: 2 } =x 1
2 get u0 -> Miss { cause: Absent { epoch: Epoch { version: 1, doom: false, stage: Gone } } }

an entry of the file is a hit; 8 1 3 - - -
entry 3 http://a/b hello
1 put http://a/b =x -> Hit { version: 3 } =hello 0
1 put http://a/c =x -> Fetched { version: 4 } =x 1

an entry is followed while it grows, and to its end; 8 1 3 - - -
2 begin 0 http://a/b #1300:0 -> Begun { version: 1 }
2 add 0 900 -> Added { count: 900 }
3 add 0 100 -> Added { count: 100 }
3 end 0 -> Stored { version: 1 }
1 put http://a/b =x -> Hit { version: 1 } #1300:0 0

an entry that is purged while it is followed is read to its end; 8 1 3 - - -
2 begin 0 http://a/b #1300:0 -> Begun { version: 1 }
2 add 0 1000 -> Added { count: 1000 }
3 purge http://a/b -> Purged { epoch: Epoch { version: 1, doom: true, stage: Appending } }
3 end 0 -> Doomed { version: 1 }
1 put http://a/b =x -> Hit { version: 1 } #1300:0 0
1 put http://a/b =x -> Fetched { version: 2 } =x 1

an entry is given up while it is followed; 8 1 3 - - -
2 begin 0 http://a/b #1300:0 -> Begun { version: 1 }
2 add 0 900 -> Added { count: 900 }
3 drop 0 -> Dropped
1 put http://a/b =x -> Halted #430:0 0
1 put http://a/b =x -> Fetched { version: 2 } =x 1

an entry grows by a slot, and then no more; 8 1 3 - - -
2 begin 0 http://a/b #1300:0 -> Begun { version: 1 }
2 add 0 900 -> Added { count: 900 }
3 add 0 100 -> Added { count: 100 }
1 put http://a/b =x -> Waited { looks: 3 } #902:0 0
2 end 0 -> Stored { version: 1 }
1 put http://a/b =x -> Hit { version: 1 } #1300:0 0

an entry has nothing to read yet, whatever its URL; 8 1 4 - - -
2 begin 0 http://a/b #1300:0 -> Begun { version: 1 }
1 put http://a/b =x -> Waited { looks: 4 } - 0
1 put http://a/c =x -> Waited { looks: 4 } - 0

an entry of its own that is being written; 8 1 3 - - -
1 begin 0 http://a/b #1300:0 -> Begun { version: 1 } Added { count: 900 }
1 put http://a/b =x -> Waited { looks: 3 } #430:0 0

and one of its own that has nothing to read yet; 8 1 1 - - -
1 begin 0 http://a/b #400:0 -> Begun { version: 1 } Added { count: 400 }
1 put http://a/b =x -> Waited { looks: 1 } - 0

another follows the entry that is fetched; 8 1 3 - - -
3 get http://a/b -> Miss { cause: Writing { epoch: Epoch { version: 1, doom: false, stage: Taken } } }
3 open 0 http://a/b -> Opened { version: 1 }
3 more 0 -> Part #902:0
1 put http://a/b #1300:0 -> Fetched { version: 1 } #1300:0 1
2 more 0 -> End #398:18

the entry that is fetched is purged meanwhile; 8 1 3 - - -
3 purge http://a/b -> NoEntry { cause: Writing { epoch: Epoch { version: 1, doom: false, stage: Taken } } }
3 purge http://a/b -> Purged { epoch: Epoch { version: 1, doom: true, stage: Appending } }
1 put http://a/b #1300:0 -> Fetched { version: 1 } #1300:0 1
1 put http://a/b =y -> Fetched { version: 2 } =y 1

a reader keeps an entry of another URL; 8 1 3 - - -
2 put http://a/b =x -> Stored { version: 1 }
2 open 0 http://a/b -> Opened { version: 1 }
1 put http://a/c =y -> Busy 1.3/1 1.3/1 =y 1
2 close 0 -> Closed
1 put http://a/c =y -> Fetched { version: 2 } =y 1

a reader keeps an entry that is leaving; 8 1 3 - - -
2 put http://a/b =x -> Stored { version: 1 }
2 open 0 http://a/b -> Opened { version: 1 }
2 purge http://a/b -> Purged { epoch: Epoch { version: 1, doom: true, stage: Closed } }
1 put http://a/b =y -> Busy 1.3d/1 1.3d/1 =y 1

an entry of another URL grows; 8 1 3 - - -
2 begin 0 http://a/b #1300:0 -> Begun { version: 1 }
2 add 0 900 -> Added { count: 900 }
1 put http://a/c =y -> Busy 1.2/0 1.2/0 =y 1

a URL does not fit into a slot, and one that just fits; 8 1 3 - - -
1 put URL(441) =x -> Direct { why: Begin(LongUrl) } =x 1
1 put URL(440) =y -> Fetched { version: 1 } =y 1
1 put URL(440) =x -> Hit { version: 1 } =y 0

no version is left; 8 1 3 - - -
entry 4294901760 http://a/b hello
1 put http://a/c =x -> Direct { why: Begin(Spent { versions: 4294901760 }) } =x 1
1 put http://a/b =x -> Hit { version: 4294901760 } =hello 0

a response that just fits, and one that needs one slot more than there are; 2 1 3 - - -
1 put http://a/b #902:0 -> Fetched { version: 1 } #902:0 1
1 put http://a/c #903:13 -> Direct { why: Write(Large) } #903:13 1
1 put http://a/b =x -> Fetched { version: 3 } =x 1

the store is full in the midst of a fetch; 3 2 3 - - -
3 put u1 =x -> Stored { version: 2 }
3 open 0 u1 -> Opened { version: 2 }
1 put u0 #1300:0 -> Direct { why: Write(Full) } #1300:0 1
2 more 0 -> End =x

it is full when the entry is to be ended; 2 2 3 - - -
2 put u0 #901:0 -> Stored { version: 1 }
2 open 0 u0 -> Opened { version: 1 }
1 put u1 =x -> Direct { why: Write(Full) } =x 1
2 get u1 -> Miss { cause: Absent { epoch: Epoch { version: 2, doom: false, stage: Gone } } }

the fetch does not start; 8 1 3 0 - -
1 put http://a/b #1300:0 -> FetchFault - 0
2 get http://a/b -> Miss { cause: Absent { epoch: Epoch { version: 1, doom: false, stage: Gone } } }

the first piece does not come; 8 1 3 1 - -
1 put http://a/b #1300:0 -> FetchFault - 1
2 get http://a/b -> Miss { cause: Absent { epoch: Epoch { version: 1, doom: false, stage: Gone } } }

the second piece does not come; 8 1 3 2 - -
1 put http://a/b #1300:0 -> FetchFault #600:0 1
2 get http://a/b -> Miss { cause: Absent { epoch: Epoch { version: 1, doom: false, stage: Gone } } }

the third piece does not come; 8 1 3 3 - -
1 put http://a/b #1300:0 -> FetchFault #1200:0 1
2 get http://a/b -> Miss { cause: Absent { epoch: Epoch { version: 1, doom: false, stage: Gone } } }

the end does not come; 8 1 3 4 - -
1 put http://a/b #1300:0 -> FetchFault #1300:0 1
2 get http://a/b -> Miss { cause: Absent { epoch: Epoch { version: 1, doom: false, stage: Gone } } }

a fetch fails whose entry another follows; 8 1 3 3 - -
3 get http://a/b -> Miss { cause: Writing { epoch: Epoch { version: 1, doom: false, stage: Taken } } }
3 open 0 http://a/b -> Opened { version: 1 }
1 put http://a/b #1300:0 -> FetchFault #1200:0 1
2 more 0 -> Halted #902:0

a fetch fails that is not stored; 8 1 3 2 - -
2 put http://a/b =x -> Stored { version: 1 }
2 open 0 http://a/b -> Opened { version: 1 }
1 put http://a/c #1300:0 -> FetchFault #600:0 1

a fetch fails behind a refused write; 2 1 3 3 - -
1 put http://a/b #1300:0 -> FetchFault #1200:0 1
2 get http://a/b -> Miss { cause: Absent { epoch: Epoch { version: 1, doom: false, stage: Gone } } }

the sink takes no piece of a fetch; 8 1 3 - 0 -
1 put http://a/b #1300:0 -> SinkFault - 1
2 get http://a/b -> Miss { cause: Absent { epoch: Epoch { version: 1, doom: false, stage: Gone } } }

it takes one; 8 1 3 - 1 -
1 put http://a/b #1300:0 -> SinkFault #600:0 1
2 get http://a/b -> Miss { cause: Absent { epoch: Epoch { version: 1, doom: false, stage: Gone } } }

it takes two; 8 1 3 - 2 -
1 put http://a/b #1300:0 -> SinkFault #1200:0 1
2 get http://a/b -> Miss { cause: Absent { epoch: Epoch { version: 1, doom: false, stage: Gone } } }

the sink fails in a fetch that is not stored; 8 1 3 - 1 -
2 put http://a/b =x -> Stored { version: 1 }
2 open 0 http://a/b -> Opened { version: 1 }
1 put http://a/c #1300:0 -> SinkFault #600:0 1

the sink takes no piece of an entry, which is left; 8 1 3 - 0 -
2 put http://a/b #1300:0 -> Stored { version: 1 }
1 put http://a/b =x -> SinkFault - 0
2 put http://a/c =y -> Stored { version: 2 }

it takes one; 8 1 3 - 1 -
2 put http://a/b #1300:0 -> Stored { version: 1 }
1 put http://a/b =x -> SinkFault #430:0 0
2 put http://a/c =y -> Stored { version: 2 }

it takes two; 8 1 3 - 2 -
2 put http://a/b #1300:0 -> Stored { version: 1 }
1 put http://a/b =x -> SinkFault #902:0 0
2 put http://a/c =y -> Stored { version: 2 }

the first slot is not written; 8 1 3 - - 0
1 put http://a/b #1300:0 -> Direct { why: Write(Fault) } #1300:0 1
2 get http://a/b -> Miss { cause: Absent { epoch: Epoch { version: 1, doom: false, stage: Gone } } }

the second slot is not written; 8 1 3 - - 1
1 put http://a/b #1300:0 -> Direct { why: Write(Fault) } #1300:0 1
2 get http://a/b -> Miss { cause: Absent { epoch: Epoch { version: 1, doom: false, stage: Gone } } }

the last slot is not written; 8 1 3 - - 2
1 put http://a/b #1300:0 -> Direct { why: Write(Fault) } #1300:0 1
2 get http://a/b -> Miss { cause: Absent { epoch: Epoch { version: 1, doom: false, stage: Gone } } }

the first slot is not read; 8 1 3 - - 0
2 put http://a/b #1300:0 -> Stored { version: 1 }
1 put http://a/b =x -> Fault - 0
2 put http://a/c =y -> Stored { version: 2 }

the second slot is not read; 8 1 3 - - 1
2 put http://a/b #1300:0 -> Stored { version: 1 }
1 put http://a/b =x -> Fault #430:0 0
2 put http://a/c =y -> Stored { version: 2 }

the last slot is not read; 8 1 3 - - 2
2 put http://a/b #1300:0 -> Stored { version: 1 }
1 put http://a/b =x -> Fault #902:0 0
2 put http://a/c =y -> Stored { version: 2 }";

// Of a store whose stations give a slot of zeros at each read but their first one. It has three slots.
const LIES: &str = "\
the entry turns out to be another one before it gave a byte; 3 1 3 - - -
1 put http://a/b =hello -> Fetched { version: 1 } =hello 1
1 put http://a/b =x -> Hit { version: 1 } =hello 0
1 put http://a/b =x -> Direct { why: OtherUrl } =x 1
2 put http://a/c =y -> Stored { version: 2 }

and behind a byte; 3 1 3 - - -
1 put http://a/b #600:0 -> Fetched { version: 1 } #600:0 1
1 put http://a/b =x -> Halted #430:0 0
2 put http://a/c =y -> Stored { version: 2 }";

/// A case: its setting, the script, what its lines come to, and the lines of the file.
#[derive(Drop)]
struct Case {
    slots: u64,
    anchors: u32,
    limits: Limits,
    /// Which call of the station of worker 1 fails.
    fails: u64,
    script: Vec<u8>,
    wanted: String,
    file: String,
}

/// The case that a text tells.
fn case_of(alloc: Global, text: &str) -> Option<Case> {
    let (head, rows) = text.split_once('\n')?;
    let (_title, setting) = head.split_once("; ")?;
    let [slots, anchors, most, fetch_fails, sink_fails, fails] = numbers::<6>("-;999", setting)?;
    let mut case = Case {
        slots,
        anchors: short(anchors),
        limits: Limits {
            most: short(most),
            fetch_fails,
            sink_fails,
        },
        fails,
        script: Vec::new(alloc),
        wanted: String::new(alloc),
        file: String::new(alloc),
    };
    for row in rows.lines() {
        add_row(alloc, &mut case, row)?;
    }
    Some(case)
}

/// Adds a row to a case. Long words of a script stand there by their names.
fn add_row(alloc: Global, case: &mut Case, row: &str) -> Option<()> {
    let Some((line, answer)) = row.split_once(" -> ") else {
        return write!(case.file, "{row}\n").ok();
    };
    push_text(alloc, &mut case.script, line, case.anchors).ok()?;
    case.script.push(b'\n').ok()?;
    write!(case.wanted, "{answer}\n").ok()
}

/// The lines of a script of three workers.
fn script_of(alloc: Global, bytes: Vec<u8>) -> Option<Script>
    ensures { IfSome result (λ script. All (IsRead script.lines) script.lines) }
{
    read_lines_may_be_asked();
    let mut source = MemSource::new(bytes, 8192, Vec::new(alloc));
    match read_script(alloc, &mut source, 3) {
        Ok(script) => Some(script),
        Err(_) => None,
    }
}

/// A volume with this file, with zeros behind it up to so many slots, where a call of the station of worker 1 fails.
fn volume_of(alloc: Global, mut file: Vec<u8>, slots: u64, fails: u64) -> Option<MemVolume>
    ensures { IfSome result (λ volume. NoneAway (volume_files volume)) }
{
    let mut stations = Vec::new(alloc);
    stations.push(Vec::new(alloc)).ok()?;
    stations.push(alone(alloc, fails)?).ok()?;
    let mut volume = MemVolume::new(alloc, Vec::new(alloc), stations);
    let size = 16_384usize.saturating_add((slots as usize).saturating_mul(512));
    file.resize(size, 0).ok()?;
    let Ok(()) = volume.put_file("db", &file) else {
        return None;
    };
    Some(volume)
}

/// What the lines of a case come to.
fn told<R: Wait, V: Volume>(rt: &R, alloc: Global, case: &Case, volume: &mut V) -> Option<String>
    requires { IsTrue V.tells → NoneAway (V.files volume.old) }
{
    let script = script_of(alloc, case.script.to_vec(alloc).ok()?)?;
    played(rt, alloc, volume, case.anchors, &case.limits, &script)
}

#[test]
fn responses_are_forwarded(rt: HostRuntime) -> Result<(), Fail> {
    let alloc = rt.alloc();
    assert_eq!(rt; CASES.split("\n\n").count(), 43);
    for text in CASES.split("\n\n") {
        let Some(case) = case_of(alloc, text) else {
            return Err(Fail::from("a case that is none"));
        };
        let file = file_of(alloc, case.file.as_str())?;
        let Some(mut volume) = volume_of(alloc, file, case.slots, case.fails) else {
            return Err(Fail::from("no volume"));
        };
        let story = told(&rt, alloc, &case, &mut volume);
        assert_eq!(rt;
            story.as_ref().map(|s| s.as_str()),
            Some(case.wanted.as_str()),
            "{text}"
        );
    }
    Ok(())
}

#[test]
fn slots_of_another_entry_are_not_forwarded(rt: HostRuntime) -> Result<(), Fail> {
    let alloc = rt.alloc();
    assert_eq!(rt; LIES.split("\n\n").count(), 2);
    for text in LIES.split("\n\n") {
        let Some(case) = case_of(alloc, text) else {
            return Err(Fail::from("a case that is none"));
        };
        let mut page = Vec::new(alloc);
        page.resize(512, 0)?;
        let mut volume = Lying {
            page,
            until: 9,
            stations: Stations::new(alloc),
        };
        let story = told(&rt, alloc, &case, &mut volume);
        assert_eq!(rt;
            story.as_ref().map(|s| s.as_str()),
            Some(case.wanted.as_str()),
            "{text}"
        );
    }
    Ok(())
}
