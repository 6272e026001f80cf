use rock_io::{
    Failed, MemSink, MemSource, Numbers, Octets, Sink, Source, StdSink, StdSource, Words, write_all,
};
use std::alloc::Global;
use std::io;
use std::io::{Cursor, Read, Write};
use test_rows::fields;

/// Takes no byte.
#[derive(Drop)]
struct Stuck;

impl Write for Stuck {
    fn write(&mut self, _bytes: &[u8]) -> io::Result<usize> {
        Ok(0)
    }

    fn flush(&mut self) -> io::Result<()> {
        Ok(())
    }
}

/// Fails at each call.
#[derive(Drop)]
struct Broken;

impl Read for Broken {
    fn read(&mut self, _buf: &mut [u8]) -> io::Result<usize> {
        Err(io::Error::from(io::ErrorKind::BrokenPipe))
    }
}

impl Write for Broken {
    fn write(&mut self, _bytes: &[u8]) -> io::Result<usize> {
        Err(io::Error::from(io::ErrorKind::BrokenPipe))
    }

    fn flush(&mut self) -> io::Result<()> {
        Ok(())
    }
}

fn is_send<T: Send + Drop>(_value: T) {}

/// What a call of a source answers, and what it leaves in a buffer of four bytes.
fn given<S: Source>(alloc: Global, source: &mut S) -> Option<String> {
    let mut buf = *b"....";
    let answer = source.read(&mut buf);
    let left = str::from_utf8(&buf).ok()?;
    format!(in alloc; "{answer:?};{left}").ok()
}

/// Whether the next call gives what stands in the row.
fn gives<S: Source>(alloc: Global, source: &mut S, row: &str) -> bool {
    match given(alloc, source) {
        Some(told) => told.as_str() == row,
        None => false,
    }
}

// What the calls give of eight bytes in pieces of three, where call 1 fails.
const PIECES: &str = "\
Ok(3);abc.
Err(Failed);....
Ok(3);def.
Ok(2);gh..
Ok(0);....
Ok(0);....";

/// A source of eight bytes that gives pieces of three, and fails call 1.
fn pieces(alloc: Global) -> Option<MemSource> {
    let mut fail = Vec::new(alloc);
    fail.push(1).ok()?;
    Some(MemSource::new(b"abcdefgh".to_vec(alloc).ok()?, 3, fail))
}

#[test]
fn mem_source_gives_pieces_to_the_end(rt: HostRuntime) {
    let Some(mut source) = pieces(rt.alloc()) else {
        assert!(rt; false, "no source");
        return;
    };
    assert_eq!(rt; PIECES.lines().count(), 6);
    for row in PIECES.lines() {
        assert!(rt; gives(rt.alloc(), &mut source, row), "{row}");
    }
}

// What the calls give where the reader has five bytes.
const READ: &str = "\
Ok(4);abcd
Ok(1);e...
Ok(0);....";

#[test]
fn std_source_gives_what_the_reader_gives(rt: HostRuntime) {
    let mut source = StdSource::new(b"abcde".as_slice());
    assert_eq!(rt; READ.lines().count(), 3);
    for row in READ.lines() {
        assert!(rt; gives(rt.alloc(), &mut source, row), "{row}");
    }
    assert!(rt; gives(rt.alloc(), &mut StdSource::new(Broken), "Err(Failed);...."));
}

// The room of a sink, the call that fails, if one does, the answers, and what the sink then holds. The write of no byte is
// call 0.
const TAKEN: &str = "\
9;;Ok(0) Ok(());abcdefg
9;3;Ok(0) Err(Failed);abcd
5;;Ok(0) Err(Failed);abcde
0;;Ok(0) Err(Failed);";

/// What a sink of this room answers that fails this call, and what it holds.
fn taken(alloc: Global, room: &str, call: &str) -> Option<String> {
    let mut fail = Vec::new(alloc);
    if !call.is_empty() {
        fail.push(call.parse().ok()?).ok()?;
    }
    let mut sink = MemSink::new(alloc, room.parse().ok()?, 2, fail).ok()?;
    let none = sink.write(b"");
    let answer = write_all(&mut sink, b"abcdefg");
    let taken = str::from_utf8(sink.taken()).ok()?;
    format!(in alloc; "{none:?} {answer:?};{taken}").ok()
}

/// Whether a sink answers and holds what stands in the row.
fn takes(alloc: Global, row: &str) -> Option<bool> {
    let (room, rest) = fields(row)?;
    let (call, wanted) = fields(rest)?;
    Some(taken(alloc, room, call)?.as_str() == wanted)
}

#[test]
fn mem_sink_keeps_a_first_part(rt: HostRuntime) {
    assert_eq!(rt; TAKEN.lines().count(), 4);
    for row in TAKEN.lines() {
        assert!(rt; takes(rt.alloc(), row) == Some(true), "{row}");
    }
}

/// Whether the writer has all bytes of the text that was handed to it.
fn is_handed_on(alloc: Global, text: &str) -> bool {
    let mut written = Vec::new(alloc);
    let mut sink = StdSink::new(&mut written);
    let is_taken = write_all(&mut sink, text.as_bytes()).is_ok();
    is_taken && written.as_slice() == text.as_bytes()
}

#[test]
fn std_sink_hands_all_to_the_writer(rt: HostRuntime) {
    assert!(rt; is_handed_on(rt.alloc(), "abc"));
    let mut sink = StdSink::new(Stuck);
    assert!(rt; sink.write(b"") == Ok(0));
    assert!(rt; sink.write(b"a") == Err(Failed));
    let mut sink = StdSink::new(Broken);
    assert!(rt; write_all(&mut sink, b"a") == Err(Failed));
}

/// Whether a list of the bytes of a text gives them back.
fn are_bytes_given_back(alloc: Global, text: &str) -> Option<bool> {
    let bytes = Octets::from_vec(text.as_bytes().to_vec(alloc).ok()?);
    let is_seen = bytes.as_slice() == text.as_bytes();
    Some(is_seen && bytes.into_vec().as_slice() == text.as_bytes())
}

/// Whether a list of one number gives it back.
fn is_number_given_back(alloc: Global, number: u32) -> Option<bool> {
    let mut list = Vec::new(alloc);
    list.push(number).ok()?;
    let numbers = Numbers::from_vec(list);
    let is_seen = numbers.as_slice() == [number].as_slice();
    Some(is_seen && numbers.into_vec().as_slice() == [number].as_slice())
}

/// Whether a list of one word gives it back.
fn is_word_given_back(alloc: Global, word: &str) -> Option<bool> {
    let mut list = Vec::new(alloc);
    list.push(String::from_str(alloc, word).ok()?).ok()?;
    let words = Words::from_vec(list);
    let is_alone = words.as_slice().len() == 1;
    Some(is_alone && words.into_vec().pop()?.as_str() == word)
}

#[test]
fn lists_give_back_what_they_took(rt: HostRuntime) {
    let alloc = rt.alloc();
    assert!(rt; are_bytes_given_back(alloc, "two") == Some(true));
    assert!(rt; is_number_given_back(alloc, 70_000) == Some(true));
    assert!(rt; is_word_given_back(alloc, "one") == Some(true));
}

/// Whether values of these types may be sent to another thread, which is shown before this is run.
fn are_sent(alloc: Global) -> Option<()> {
    is_send(MemSource::new(Vec::new(alloc), 1, Vec::new(alloc)));
    is_send(MemSink::new(alloc, 1, 1, Vec::new(alloc)).ok()?);
    is_send(StdSource::new(Cursor::new(b"a".as_slice())));
    is_send(StdSink::new(Vec::<u8>::new(alloc)));
    Some(())
}

#[test]
fn sources_and_sinks_are_send(rt: HostRuntime) {
    assert!(rt; are_sent(rt.alloc()).is_some());
}
