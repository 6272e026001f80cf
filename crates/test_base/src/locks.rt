use crate::rows::numbers;
use lock_word::{
    Cause, Epoch, Stage, Word, cause_of, is_idle, is_idle_number, is_left_over,
    is_left_over_number, is_readable_number, is_vacant, is_vacant_number, pack, readable, unpack,
    word_of,
};
use std::alloc::Global;
use test_rows::short;

/// A word of these numbers: its version, whether it is doomed, its stage and its readers.
fn word(numbers: [u64; 4]) -> Option<Word> {
    let [version, doom, stage, readers] = numbers;
    let epoch = Epoch {
        version: short(version),
        doom: doom == 1,
        stage: Stage::from_number(stage)?,
    };
    Some(Word {
        epoch,
        readers: u16::try_from(readers).ok()?,
    })
}

// Words and their bits.
const WORDS: &str = "\
1 false Closed 1 0x0000000100030001
1 true Closed 0 0x00000001000b0000
1 true Gone 0 0x00000001000e0000
0 false Empty 0 0
2 false Taken 3 0x0000000200010003
7 false Appending 288 0x0000000700020120
7 true Halted 1 0x00000007000c0001
7 false Freeing 0 0x0000000700050000
0xffffffff true Gone 0xffff 0xffffffff000effff";

/// Whether a word has its bits, and its stage the name that stands in the row.
fn has_its_bits(alloc: Global, row: &str) -> Option<bool> {
    let [version, doom, stage, readers, bits] = numbers::<5>(row)?;
    let word = word([version, doom, stage, readers])?;
    let name = format!(in alloc; " {:?} ", word.epoch.stage).ok()?;
    Some(pack(&word) == bits && unpack(bits) == Some(word) && row.contains(name.as_str()))
}

#[test]
fn words_have_their_bits(rt: HostRuntime) {
    assert_eq!(rt; WORDS.lines().count(), 9);
    for row in WORDS.lines() {
        assert!(rt; has_its_bits(rt.alloc(), row) == Some(true), "{row}");
    }
}

// Bits of no word.
const NO_WORDS: &str = "\
0x0000000000070000
0x00000001000f0001
0x0000000100130000
0x0000000180030000
0x00000001fff30000
0xffffffffffffffff";

/// Whether the bits of a row are those of no word.
fn is_no_word(row: &str) -> Option<bool> {
    let [bits] = numbers::<1>(row)?;
    Some(unpack(bits).is_none())
}

#[test]
fn no_word_has_stage_7_or_a_reserved_bit(rt: HostRuntime) {
    assert_eq!(rt; NO_WORDS.lines().count(), 6);
    for row in NO_WORDS.lines() {
        assert!(rt; is_no_word(row) == Some(true), "{row}");
    }
}

// Words, each of a greater epoch than the one before it.
const RISING: &str = "\
0 false Empty 0
1 false Taken 0
1 false Appending 0
1 false Gone 0
1 true Appending 0
1 true Closed 0
2 false Taken 0
0xffffffff false Taken 0";

/// Whether the first row has the lower epoch.
fn is_lower(low: &str, high: &str) -> Option<bool> {
    let (low, high) = (word(numbers::<4>(low)?)?, word(numbers::<4>(high)?)?);
    Some(low.epoch < high.epoch)
}

#[test]
fn epochs_rise_by_version_then_doom_then_stage(rt: HostRuntime) {
    assert_eq!(rt; RISING.lines().count(), 8);
    for (low, high) in RISING.lines().zip(RISING.lines().skip(1)) {
        assert!(rt; is_lower(low, high) == Some(true), "{low}, {high}");
    }
}

// A word, and whether it is readable, idle, vacant and left over.
const ALLOWED: &str = "\
1 false Empty 0 false false true false
1 false Empty 1 false false false false
1 false Taken 0 false false false false
1 false Appending 0 true false false false
1 true Appending 0 false false false false
1 false Closed 0 true true false false
1 false Closed 1 true false false false
1 true Closed 0 false false false true
1 true Closed 1 false false false false
1 false Halted 0 false false false true
1 true Halted 0 false false false true
1 false Halted 1 false false false false
1 false Freeing 0 false false false false
1 true Gone 0 false false true false
1 false Gone 1 false false false false";

/// Whether a word, and its bits alone, allow what stands in the row.
fn allows(row: &str) -> Option<bool> {
    let [version, doom, stage, readers, may_read, idle, vacant, left] = numbers::<8>(row)?;
    let word = word([version, doom, stage, readers])?;
    let bits = pack(&word);
    let wanted = [may_read == 1, idle == 1, vacant == 1, left == 1];
    let told = [
        readable(&word.epoch),
        is_idle(&word),
        is_vacant(&word),
        is_left_over(&word),
    ];
    let by_bits = [
        is_readable_number(bits),
        is_idle_number(bits),
        is_vacant_number(bits),
        is_left_over_number(bits),
    ];
    Some(word_of(bits) == word && told == wanted && by_bits == wanted)
}

#[test]
fn what_words_allow(rt: HostRuntime) {
    assert_eq!(rt; ALLOWED.lines().count(), 15);
    for row in ALLOWED.lines() {
        assert!(rt; allows(row) == Some(true), "{row}");
    }
}

const KEY: [u8; 16] = *b"\x00\x01\x02\x03\x04\x05\x06\x07\x08\x09\x0a\x0b\x0c\x0d\x0e\x0f";

const OTHER: [u8; 16] = *b"\x00\x01\x02\x03\x04\x05\x06\x07\x08\x09\x0a\x0b\x0c\x0d\x0e\x10";

/// Whether a cause is the one of this number, with this epoch and the key. 0 is a hit.
fn is_cause(cause: Option<Cause>, number: u64, epoch: Epoch) -> bool {
    match number {
        0 => cause.is_none(),
        1 => cause == Some(Cause::Absent { epoch }),
        2 => cause == Some(Cause::Writing { epoch }),
        3 => cause == Some(Cause::Leaving { epoch }),
        4 => cause == Some(Cause::OtherKey { epoch, key: KEY }),
        _ => false,
    }
}

// A word, and the causes for its key and for another one.
const CAUSES: &str = "\
5 false Empty 0 absent absent
5 true Empty 0 absent absent
5 false Taken 0 writing writing
5 true Taken 0 writing writing
5 false Appending 0 hit other_key
5 true Appending 0 leaving leaving
5 false Closed 0 hit other_key
5 true Closed 0 leaving leaving
5 false Halted 0 leaving leaving
5 true Halted 0 leaving leaving
5 false Freeing 0 leaving leaving
5 true Freeing 0 leaving leaving
5 false Gone 0 absent absent
5 true Gone 0 absent absent";

/// Whether the causes are those of the row.
fn has_its_causes(row: &str) -> Option<bool> {
    let [version, doom, stage, readers, own, other] = numbers::<6>(row)?;
    let epoch = word([version, doom, stage, readers])?.epoch;
    let (hit, miss) = (cause_of(&epoch, &KEY, &KEY), cause_of(&epoch, &KEY, &OTHER));
    Some(is_cause(hit, own, epoch) && is_cause(miss, other, epoch))
}

#[test]
fn causes_come_in_order(rt: HostRuntime) {
    assert_eq!(rt; CAUSES.lines().count(), 14);
    for row in CAUSES.lines() {
        assert!(rt; has_its_causes(row) == Some(true), "{row}");
    }
}
