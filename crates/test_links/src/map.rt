use link_word::{first_clear, is_set, map_bit, map_place, map_words, next_free};
use std::alloc::Global;
use test_rows::{fields, numbers, short};

// How many slots, and how many words their map has.
const MAPS: &str = "\
0;0
1;1
63;1
64;1
65;2
128;2
129;3
130;3
1048576;16384
4294967295;67108864";

// A slot, and its word, its bit and the word with this bit alone.
const PLACES: &str = "\
0;0 0 1
1;0 1 2
63;0 63 0x8000000000000000
64;1 0 1
129;2 1 2
4294967295;67108863 63 0x8000000000000000";

// A word, the bit where a search begins and the one behind those that it looks at, and the bit that it finds.
const SEARCHES: &str = "\
0 0 64;Some(0)
0 5 64;Some(5)
0 63 64;Some(63)
0 64 64;None
0 0 0;None
0xffffffffffffffff 0 64;None
0xffffffffffffffff 64 64;None
0xfffffffffffffffe 0 64;Some(0)
0xfffffffffffffffe 1 64;None
0x7fffffffffffffff 0 64;Some(63)
0x7fffffffffffffff 0 63;None
0x7fffffffffffffff 63 64;Some(63)
0xfffffffffffffdff 0 64;Some(9)
0xfffffffffffffdff 9 64;Some(9)
0xfffffffffffffdff 10 64;None
0xfffffffffffffdff 0 9;None
0xfffffffffffffdff 0 10;Some(9)
0xfffffffffffffd7f 8 64;Some(9)";

// The word of a slot's map, the slot where a search goes on, and the slot that it comes to.
const FREE: &str = "\
0 0;0
0 129;129
1 128;129
3 128;130
0xffffffffffffffff 64;128
0x7fffffffffffffff 64;127
0xfffffffffffffffe 65;128
0xffffffffffffffff 4294967295;4294967296";

fn has_words(row: &str) -> Option<bool> {
    let (slots, words) = fields(row)?;
    let ([slots], [words]) = (numbers::<1>("", slots)?, numbers::<1>("", words)?);
    Some(u64::from(map_words(short(slots))) == words)
}

/// Whether a slot has its place in the map, and a word with its bit alone has that bit and no other one.
fn has_place(row: &str) -> Option<bool> {
    let (slot, place) = fields(row)?;
    let ([slot], [word, bit, bits]) = (numbers::<1>("", slot)?, numbers::<3>("", place)?);
    let (slot_word, slot_bit) = map_place(short(slot));
    let is_alone = (0..64).all(|other| is_set(bits, other) == (u64::from(other) == bit));
    Some(
        u64::from(slot_word) == word
            && u64::from(slot_bit) == bit
            && slot_bit < 64
            && map_bit(slot_bit) == bits
            && is_alone,
    )
}

fn finds(alloc: Global, row: &str) -> Option<bool> {
    let (search, wanted) = fields(row)?;
    let [bits, from, below] = numbers::<3>("", search)?;
    let (from, below) = (short(from), short(below));
    if from > below || below > 64 {
        return None;
    }
    let told = format!(in alloc; "{:?}", first_clear(bits, from, below)).ok()?;
    Some(told.as_str() == wanted)
}

fn goes_on(row: &str) -> Option<bool> {
    let (search, wanted) = fields(row)?;
    let ([bits, slot], [wanted]) = (numbers::<2>("", search)?, numbers::<1>("", wanted)?);
    Some(next_free(bits, short(slot)) == wanted)
}

#[test]
fn slots_have_their_bits_in_the_map(rt: HostRuntime) {
    assert_eq!(rt; MAPS.lines().count(), 10);
    for row in MAPS.lines() {
        assert!(rt; has_words(row) == Some(true), "{row}");
    }
    assert_eq!(rt; PLACES.lines().count(), 6);
    for row in PLACES.lines() {
        assert!(rt; has_place(row) == Some(true), "{row}");
    }
}

#[test]
fn a_search_finds_the_least_clear_bit(rt: HostRuntime) {
    assert_eq!(rt; SEARCHES.lines().count(), 18);
    for row in SEARCHES.lines() {
        assert!(rt; finds(rt.alloc(), row) == Some(true), "{row}");
    }
    assert_eq!(rt; FREE.lines().count(), 8);
    for row in FREE.lines() {
        assert!(rt; goes_on(row) == Some(true), "{row}");
    }
}
