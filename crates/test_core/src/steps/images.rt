// Cores over files that were made by hand: what a rebuild keeps of them stands.
use crate::player::play;
use core_state::Core;
use std::alloc::Global;
use test_core_kit::{core_over, patched_base};

/// Files, by what is patched in the base, which has 4 slots where a line `slots` says no other number, and all words
/// that a core of so many anchors must have, in hexadecimal:
///
/// - at each anchor its own word, with the version in front of the stage, the key, the offer and the start. What
///   stands is closed. The key's last byte of a half is in front, the offer is the first slot, and the start 1 more;
/// - of each slot a link, which is 1 at the end of a chain, 2 more than the next slot where it goes on, or 0, and a
///   turn that is free;
/// - the words of the map, in which the bit of each slot of an entry is set;
/// - the counter of versions, and that of logged pieces.
///
/// A line `zeros` stands for as many words that are 0.
///
/// Of 4 anchors `http://a/b` has number 1, and `http://a/c` number 2. Of 2 anchors these are 1 and 0.
const FILES: &str = "\
file no sane slot
patch 0 24 00
patch 1 24 00
patch 2 24 00 00
anchor 0 0 0 0 0
anchor 0 0 0 0 0
anchor 0 0 0 0 0
anchor 0 0 0 0 0
links 0 0 0 0 0 0 0 0
map 0
counter 0
logged 0

file one slot
patch 0 24 00
patch 2 24 00 00
anchor 0 0 0 0 0
anchor 0 0 0 0 0
anchor 300030000 99726d8b34c97748 b8809c836f8913e2 1 2
anchor 0 0 0 0 0
links 0 0 1 0 0 0 0 0
map 2
counter 3
logged 0

file two slots, the second one in front
patch 1 24 00
anchor 0 0 0 0 0
anchor 700030000 66328b6c0dc1681a d16d863cf575c757 2 3
anchor 0 0 0 0 0
anchor 0 0 0 0 0
links 1 0 0 0 2 0 0 0
map 5
counter 7
logged 0

file three slots, and another entry
patch 2 36 03
patch 3 0 1a 68 c1 0d 6c 8b 32 66 57 c7 75 f5 3c 86 6d d1
patch 3 16 00 00 00 00 00 00 00 00 d8 01 00 00 07 00 00 00 02 00 00 00 00 00 00 00
patch 3 40 03 2a 00 00 00 03 10 00 00 00 1a 68 c1 0d 6c 8b 32 66 57 c7 75 f5 3c 86 6d d1 04 0b 00 00 00 68
patch 3 72 74 74 70 3a 2f 2f 61 2f 62 00
patch 3 82 68 65 6c 6c 6f
patch 0 16 b5 03
anchor 0 0 0 0 0
anchor 700030000 66328b6c0dc1681a d16d863cf575c757 2 3
anchor 300030000 99726d8b34c97748 b8809c836f8913e2 1 2
anchor 0 0 0 0 0
links 1 0 1 0 5 0 2 0
map f
counter 7
logged 0

file two anchors
anchor 300030000 99726d8b34c97748 b8809c836f8913e2 1 2
anchor 700030000 66328b6c0dc1681a d16d863cf575c757 2 3
links 1 0 1 0 2 0 0 0
map 7
counter 7
logged 0

file one anchor: the newer wins
anchor 700030000 66328b6c0dc1681a d16d863cf575c757 2 3
links 1 0 0 0 2 0 0 0
map 5
counter 7
logged 0

file one anchor: the other is newer
patch 1 28 09
anchor 900030000 99726d8b34c97748 b8809c836f8913e2 1 2
links 0 0 1 0 0 0 0 0
map 2
counter 9
logged 0

file one anchor and version: the lower first slot wins
patch 1 28 07
anchor 700030000 99726d8b34c97748 b8809c836f8913e2 1 2
links 0 0 1 0 0 0 0 0
map 2
counter 7
logged 0

file a chain that does not end, and its last slot is the newest
patch 0 28 08
anchor 0 0 0 0 0
anchor 0 0 0 0 0
anchor 300030000 99726d8b34c97748 b8809c836f8913e2 1 2
anchor 0 0 0 0 0
links 0 0 1 0 0 0 0 0
map 2
counter 8
logged 0

file the last slot of a chain is not sane
patch 0 28 01 00 ff ff
anchor 0 0 0 0 0
anchor 0 0 0 0 0
anchor 300030000 99726d8b34c97748 b8809c836f8913e2 1 2
anchor 0 0 0 0 0
links 0 0 1 0 0 0 0 0
map 2
counter 7
logged 0

file the newest slot is in no entry
patch 3 0 1a 68 c1 0d 6c 8b 32 66 57 c7 75 f5 3c 86 6d d1
patch 3 16 2f 00 00 00 00 00 00 00 2f 00 00 00 07 00 00 00 00 00 00 00 ff ff ff ff
patch 3 40 03 2a 00 00 00 03 10 00 00 00 1a 68 c1 0d 6c 8b 32 66 57 c7 75 f5 3c 86 6d d1 04 0b 00 00 00 68
patch 3 72 74 74 70 3a 2f 2f 61 2f 62 00
patch 3 82 68 65 6c 6c 6f
patch 3 28 63 00 00 00 03
patch 3 16 00
anchor 0 0 0 0 0
anchor 700030000 66328b6c0dc1681a d16d863cf575c757 2 3
anchor 300030000 99726d8b34c97748 b8809c836f8913e2 1 2
anchor 0 0 0 0 0
links 1 0 1 0 2 0 0 0
map 7
counter 63
logged 0

file more slots than a word has bits
slots 70
patch 1 24 00
patch 2 24 00 00
patch 66 0 1a 68 c1 0d 6c 8b 32 66 57 c7 75 f5 3c 86 6d d1
patch 66 16 00 00 00 00 00 00 00 00 d8 01 00 00 07 00 00 00 42 00 00 00 00 00 00 00
patch 66 40 03 2a 00 00 00 03 10 00 00 00 1a 68 c1 0d 6c 8b 32 66 57 c7 75 f5 3c 86 6d d1 04 0b 00 00 00 68
patch 66 72 74 74 70 3a 2f 2f 61 2f 62 00
patch 0 32 42
anchor 700030000 66328b6c0dc1681a d16d863cf575c757 42 43
links 1 0
zeros 130
links 2 0
zeros 6
map 1 4
counter 7
logged 0
";

/// A core of one pass over the base with the patches of a text.
fn core_of(alloc: Global, patches: &str, anchors: u32) -> Option<Core> {
    core_over(alloc, &patched_base(alloc, patches)?, anchors, 1)
}

/// Adds the words that a line names behind its first word, where it is of words.
fn push_words(words: &mut Vec<u64>, line: &str) -> Option<()> {
    if line.starts_with("patch ") || line.starts_with("slots ") {
        return Some(());
    }
    if let Some(zeros) = line.strip_prefix("zeros ") {
        let zeros: usize = zeros.parse().ok()?;
        return words.resize(words.len().saturating_add(zeros), 0).ok();
    }
    for word in line.split(' ').skip(1) {
        words.push(u64::from_str_radix(word, 16).ok()?).ok()?;
    }
    Some(())
}

/// Whether a core over this file has the words that stand there.
fn is_kept(alloc: Global, file: &str) -> Option<bool> {
    let mut words = Vec::new(alloc);
    let mut anchors = 0u32;
    for line in file.lines().skip(1) {
        if line.starts_with("anchor ") {
            anchors = anchors.saturating_add(1);
        }
        push_words(&mut words, line)?;
    }
    let core = core_of(alloc, file, anchors)?;
    Some(core.words() == words.as_slice())
}

#[test]
fn what_a_rebuild_keeps_stands(rt: HostRuntime) {
    assert_eq!(rt; FILES.split("\n\n").count(), 12);
    for file in FILES.split("\n\n") {
        assert!(rt; is_kept(rt.alloc(), file) == Some(true), "{file}");
    }
}

/// The steps of a reader of `http://a/b`, and of the tabs that give its slots back. Its key is that of the base.
const READ_AND_EVICTED: &str = "\
stage read and evicted
# A reader finds the key, the offer and the start, and the link of its first slot.
0 0 2 1 0 = word 7 3 0
0 0 9 0 0 = 7364101636907690010
0 0 9 1 0 = 15090865522762696535
0 0 9 2 0 = 2
0 0 9 3 0 = 3
0 0 13 0 0 = refused
0 0 13 2 0 = 2
# It leaves, and the entry is idle and evicted.
0 0 3 0 0 = word 7 3 0
0 0 1 1 0 = word 7 3 0
0 8 6 1 0 = word 7 3 0
# The inner tab gives the slots back in order, each once it has looked at its link.
0 8 13 0 0 = refused
0 8 12 2 0 = refused
0 8 13 2 0 = 2
0 8 12 2 0 = 2
0 8 11 2 0 = 7
0 8 7 0 6 = refused
0 8 13 0 0 = 1
0 8 12 0 0 = 1
0 8 11 0 0 = 3
0 8 7 0 6 = word 7 6 0
# The next entry there has a version that no slot of the file had.
0 0 4 0 0 = 7
0 0 1 1 0 = word 7 6 0
0 0 4 0 0 = 7
0 0 5 0 0 = 7
0 0 6 1 8 = word 7 6 0
# Slots that were given back may be reserved, and that of the other entry may not.
0 0 10 1 0 = 2
0 0 10 2 0 = 2
0 0 10 0 0 = 6
made 28
";

#[test]
fn an_entry_that_was_kept_is_read_and_evicted(rt: HostRuntime) {
    let Some(mut core) = core_of(rt.alloc(), "", 4) else {
        assert!(rt; false, "no core");
        return;
    };
    play(&rt, rt.alloc(), &mut core, READ_AND_EVICTED);
}
