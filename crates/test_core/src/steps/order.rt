// An entry's life across two workers, as docs/STATE-MACHINE.md draws it: two slots are written and read one
// after the other, the entry is doomed, and its last user frees it.
use crate::player::play;
use core_model::Piece;
use core_state::{Content, Core};
use link_word::Link;
use test_core_kit::blank_core;

/// The entry is at anchor 0, and in the slots 4 and 9 of ten.
const SLOTS: u32 = 10;

/// The entry's life. Its key is 77 and 78, its offer 123, and its start 5, which is one more than the first
/// slot. The link 11 is two more than the next slot, and the link 1 that of the last. In the map the bits of the
/// slots 4 and 9 are 16 and 512. A stage that is doomed is 8 more.
const LIFE: &str = "\
stage pass by
# Worker 1 draws five versions, and the fifth comes and goes at the anchor with no slot.
0 0 1 0 0 = 0
0 0 4 0 0 = 0
0 0 5 0 0 = 0
0 0 4 0 0 = 1
0 0 5 0 0 = 1
0 0 4 0 0 = 2
0 0 5 0 0 = 2
0 0 4 0 0 = 3
0 0 5 0 0 = 3
0 0 4 0 0 = 4
0 0 5 0 0 = 4
0 0 6 0 5 = 0
0 0 7 0 4 = word 5 4 0
0 0 6 0 0 = word 5 4 0
0 8 7 0 6 = word 5 6 0
stands 5 6 0
made 15
stage begin
# Worker 1 takes the anchor, names its entry, and reserves two slots.
0 0 1 0 0 = word 5 6 0
0 0 4 0 0 = 5
0 0 5 0 0 = 5
0 0 6 0 6 = word 5 6 0
0 0 9 4 77 = 0
0 0 9 5 78 = 0
0 0 9 6 123 = 0
0 0 9 7 0 = 0
0 0 10 4 0 = 0
0 0 10 9 0 = 16
stands 6 1 0
made 10
stage publish first
# It logs and writes its first piece and publishes that slot, and so the entry.
0 0 14 4 0 = 0
0 0 15 4 0 = 0
0 0 17 4 0 = 0
0 0 21 4 1 = 0
0 0 18 4 0 = 0
0 0 12 4 11 = refused
0 0 16 4 0 = 1
0 0 12 4 11 = 0
0 0 9 7 5 = 0
0 0 7 0 2 = word 6 2 0
stands 6 2 0
made 10
stage read first
# Worker 2 reads the first slot, and finds that the second is not written.
1 3 2 0 0 = word 6 2 0
1 3 9 0 0 = 77
1 3 9 1 0 = 78
1 3 9 2 0 = 123
1 3 9 3 0 = 5
1 3 15 4 0 = refused
1 3 13 4 0 = 11
1 3 15 4 0 = 0
1 3 17 4 0 = 0
1 3 18 4 0 = 0
1 3 16 4 1 = 1
1 3 13 9 0 = 0
1 3 15 9 0 = refused
stands 6 2 1
made 13
stage publish second
# While worker 1 writes the second slot, worker 2 does not read it.
0 0 14 9 0 = 1
0 0 15 9 0 = 0
0 0 17 9 0 = 0
1 3 13 9 0 = 0
1 3 15 9 0 = refused
1 3 17 9 0 = refused
0 0 21 9 1 = 0
0 0 18 9 0 = 0
0 0 16 9 0 = 1
1 3 13 9 0 = 0
1 3 15 9 0 = refused
0 0 12 9 1 = 0
0 0 7 0 3 = word 6 3 1
stands 6 3 1
made 13
stage read second
# Worker 2 reads the second slot. Behind it there is none.
1 3 13 9 0 = 1
1 3 15 9 0 = 0
1 3 17 9 0 = 0
1 3 18 9 0 = 0
1 3 16 9 1 = 1
1 3 13 9 0 = refused
stands 6 3 1
made 6
stage purge
# Worker 1 purges the entry, and leaves it.
0 0 2 0 0 = word 6 3 1
0 0 9 0 0 = 77
0 0 9 1 0 = 78
0 0 8 0 0 = word 6 11 2
0 0 3 0 0 = word 6 11 1
# It is not the last user, and frees nothing.
0 0 6 0 0 = refused
stands 6 11 1
made 6
stage free
# Worker 2 is the last user, and gives both slots back.
1 3 3 0 0 = word 6 11 0
1 3 6 0 0 = word 6 11 0
1 8 13 4 0 = 11
1 8 12 4 0 = 11
1 8 11 4 0 = 528
1 8 7 0 6 = refused
1 8 13 9 0 = 1
1 8 12 9 0 = 1
1 8 11 9 0 = 512
1 8 7 0 6 = word 6 14 0
stands 6 14 0
made 10
";

/// Whether the cell of a slot is home, and has this piece or what was there at the opening before.
fn has_piece(core: &Core, slot: u32, place: u32, next: Link) -> bool {
    let Some(Some(cell)) = core.places().get(slot as usize) else {
        return false;
    };
    let piece = Content::Offered(Piece {
        offer: 123,
        version: 6,
        place,
        first: 4,
        next,
    });
    let opened = Content::Opened { slot };
    cell.now == piece && cell.possible.as_slice() == [piece, opened].as_slice()
}

#[test]
fn an_entry_is_written_read_purged_and_freed_by_two_passes(rt: HostRuntime) {
    let Some(mut core) = blank_core(rt.alloc(), SLOTS, 1, 2) else {
        assert!(rt; false, "no core");
        return;
    };
    play(&rt, rt.alloc(), &mut core, LIFE);
    assert!(rt; has_piece(&core, 4, 0, Link::Next(9)));
    assert!(rt; has_piece(&core, 9, 1, Link::Last));
    // No slot is taken, or has a link or a turn, any more, six versions were drawn, and two pieces logged.
    let [slots @ .., drawn, logged] = core.words().get(5..).unwrap_or(&[]) else {
        assert!(rt; false, "no counters");
        return;
    };
    assert!(rt; slots.iter().all(|word| *word == 0), "{slots:?}");
    assert_eq!(rt; (*drawn, *logged), (6, 2));
}
