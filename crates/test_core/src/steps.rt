mod images;
mod order;
mod other_rows;
mod rows;
mod search_rows;
mod searches;
mod slot_rows;
mod wiping_rows;

use crate::player::play;
use core_state::{Core, Picks, Step, StepFault};
use other_rows::{NO_STEPS, SECOND_WORD};
use rows::SCRIPTS;
use slot_rows::SLOT_SCRIPTS;
use std::alloc::Global;
use test_core_kit::{blank_core, make, numbers, parted};
use wiping_rows::WIPING;

/// The core that the head of a script asks for, `core SLOTS ANCHORS PASSES`, and the rows of the script.
fn script_of(alloc: Global, script: &str) -> Option<(Core, &str)> {
    let (head, rows) = parted(script, "\n")?;
    let [slots, anchors, passes] = numbers::<3>(head.strip_prefix("core ")?)?;
    let (slots, anchors) = (u32::try_from(slots).ok()?, u32::try_from(anchors).ok()?);
    let core = blank_core(alloc, slots, anchors, u32::try_from(passes).ok()?)?;
    Some((core, rows))
}

#[test]
fn steps_answer_as_their_rows_say(rt: HostRuntime) {
    assert_eq!(rt; SCRIPTS.split("\n\n").count(), 9);
    assert_eq!(rt; SLOT_SCRIPTS.split("\n\n").count(), 9);
    assert_eq!(rt; WIPING.split("\n\n").count(), 2);
    let scripts = SCRIPTS.split("\n\n").chain(SLOT_SCRIPTS.split("\n\n"));
    for script in scripts.chain(WIPING.split("\n\n")) {
        let Some((mut core, rows)) = script_of(rt.alloc(), script) else {
            assert!(rt; false, "a script begins with no core: {script}");
            return;
        };
        play(&rt, rt.alloc(), &mut core, rows);
    }
}

#[test]
fn what_is_no_step_of_a_pass_is_refused(rt: HostRuntime) {
    let Some(mut core) = blank_core(rt.alloc(), 2, 2, 2) else {
        assert!(rt; false, "no core");
        return;
    };
    play(&rt, rt.alloc(), &mut core, NO_STEPS);
    let picks = Picks::from_vec(Vec::new(rt.alloc()));
    let crash = make(&mut core, &Step::Crash { picks });
    assert!(rt; crash == Err(StepFault::NotAllowed { kind: 23 }));
    let rebuild = make(&mut core, &Step::Rebuild);
    assert!(rt; rebuild == Err(StepFault::NotAllowed { kind: 24 }));
}

/// The rows by which 32 writers take so many slots of the first word of the map in order, two slots each.
fn first_word(alloc: Global, taken: u32) -> Option<String> {
    let mut rows = String::new(alloc);
    let mut found = 0u64;
    let mut made = 0u32;
    for writer in 0..32u32 {
        let (pass, tab) = (writer / 8, writer % 8);
        let version = writer + 1;
        let begun = format!(in alloc;
            "{pass} {tab} 1 {writer} 0 = 0\n{pass} {tab} 4 0 0 = {writer}\n"
        ).ok()?;
        let drawn = format!(in alloc;
            "{pass} {tab} 5 0 0 = {writer}\n{pass} {tab} 6 {writer} {version} = 0\n"
        ).ok()?;
        rows.push_str(&begun).ok()?;
        rows.push_str(&drawn).ok()?;
        made = made.saturating_add(4);
        for slot in 2 * writer..2 * writer + 2 {
            if slot < taken {
                let reserved = format!(in alloc; "{pass} {tab} 10 {slot} 0 = {found}\n").ok()?;
                rows.push_str(&reserved).ok()?;
                found = found.wrapping_mul(2).wrapping_add(1);
                made = made.saturating_add(1);
            }
        }
    }
    let count = format!(in alloc; "made {made}\n").ok()?;
    rows.push_str(&count).ok()?;
    Some(rows)
}

#[test]
fn a_search_goes_on_in_the_next_word(rt: HostRuntime) {
    let alloc = rt.alloc();
    let (Some(mut core), Some(rows)) = (blank_core(alloc, 65, 33, 5), first_word(alloc, 64)) else {
        assert!(rt; false, "no core");
        return;
    };
    play(&rt, alloc, &mut core, &rows);
    play(&rt, alloc, &mut core, SECOND_WORD);
}
