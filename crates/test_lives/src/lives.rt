mod rows;
mod wiping;

use core_lives::Life;
use core_state::{Picks, Step};
use rows::{LIVES, OVER_A_FILE};
use std::alloc::Global;
use std::process::Abort;
use test_core_kit::{
    SLOT, act_in, answer_in, life_over, live, numbers, parted, patched_base, standing,
};

/// The life that the head of a script asks for, `life SLOTS ANCHORS PASSES`, and the rows of the script.
fn script_of(alloc: Global, script: &str) -> Option<(Life, &str)> {
    let (head, rows) = parted(script, "\n")?;
    let [slots, anchors, passes] = numbers::<3>(head.strip_prefix("life ")?)?;
    let slots = u32::try_from(slots).ok()?;
    let (anchors, passes) = (u32::try_from(anchors).ok()?, u32::try_from(passes).ok()?);
    let mut bytes = Vec::new(alloc);
    bytes.resize(slots as usize * SLOT, 0).ok()?;
    let life = life_over(alloc, &bytes, anchors, passes)?;
    Some((life, rows))
}

/// The step of a row: `crash NUMBER ..`, `rebuild`, or a step of a pass.
fn step_in(alloc: Global, text: &str) -> Option<Step> {
    if text == "rebuild" {
        return Some(Step::Rebuild);
    }
    let Some(numbers) = text.strip_prefix("crash ") else {
        return Some(Step::Act(act_in(text)?));
    };
    let mut picks = Vec::new(alloc);
    for number in numbers.split(' ') {
        picks.push(number.parse().ok()?).ok()?;
    }
    Some(Step::Crash {
        picks: Picks::from_vec(picks),
    })
}

/// Its kind.
fn kind_of(step: &Step) -> u8 {
    match step {
        Step::Act(act) => act.kind,
        Step::Crash { .. } => 23,
        Step::Rebuild => 24,
    }
}

/// What the line should be that tells the chain of anchor 0, or one that `play` knows, or that tells the counter of
/// versions.
fn told(alloc: Global, life: &Life, line: &str) -> Option<String> {
    let core = life.core();
    if line.starts_with("chain ") {
        let slots = core.chains().first()?.slots.as_slice();
        return format!(in alloc; "chain {slots:?}").ok();
    }
    if line.starts_with("counter ") {
        let [.., counter, _] = core.words() else {
            return None;
        };
        return format!(in alloc; "counter {counter}").ok();
    }
    standing(alloc, core, line)
}

/// Lets the rows of a script happen, and compares what each answers, and what else the text says.
fn play_life<R: Abort>(rt: &R, alloc: Global, life: &mut Life, text: &str) {
    for line in text.lines() {
        if let Some((row, answer)) = parted(line, " = ") {
            let Some(step) = step_in(alloc, row) else {
                assert!(rt; false, "no step is {row}");
                return;
            };
            let wanted = answer_in(kind_of(&step), answer);
            let found = live(life, &step);
            assert!(rt; Some(found) == wanted, "{row}: {found:?}");
        } else if !line.starts_with("# ") {
            let stands = told(alloc, life, line).unwrap_or(String::new(alloc));
            assert!(rt; stands.as_str() == line, "{line}, and not {stands}");
        }
    }
}

#[test]
fn lives_go_on_as_their_rows_say(rt: HostRuntime) {
    assert_eq!(rt; LIVES.split("\n\n").count(), 5);
    for script in LIVES.split("\n\n") {
        let Some((mut life, rows)) = script_of(rt.alloc(), script) else {
            assert!(rt; false, "a script begins with no life: {script}");
            return;
        };
        play_life(&rt, rt.alloc(), &mut life, rows);
    }
}

/// A life of one pass over the base of the images, with one anchor.
fn life_over_the_base(alloc: Global) -> Option<Life> {
    life_over(alloc, &patched_base(alloc, "")?, 1, 1)
}

#[test]
fn an_entry_of_the_file_stands_while_its_slots_do(rt: HostRuntime) {
    let Some(mut life) = life_over_the_base(rt.alloc()) else {
        assert!(rt; false, "no life");
        return;
    };
    play_life(&rt, rt.alloc(), &mut life, OVER_A_FILE);
}
