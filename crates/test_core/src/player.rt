// A player of rows of text, whose lines `rows` of test_core_kit reads.
use core_state::{Core, Step};
use std::alloc::Global;
use std::process::Abort;
use test_core_kit::{act_in, answer_in, make, parted, standing};

/// Makes the steps of a text in order, and compares what each answers, and what else the text says.
pub(crate) fn play<R: Abort>(rt: &R, alloc: Global, core: &mut Core, text: &str) {
    let mut stage = "";
    let mut made: u32 = 0;
    let mut is_counted = false;
    for line in text.lines() {
        is_counted = false;
        if let Some((step, answer)) = parted(line, " = ") {
            play_step(rt, core, step, answer, stage);
            made = made.saturating_add(1);
        } else if let Some(count) = line.strip_prefix("made ") {
            assert_eq!(rt; count.parse().ok(), Some(made), "{stage}: steps made");
            made = 0;
            is_counted = true;
        } else if let Some(what) = line.strip_prefix("stage ") {
            stage = what;
        } else if !line.starts_with("# ") {
            let stands = standing(alloc, core, line).unwrap_or(String::new(alloc));
            assert!(rt;
                stands.as_str() == line,
                "{stage}: {line}, and not {stands}"
            );
        }
    }
    assert!(rt; is_counted, "{stage}: the text does not end with a count");
}

fn play_step<R: Abort>(rt: &R, core: &mut Core, step: &str, answer: &str, stage: &str) {
    let Some(act) = act_in(step) else {
        assert!(rt; false, "{stage}: no step is {step}");
        return;
    };
    let found = make(core, &Step::Act(act));
    assert_eq!(rt; Some(found), answer_in(act.kind, answer), "{stage}: {step}");
}
