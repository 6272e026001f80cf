use core_runs::run_steps;
use core_state::{Core, Step};
use std::alloc::Global;
use test_core_kit::{act_in, blank_core, word_in};

/// Runs of steps, one after the other over one core of two slots: the steps, and behind them how the run ended
/// and, where it says so, what the word of the anchor is then.
const RUNS: &str = "\
# No step is a run too.
end RunEnd { done: 0, fault: None }
# Looks, a draw, a take, a slot that is reserved once, a reader that retreats, and a raise that is refused.
0 0 1 0 0
0 0 4 0 0
0 0 5 0 0
0 0 6 0 1
0 0 1 0 0
0 0 10 0 0
0 0 10 0 0
0 1 2 0 0
0 1 3 0 0
0 0 7 0 2
0 0 1 0 0
end RunEnd { done: 9, fault: Some(NotAllowed { kind: 7 }) }
# Version 1 at TAKEN, as before the step that was refused.
stands 1 1 0
# From there on the rest of the list is made.
0 0 11 0 0
0 0 7 0 4
0 0 6 0 0
0 8 7 0 6
end RunEnd { done: 4, fault: None }
stands 1 6 0
";

/// Makes the steps, and tells how that ended. Nothing is ensured: what calls this is proved quickly.
fn run(alloc: Global, core: &mut Core, steps: &[Step]) -> Option<String> {
    let end = run_steps(core, steps);
    format!(in alloc; "{end:?}").ok()
}

/// Whether the line is as it should be: the steps end so, or the word of the anchor is this one, or it is one step more. It is
/// a comment else.
fn is_so(alloc: Global, core: &mut Core, steps: &mut Vec<Step>, line: &str) -> Option<bool> {
    if let Some(wanted) = line.strip_prefix("end ") {
        let end = run(alloc, core, steps)?;
        steps.clear();
        return Some(end.as_str() == wanted);
    }
    if let Some(word) = line.strip_prefix("stands ") {
        return Some(*core.words().first()? == word_in(word)?);
    }
    if !line.starts_with("# ") {
        steps.push(Step::Act(act_in(line)?)).ok()?;
    }
    Some(true)
}

#[test]
fn a_run_ends_at_the_first_step_that_is_refused(rt: HostRuntime) {
    let alloc = rt.alloc();
    let Some(mut core) = blank_core(alloc, 2, 1, 1) else {
        assert!(rt; false, "no core");
        return;
    };
    let mut steps = Vec::new(alloc);
    assert_eq!(rt; RUNS.lines().count(), 24);
    for line in RUNS.lines() {
        assert!(rt;
            is_so(alloc, &mut core, &mut steps, line) == Some(true),
            "{line}"
        );
    }
}
