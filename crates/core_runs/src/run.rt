// Steps one after the other, up to the first that is refused.
ghost use Rattle.std.specs.Prelude.{◌≡◌, ◌≤◌, ◌<◌, ◌↔◌, ℕ, length, take, IsNone, IfSome, Some, slice_get};
ghost use mathlib.Core.Option.{some};
ghost use lib.ListN.{get_elem?};
ghost use Rattle.core_state.specs.declared.act.Step.{Step as StepOf};
ghost use Rattle.core_state.specs.declared.act.StepFault.TheVariants as fault;
ghost use Rattle.core_state.specs.Applied.{MayApply, kind_of};
ghost use Rattle.core_runs.specs.Runs.{LeadsTo};

use core_state::{Core, Step, StepFault};

/// How a list of steps ended.
#[derive(Clone, Copy, Debug, PartialEq, Eq)]
pub struct RunEnd {
    /// How many steps were made.
    pub done: usize,
    /// Why the next one was refused, where one was.
    pub fault: Option<StepFault>,
}

/// Makes the steps in order, up to the first that is refused. The core is then as the steps before that
/// one left it.
pub fn run_steps(core: &mut Core, steps: &[Step]) -> RunEnd
    ensures within { result.done ≤ length steps.now }
    ensures led { LeadsTo (take result.done steps.now) core.old core.new }
    ensures all { IsNone result.fault ↔ (result.done ≡ length steps.now) }
    ensures refused { (kind : ℕ) (step : StepOf) → result.fault ≡ Some (fault.NotAllowed kind)
        → get_elem? steps.now result.done ≡ some step → MayApply core.new step → ⊥ }
    ensures kind { (kind : ℕ) (step : StepOf) → result.fault ≡ Some (fault.NotAllowed kind)
        → get_elem? steps.now result.done ≡ some step → kind ≡ kind_of step }
{
    core.is_always_sound();
    for (done, step) in steps.iter().enumerate() {
        match core.apply(step) {
            Ok(_number) => {}
            Err(fault) => {
                return RunEnd {
                    done,
                    fault: Some(fault),
                };
            }
        }
    }
    RunEnd {
        done: steps.len(),
        fault: None,
    }
}
