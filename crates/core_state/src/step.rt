// One step of a pass is made.
ghost use Rattle.std.specs.Prelude.{◌≡◌, IfOk, IsErrOf, OnErr};
ghost use Rattle.core_model.specs.Sound.{Sound};
ghost use Rattle.core_model.specs.Steps.{IsStep, MayMove};
ghost use Rattle.core_table.specs.Inside.{setting};
ghost use Rattle.core_change.specs.Inside.{state};

use crate::plan::plan;
use core_change::{Refusal, Table, make_change};
use core_model::Move;
use core_table::Opening;
use std::alloc::Global;

/// Makes a step of the pass of this number, and answers the number that it tells. Where it is refused
/// nothing is changed.
pub(crate) fn make(
    alloc: Global,
    opening: &Opening,
    table: &mut Table,
    pass: u32,
    step: Move,
) -> Result<u64, Refusal>
    requires { Sound (setting opening.now) (state table.old) }
    ensures made { IfOk result (λ number. IsStep (setting opening.now) (state table.old) pass step number (state table.new)) }
    ensures refused { IsErrOf result Refusal.NotAllowed
        → MayMove (setting opening.now) (state table.old) pass step → ⊥ }
    ensures unchanged { OnErr result (state table.new ≡ state table.old) }
{
    let Some(view) = table.pass(pass) else {
        return Err(Refusal::NotAllowed);
    };
    let change = plan(alloc, opening, table, view, step)?;
    let answer = change.answer;
    make_change(table, pass as usize, change)?;
    Ok(answer)
}
