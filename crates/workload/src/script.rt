// The script of a benchmark.
ghost use Rattle.std.specs.Prelude.{◌≡◌, ◌≤◌, IfOk};
ghost use Rattle.workload.specs.Script.{bench_lines};

use crate::numbers::{next, upper_half};
use crate::requests::request_of;
use crate::shares::{Share, shares_of};
use rock_io::Memory;
use script_text::{Line, Lines, Script};
use std::alloc::Global;

/// The lines that were made so far, and the last number that was drawn.
#[derive(Debug, Drop)]
pub struct Draft {
    last: u64,
    lines: Vec<Line>,
}

impl Draft {
    ghost use Rattle.std.specs.Prelude.{◌≡◌, ◌/◌, ◌+◌, ◌^◌, ◌<◌, ◌≤◌, ◌∷◌, [], ◌++◌, ℕ, List, length, All, IsTrue, OnOk};
    ghost use Rattle.workload.specs.Numbers.{next};
    ghost use Rattle.workload.specs.Shares.{has_url};
    ghost use Rattle.workload.specs.Script.{IsDraft};
    ghost use Rattle.workload.specs.declared.shares.Share.{Share};

    /// Draws the next number.
    fn draw(&mut self) -> u32
        ensures value { result ≡ self.new.last / 2 ^ 32 }
        ensures last { self.new.last ≡ next self.old.last }
        ensures lines { self.new.lines ≡ self.old.lines }
    {
        self.last = next(self.last);
        upper_half(self.last)
    }

    /// Adds the line of a turn.
    fn add(&mut self, alloc: Global, share: &Share) -> Result<(), Memory>
        requires url { IsTrue (has_url share.now) }
        requires few { length self.old.lines.items < 320000 }
        ensures drafted { OnOk result ((seed : ℕ) (turns : List Share) → IsDraft seed self.old turns → IsDraft seed self.new (turns ++ share.now ∷ [])) }
        ensures one_more { OnOk result (length self.new.lines.items ≡ length self.old.lines.items + 1) }
    {
        let number = self.lines.len() as u32 + 1;
        let first = self.draw();
        let second = self.draw();
        let third = self.draw();
        let request = request_of(alloc, share.urls.as_slice(), first, second, third)?;
        self.lines.push(Line {
            worker: share.worker,
            number,
            request,
        })?;
        Ok(())
    }

    /// Adds the lines of a round.
    fn add_round(&mut self, alloc: Global, shares: &[Share]) -> Result<(), Memory>
        requires urls { All (λ share. IsTrue (has_url share)) shares.now }
        requires few { length self.old.lines.items + length shares.now ≤ 320000 }
        ensures { OnOk result ((seed : ℕ) (turns : List Share) → IsDraft seed self.old turns → IsDraft seed self.new (turns ++ shares.now)) }
    {
        'turns: for share in shares {
            self.add(alloc, share)?;
        }
        Ok(())
    }
}

/// The script of a benchmark for `workers` workers, of `count` rounds, from a seed.
///
/// # Errors
///
/// [`Memory`] where memory runs out.
pub fn bench_script(alloc: Global, seed: u64, workers: u32, count: u32) -> Result<Script, Memory>
    requires one { 1 ≤ workers }
    requires few { workers ≤ 32 }
    requires short { count ≤ 10000 }
    ensures { IfOk result (λ script. script.lines ≡ bench_lines seed workers count) }
{
    let shares = shares_of(alloc, workers)?;
    let mut draft = Draft {
        last: seed,
        lines: Vec::new(alloc),
    };
    'rounds: for round in 0..count {
        draft.add_round(alloc, &shares)?;
    }
    Ok(Script {
        lines: Lines::from_vec(draft.lines),
    })
}
