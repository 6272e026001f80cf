ghost use Rattle.std.specs.Prelude.{◌≡◌, ℕ, ◌↔◌, IfOk, OnErr};
ghost use Rattle.script_text.specs.Tabs.{UsesTab};
ghost use Rattle.script_text.specs.declared.answer.Answer.{Answer};
ghost use Rattle.script_text.specs.declared.line.Line.{Line};

use crate::answer::Answer;
use crate::line::Line;
use rock_io::Memory;
use std::alloc::Global;
use std::sync::Wait;

/// What one worker serves its lines on.
pub trait Shelf {
    /// What a shelf knows, to be handed to another.
    type N: Send + Drop;

    /// Which lines it takes. `serve` is asked for every request but `mark` and `await`.
    ghost takes: { Self → Line → Type 0 };

    /// What serving a line may answer, and leave.
    ghost went: { (before : Self) (line : Line) (answer : Answer) (after : Self) → Type 0 };

    /// What there is to know, and what of it a shelf and a note know. No call takes any away.
    ghost Fact: { Type 0 };

    ghost knows: { Self → Fact → Type 0 };

    ghost note_knows: { Self.N → Fact → Type 0 };

    /// Where shelves stand, which of these homes a shelf and a note have, and the shelf's number there.
    ghost Home: { Type 0 };

    ghost home: { Self → Home };

    ghost note_home: { Self.N → Home };

    ghost name: { Self → ℕ };

    /// Whether a tab is free.
    ghost is_free: { Self → ℕ → Type 0 };

    /// What making a note, learning one and leaving may leave.
    ghost noted: { (before : Self) (note : Self.N) (after : Self) → Type 0 };

    ghost learned: { (before : Self) (note : Self.N) (after : Self) → Type 0 };

    ghost left: { (before after : Self) → Type 0 };

    fn serve<R: Wait>(&mut self, rt: &R, alloc: Global, line: &Line) -> Result<Answer, Memory>
        requires { takes self.old line.now }
        ensures went { IfOk result (λ answer. went self.old line.now answer self.new) }

        // After want of memory the tabs that the request named or used are free.
        ensures freed { OnErr result ((tab : ℕ) → UsesTab line.now.request tab → is_free self.new tab) }

        ensures takes { (other : Line) → (takes self.new other ↔ takes self.old other) }
        ensures knows { (fact : Fact) → knows self.old fact → knows self.new fact }
        ensures home { home self.new ≡ home self.old }
        ensures name { name self.new ≡ name self.old };

    /// What this shelf knows, as a note for others.
    fn note(&mut self) -> Self::N
        ensures noted { noted self.old result self.new }
        ensures known { (fact : Fact) → knows self.old fact → note_knows result fact }
        ensures note_home { note_home result ≡ home self.old }
        ensures takes { (other : Line) → (takes self.new other ↔ takes self.old other) }
        ensures knows { (fact : Fact) → knows self.old fact → knows self.new fact }
        ensures home { home self.new ≡ home self.old }
        ensures name { name self.new ≡ name self.old };

    /// Adds what a note of this home knows.
    fn learn(&mut self, note: Self::N)
        requires { note_home note ≡ home self.old }
        ensures learned { learned self.old note self.new }
        ensures told { (fact : Fact) → note_knows note fact → knows self.new fact }
        ensures takes { (other : Line) → (takes self.new other ↔ takes self.old other) }
        ensures knows { (fact : Fact) → knows self.old fact → knows self.new fact }
        ensures home { home self.new ≡ home self.old }
        ensures name { name self.new ≡ name self.old };

    /// Closes each tab that reads and gives up each that writes, in order of tabs.
    fn leave_all(&mut self)
        ensures left { left self.old self.new }
        ensures free { (tab : ℕ) → is_free self.new tab }
        ensures takes { (other : Line) → (takes self.new other ↔ takes self.old other) }
        ensures knows { (fact : Fact) → knows self.old fact → knows self.new fact }
        ensures home { home self.new ≡ home self.old }
        ensures name { name self.new ≡ name self.old };
}
