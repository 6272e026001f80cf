// What a tab that writes keeps beside its buffer.
ghost use Rattle.std.specs.Prelude.{◌<◌, ◌≡◌};
ghost use Rattle.store_rule.specs.Drafts.{DraftMoves};
ghost use Rattle.tab_states.specs.Desks.{draft_at};

use crate::store::Pass;
use tab_states::Draft;

impl<C> Pass<C> {
    /// The draft of a tab.
    pub fn draft(&self, tab: u8) -> Draft
        requires { tab < 9 }
        ensures { result ≡ draft_at self.now.desks tab }
    {
        self.desks.draft(tab as usize)
    }

    /// Gives a tab another draft. All else of the pass is as it was.
    pub fn set_draft(&mut self, tab: u8, draft: Draft)
        requires { tab < 9 }
        ensures { DraftMoves tab draft self.old self.new }
    {
        self.desks.set_draft(tab as usize, draft);
    }
}
