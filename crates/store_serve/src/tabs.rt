// What a worker keeps of the script's tabs.
use script_text::{Answer, Body};

/// What is kept of a tab of the script, beside its pass.
#[derive(Debug, Drop)]
pub enum ScriptTab {
    Free,
    /// It writes an entry of this body, of which so many bytes were taken.
    Writing { body: Body, taken: usize },
    Reading,
}

/// The answer to a request on a tab of the script, and what is kept of the tab behind it.
#[derive(Debug, Drop)]
pub struct Told {
    pub answer: Answer,
    pub tab: ScriptTab,
}
