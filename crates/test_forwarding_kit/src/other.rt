// Another worker, and a sink in the midst of whose pieces it goes on.
ghost use Rattle.std.specs.Prelude.{◌≡◌};
ghost use Rattle.test_forwarding_kit.specs.Shared.{shared_of};
ghost use Rattle.test_forwarding_kit.specs.Standing.{IsAtWork, IsScripted};

use crate::serving::{Served, serve_line};
use crate::shared::{SharedOrigin, shared_lines_may_be_asked};
use crate::telling::told;
use rock_disk::{Cell, Station};
use rock_io::{Failed, MemSink, Sink};
use script_text::{Line, Request};
use std::alloc::Global;
use std::marker::Model;
use std::mem;
use std::sync::Wait;
use store_rule::{Pass, Store};
use store_serve::ScriptTab;

/// Another worker: a pass and a station, what is kept of its tab 0, the lines of the script, and what was told so far, each
/// answer on a line of its own.
pub struct Other<'a, R: Wait, C: Cell, St: Station<C = C>> {
    rt: &'a R,
    alloc: Global,
    store: &'a Store<C, SharedOrigin>,
    lines: &'a [Line],
    pass: Pass<C>,
    tab: ScriptTab,
    station: St,
    story: String,
}

impl<'a, R: Wait, C: Cell, St: Station<C = C>> Model for Other<'a, R, C, St> {
    ghost use Rattle.test_forwarding_kit.specs.Shared.{shared_of};
    ghost use Rattle.test_forwarding_kit.specs.Standing.{IsAtWork, IsScripted};

    ghost Value = { St };

    ghost view = { λ other. other.station };

    ghost invariant = { λ other. IsScripted C.tells C.state shared_of other.store.now other.lines.now
        × IsAtWork C.tells C.state shared_of other.store.now other.pass other.tab };
}

impl<'a, R: Wait, C: Cell, St: Station<C = C>> Other<'a, R, C, St> {
    /// A worker on a pass with free tabs.
    pub fn new(
        rt: &'a R,
        alloc: Global,
        store: &'a Store<C, SharedOrigin>,
        lines: &'a [Line],
        pass: Pass<C>,
        station: St,
    ) -> Self
        requires script { IsScripted C.tells C.state shared_of store.now lines.now }
        requires work { IsAtWork C.tells C.state shared_of store.now pass ScriptTab.Free }
    {
        Other {
            rt,
            alloc,
            store,
            lines,
            pass,
            tab: ScriptTab::Free,
            station,
            story: String::new(alloc),
        }
    }

    /// Serves the line at a place, and tells the answer. Where memory is wanting nothing is told.
    pub fn serve(&mut self, at: usize) {
        shared_lines_may_be_asked::<C, SharedOrigin>();
        let Some(line) = self.lines.get(at) else {
            return;
        };
        if let Request::Mark { .. } | Request::Await { .. } = line.request {
            return;
        }
        let offer = u64::from(self.store.slots()) + u64::from(line.number);
        let kept = mem::replace(&mut self.tab, ScriptTab::Free);
        let Served { answer, tab } = serve_line(
            self.rt,
            self.alloc,
            self.store,
            &mut self.pass,
            &mut self.station,
            kept,
            offer,
            line,
        );
        self.tab = tab;
        if let Some(answer) = answer
            && let Some(text) = told(self.alloc, &answer)
        {
            let _ = self.tell(text.as_str());
        }
    }

    /// Adds a line to what is told.
    pub fn tell(&mut self, text: &str) -> Option<()> {
        self.story.push_str(text).ok()?;
        self.story.push_str("\n").ok()
    }

    /// Its station, and what was told.
    pub fn into_parts(self) -> (St, String) {
        let Other {
            rt: _,
            alloc: _,
            store: _,
            lines: _,
            pass: _,
            tab: _,
            station,
            story,
        } = self;
        (station, story)
    }
}

/// A sink over memory. Before each piece that it is given, the other worker serves one of its lines, from the line `next` on
/// and before the line `end`.
pub struct Midst<'a, R: Wait, C: Cell, St: Station<C = C>> {
    pub other: Other<'a, R, C, St>,
    pub sink: MemSink,
    pub next: usize,
    pub end: usize,
}

impl<'a, R: Wait, C: Cell, St: Station<C = C>> Sink for Midst<'a, R, C, St> {
    ghost use Rattle.std.specs.Prelude.{true};
    ghost use Rattle.rock_io.specs.MemSink.{faults_of, taken_of};

    ghost tells = { true };

    ghost taken = { λ midst. taken_of midst.sink };

    ghost faults = { λ midst. faults_of midst.sink };

    fn write(&mut self, bytes: &[u8]) -> Result<usize, Failed> {
        if self.next < self.end {
            self.other.serve(self.next);
            self.next += 1;
        }
        self.sink.write(bytes)
    }
}
