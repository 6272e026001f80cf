// Requests on tabs that read are served.
ghost use Rattle.std.specs.Prelude.{IfOk, OnErr, OnOk, false, length, ◌+◌, ◌<◌, ◌≡◌, ◌≤◌};
ghost use Rattle.core_model.specs.Tabs.{inner};
ghost use Rattle.slot_cell.specs.declared.header.TheConstants.{HEADER_SIZE};
ghost use Rattle.store_rule.specs.Passes.{basis};
ghost use Rattle.rock_reader.specs.Reading.{ReadsAs, Standing};
ghost use Rattle.store_serve.specs.Answers.{TellsFaults, is_fault};
ghost use Rattle.store_serve.specs.Reading.{ClosesOn, OpensOn, ReadsMore, ReadsOn};
ghost use Rattle.store_serve.specs.Tabs.{Holds, IsFree, IsReady, IsReading, Leaves, MayGo};

use crate::answers::read;
use crate::following::read_on;
use crate::tabs::{ScriptTab, Told};
use crate::{reading_grows, serving_grows};
use rock_disk::{Cell, Station};
use rock_io::{Memory, Octets};
use rock_reader::{close_entry, open_entry, reading_tabs_may_go_on};
use script_text::Answer;
use std::alloc::Global;
use std::sync::Wait;
use store_rule::{Origin, Pass, Store};

/// Opens the entry of a URL for a free tab.
pub fn open_tab<C: Cell, O: Origin>(
    store: &Store<C, O>,
    pass: &mut Pass<C>,
    tab: u8,
    kept: ScriptTab,
    url: &[u8],
) -> Told
    requires ready { IsReady C.tells C.state O.offers store.now pass.old }
    requires below { tab < inner }
    requires holds { Holds C.tells C.state O.offers store.now pass.old tab kept }
    requires name { MayGo C.tells C.state O.offers store.now pass.old url.now }
    ensures served { OpensOn C.tells C.state O.offers store.now tab pass.old result.answer pass.new url.now }
    ensures holds { Holds C.tells C.state O.offers store.now pass.new tab result.tab }
    ensures no_fault { is_fault result.answer ≡ false }
    ensures leaves { Leaves C.tells C.state O.offers store.now tab pass.old pass.new }
{
    match kept {
        ScriptTab::Free => (),
        other => {
            return Told {
                answer: Answer::Tab,
                tab: other,
            };
        }
    }
    reading_grows::<C, O>();
    match open_entry(store, pass, tab, url) {
        Ok(version) => Told {
            answer: Answer::Opened { version },
            tab: ScriptTab::Reading,
        },
        Err(cause) => Told {
            answer: Answer::Miss { cause },
            tab: ScriptTab::Free,
        },
    }
}

/// Gives a tab that reads the next bytes of its entry, as far as they go. `piece` has room for what a slot may add to
/// a body.
///
/// # Errors
///
/// Want of memory. The tab is closed.
pub fn read_more<R: Wait, C: Cell, O: Origin, St: Station<C = C>>(
    rt: &R,
    alloc: Global,
    store: &Store<C, O>,
    pass: &mut Pass<C>,
    station: &mut St,
    tab: u8,
    kept: ScriptTab,
    piece: &mut [u8],
) -> Result<Told, Memory>
    requires ready { IsReady C.tells C.state O.offers store.now pass.old }
    requires below { tab < inner }
    requires holds { Holds C.tells C.state O.offers store.now pass.old tab kept }
    requires room { (basis C.tells C.state O.offers store.now).slot ≤ length piece.old + HEADER_SIZE }
    ensures served { IfOk result (λ told. ReadsMore C.tells C.state O.offers store.now tab pass.old told.answer pass.new) }
    ensures holds { IfOk result (λ told. Holds C.tells C.state O.offers store.now pass.new tab told.tab) }
    ensures faults { IfOk result (λ told. TellsFaults told.answer (St.faults station.old) (St.faults station.new)) }
    ensures free { OnErr result (IsFree pass.new tab) }
    ensures memory { OnErr result (St.faults station.new ≡ St.faults station.old) }
    ensures leaves { Leaves C.tells C.state O.offers store.now tab pass.old pass.new }
    ensures length { length piece.new ≡ length piece.old }
{
    match kept {
        ScriptTab::Reading => (),
        other => {
            return Ok(Told {
                answer: Answer::Tab,
                tab: other,
            });
        }
    }
    match read_or_close(rt, alloc, store, pass, station, tab, piece) {
        Ok(answer) => Ok(Told {
            answer,
            tab: ScriptTab::Reading,
        }),
        Err(fault) => Err(fault),
    }
}

// Gives what a tab that reads has not been given yet of its entry, as far as that goes now.
fn read_or_close<R: Wait, C: Cell, O: Origin, St: Station<C = C>>(
    rt: &R,
    alloc: Global,
    store: &Store<C, O>,
    pass: &mut Pass<C>,
    station: &mut St,
    tab: u8,
    piece: &mut [u8],
) -> Result<Answer, Memory>
    requires ready { IsReady C.tells C.state O.offers store.now pass.old }
    requires reads { IsReading C.tells C.state O.offers store.now pass.old tab }
    requires room { (basis C.tells C.state O.offers store.now).slot ≤ length piece.old + HEADER_SIZE }
    ensures served { (e : Standing) → ReadsAs C.tells C.state O.offers store.now pass.old tab e
        → IfOk result (λ answer. ReadsOn C.tells C.state O.offers store.now tab pass.old answer pass.new e) }
    ensures reads { OnOk result (IsReading C.tells C.state O.offers store.now pass.new tab) }
    ensures faults { IfOk result (λ answer. TellsFaults answer (St.faults station.old) (St.faults station.new)) }
    ensures free { OnErr result (IsFree pass.new tab) }
    ensures memory { OnErr result (St.faults station.new ≡ St.faults station.old) }
    ensures leaves { Leaves C.tells C.state O.offers store.now tab pass.old pass.new }
    ensures length { length piece.new ≡ length piece.old }
{
    serving_grows::<C, O>();
    reading_grows::<C, O>();
    reading_tabs_may_go_on::<C, O>();
    let mut out = Vec::new(alloc);
    match read_on(rt, store, pass, station, tab, piece, &mut out) {
        Ok(why) => Ok(read(why, Octets::from_vec(out))),
        Err(_) => {
            close_entry(store, pass, tab);
            Err(Memory)
        }
    }
}

/// Closes a tab that reads.
pub fn close_tab<C: Cell, O: Origin>(
    store: &Store<C, O>,
    pass: &mut Pass<C>,
    tab: u8,
    kept: ScriptTab,
) -> Told
    requires ready { IsReady C.tells C.state O.offers store.now pass.old }
    requires below { tab < inner }
    requires holds { Holds C.tells C.state O.offers store.now pass.old tab kept }
    ensures served { ClosesOn C.tells C.state O.offers store.now tab pass.old result.answer pass.new }
    ensures holds { Holds C.tells C.state O.offers store.now pass.new tab result.tab }
    ensures no_fault { is_fault result.answer ≡ false }
    ensures leaves { Leaves C.tells C.state O.offers store.now tab pass.old pass.new }
{
    match kept {
        ScriptTab::Reading => {
            reading_grows::<C, O>();
            reading_tabs_may_go_on::<C, O>();
            close_entry(store, pass, tab);
            Told {
                answer: Answer::Closed,
                tab: ScriptTab::Free,
            }
        }
        other => Told {
            answer: Answer::Tab,
            tab: other,
        },
    }
}
