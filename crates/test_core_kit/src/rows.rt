// Rows of text, as tests of the core play them. Each line is one of these:
//
// - `PASS TAB KIND AT VALUE = ANSWER`: a step, and what it answers, which is a number, `word VERSION STAGE READERS`
//   (the word of an anchor), or `refused`;
// - `stage TEXT`: what the rows below are about;
// - `made COUNT`: how many steps stand above, up to the last such line. Each text ends with one;
// - `stands VERSION STAGE READERS`: the word of anchor 0 there;
// - `cell IS_WRITTEN COUNT true`: whether tab 0 of pass 0, which writes and has a turn, has its piece in the cell there,
//   how many contents a crash may leave in it, and that what is in it now is one of these;
// - `inner IS_BLANK COUNT true`: the same of the inner tab of pass 0, which frees and has a turn, and whether its cell is
//   blank now;
// - `seen VIEW COUNT`: how many things the pass or note of this number has seen, `Some(..)`, or `None` where there
//   is no such view;
// - `map [WORD, ..]`: the words of the map of taken slots;
// - `logged COUNT`: the counter of logged pieces;
// - `claim PASS TAB PLACE`: how far the search of this tab, which writes, has come, `Some(..)`, or `None` where it
//   searches for no slot;
// - `reserved PASS TAB [SLOT, ..]`: the slots that this tab, which writes, has reserved and not published;
// - `# ..`: a comment.
use core_model::{Cell, INNER_TAB, Tab, Turn, Writer};
use core_state::{Act, Content, Core, StepFault};
use std::alloc::Global;

/// The numbers of a text, with one space between two, where it has so many.
pub fn numbers<const N: usize>(text: &str) -> Option<[u64; N]> {
    let mut numbers = [0; N];
    let mut words = text.split(' ');
    for number in &mut numbers {
        *number = words.next()?.parse().ok()?;
    }
    words.next().is_none().then_some(numbers)
}

/// The two parts of a text, of which the first ends at the first mark.
pub fn parted<'a>(text: &'a str, mark: &str) -> Option<(&'a str, &'a str)> {
    text.split_once(mark)
}

/// The step `PASS TAB KIND AT VALUE`.
pub fn act_in(text: &str) -> Option<Act> {
    let [pass, tab, kind, at, value] = numbers::<5>(text)?;
    Some(Act {
        pass: u32::try_from(pass).ok()?,
        tab: u8::try_from(tab).ok()?,
        kind: u8::try_from(kind).ok()?,
        at: u32::try_from(at).ok()?,
        value,
    })
}

/// The word `VERSION STAGE READERS` of an anchor.
pub fn word_in(text: &str) -> Option<u64> {
    let [version, stage, readers] = numbers::<3>(text)?;
    let epoch = version.checked_mul(0x1_0000)?.checked_add(stage)?;
    epoch.checked_mul(0x1_0000)?.checked_add(readers)
}

/// What a step of this kind answers, by a text: a number, `word ..`, or `refused`.
pub fn answer_in(kind: u8, text: &str) -> Option<Result<u64, StepFault>> {
    if text == "refused" {
        return Some(Err(StepFault::NotAllowed { kind }));
    }
    let number = match text.strip_prefix("word ") {
        Some(word) => word_in(word),
        None => text.parse().ok(),
    };
    number.map(Ok)
}

/// The cell that tab 0 of pass 0 has, where it writes and has a turn.
fn cell_of_writer(core: &Core) -> Option<&Cell<Content>> {
    let Tab::Writing(writer) = core.views().first()?.tabs.as_slice().first()? else {
        return None;
    };
    match &writer.turn {
        Turn::Has(hold) => Some(&hold.cell),
        Turn::NoTurn => None,
    }
}

/// The cell that the inner tab of pass 0 has, where it frees and has a turn.
fn cell_of_freer(core: &Core) -> Option<&Cell<Content>> {
    let view = core.views().first()?;
    let Tab::Freeing(freer) = view.tabs.as_slice().get(usize::from(INNER_TAB))? else {
        return None;
    };
    match &freer.turn {
        Turn::Has(hold) => Some(&hold.cell),
        Turn::NoTurn => None,
    }
}

/// The line on the word of anchor 0, as the core stands.
fn anchor_told(alloc: Global, core: &Core) -> Option<String> {
    let word = *core.words().first()?;
    let (version, stage, readers) = (word >> 32, (word >> 16) & 0xffff, word & 0xffff);
    format!(in alloc; "stands {version} {stage} {readers}").ok()
}

/// The line on what the view of this number has seen.
fn view_told(alloc: Global, core: &Core, number: &str) -> Option<String> {
    let number: usize = number.parse().ok()?;
    let seen = match core.views().get(number) {
        Some(view) => Some(view.seen.as_slice().len()),
        None => None,
    };
    format!(in alloc; "seen {number} {seen:?}").ok()
}

/// The line on the cell of tab 0 of pass 0.
fn cell_told(alloc: Global, core: &Core) -> Option<String> {
    let cell = cell_of_writer(core)?;
    let is_written = matches!(cell.now, Content::Offered(_));
    let possible = cell.possible.as_slice();
    let (count, is_possible) = (possible.len(), possible.contains(&cell.now));
    format!(in alloc; "cell {is_written} {count} {is_possible}").ok()
}

/// The line on the cell of the inner tab of pass 0.
fn inner_told(alloc: Global, core: &Core) -> Option<String> {
    let cell = cell_of_freer(core)?;
    let is_blank = matches!(cell.now, Content::Blank);
    let possible = cell.possible.as_slice();
    let (count, is_possible) = (possible.len(), possible.contains(&cell.now));
    format!(in alloc; "inner {is_blank} {count} {is_possible}").ok()
}

/// The line on the map of taken slots, which stands behind five words of each anchor and two of each slot, and
/// in front of the two counters.
fn map_told(alloc: Global, core: &Core) -> Option<String> {
    let anchors = core.chains().len().saturating_mul(5);
    let slots = core.places().len().saturating_mul(2);
    let words = core.words().get(anchors.saturating_add(slots)..)?;
    let [map @ .., _, _] = words else {
        return None;
    };
    format!(in alloc; "map {map:?}").ok()
}

/// The line on the counter of logged pieces, which stands last.
fn log_told(alloc: Global, core: &Core) -> Option<String> {
    let count = core.words().last()?;
    format!(in alloc; "logged {count}").ok()
}

/// What the tab `PASS TAB` writes.
fn writer_of<'a>(core: &'a Core, pass: &str, tab: &str) -> Option<&'a Writer<Content>> {
    let (pass, tab): (usize, usize) = (pass.parse().ok()?, tab.parse().ok()?);
    match core.views().get(pass)?.tabs.as_slice().get(tab)? {
        Tab::Writing(writer) => Some(writer),
        _ => None,
    }
}

/// The line on the search of the tab `PASS TAB`.
fn claim_told(alloc: Global, core: &Core, pass: &str, tab: &str) -> Option<String> {
    let writer = writer_of(core, pass, tab)?;
    format!(in alloc; "claim {pass} {tab} {:?}", writer.claim).ok()
}

/// The line on the slots that it has reserved.
fn reserved_told(alloc: Global, core: &Core, pass: &str, tab: &str) -> Option<String> {
    let reserved = writer_of(core, pass, tab)?.reserved.as_slice();
    format!(in alloc; "reserved {pass} {tab} {reserved:?}").ok()
}

/// What a line that begins so should be, as the core stands.
pub fn standing(alloc: Global, core: &Core, line: &str) -> Option<String> {
    let mut words = line.split(' ');
    match words.next()? {
        "stands" => anchor_told(alloc, core),
        "cell" => cell_told(alloc, core),
        "inner" => inner_told(alloc, core),
        "seen" => view_told(alloc, core, words.next()?),
        "map" => map_told(alloc, core),
        "logged" => log_told(alloc, core),
        "claim" => claim_told(alloc, core, words.next()?, words.next()?),
        "reserved" => reserved_told(alloc, core, words.next()?, words.next()?),
        _ => None,
    }
}
