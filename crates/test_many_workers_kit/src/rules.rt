// The rules that what several workers print must keep, whatever their order.
ghost use Rattle.std.specs.Prelude.{◌<◌};

use crate::lines::{Asked, Kind, body_of};
use crate::tabs::{NO_TABS, Tabs};
use std::alloc::{AllocError, Global};
use std::test::Fail;
use store_key::{anchor_of, key_of};
use test_stories::push_text;

/// What is printed of versions by all workers.
#[derive(Drop)]
pub(crate) struct Told<'a> {
    lines: &'a [Asked],
    anchors: u32,
    /// The versions that were begun, each with the number of its line.
    begun: Vec<(u32, u32)>,
    /// The versions that were purged.
    purged: Vec<u32>,
    /// The lines whose entry was given up: one that was begun on a tab, and what a put or a save began that was answered FULL.
    given_up: Vec<u32>,
    /// Those of them that were answered FULL. Which version they began is printed by none.
    untold: Vec<u32>,
    /// Whether the slots of the file suffice for the most that each anchor ever holds.
    fits: bool,
    /// How many lines were answered FULL.
    full: u32,
}

/// An answer that gives bytes: the words in front of them and their count, and how many bytes its tab was given before.
#[derive(Clone, Copy)]
pub(crate) struct Given<'a> {
    answer: &'a str,
    front: &'a str,
    count: u32,
    behind: u32,
}

/// What was judged: the last answer of the first worker, how many lines were answered FULL, and how many showed an entry that
/// was given back or given up, and neither purged nor begun on a tab.
#[derive(Drop)]
pub struct Judged<'a> {
    pub last: &'a str,
    pub full: u32,
    pub gave_way: u32,
}

/// The number of a line, what it asks, and its answer.
#[derive(Clone, Copy)]
pub(crate) struct Answered<'a> {
    pub(crate) number: u32,
    pub(crate) asked: Asked,
    pub(crate) answer: &'a str,
}

/// What an answer gives behind so many bytes, where its last two words are a count and bytes.
pub(crate) fn given_in(answer: &str, behind: u32) -> Option<Given<'_>> {
    let (words, _) = answer.rsplit_once(' ')?;
    let (front, count) = words.rsplit_once(' ')?;
    Some(Given {
        answer,
        front,
        count: count.parse().ok()?,
        behind,
    })
}

impl Given<'_> {
    /// How many bytes the tab was given with these.
    pub(crate) fn all(self) -> u32 {
        self.behind.saturating_add(self.count)
    }

    /// Whether the bytes are those that stand there in the body that the line of this number offers.
    pub(crate) fn is_of(self, alloc: Global, number: u32) -> Result<bool, AllocError> {
        let (length, letter) = body_of(number);
        if self.all() > length {
            return Ok(false);
        }
        let Given { front, count, .. } = self;
        let from = letter.saturating_add(self.behind);
        let text = match count {
            0 => format!(in alloc; "{front} 0 -")?,
            _ => format!(in alloc; "{front} {count} MADE({from},{count})")?,
        };
        let mut wanted = Vec::new(alloc);
        push_text(alloc, &mut wanted, text.as_str(), 1)?;
        Ok(self.answer.as_bytes() == wanted.as_slice())
    }
}

/// The word at this place of an answer, or nothing.
pub(crate) fn word(answer: &str, place: usize) -> &str {
    answer.split(' ').nth(place).unwrap_or("")
}

/// An epoch as a number that grows as it does: its version, then whether it is doomed, then its stage.
pub(crate) fn rank_of(epoch: &str) -> Option<u64> {
    let (text, doom) = match epoch.strip_suffix('d') {
        Some(text) => (text, 8),
        None => (epoch, 0),
    };
    let (version, stage) = text.split_once('.')?;
    rank(version, doom, stage.parse().ok()?)
}

fn rank(version: &str, doom: u64, stage: u8) -> Option<u64> {
    let version: u32 = version.parse().ok()?;
    Some(u64::from(version) * 16 + doom % 16 + u64::from(stage % 8))
}

pub(crate) fn version_of(rank: u64) -> u32 {
    (rank / 16 % 4_294_967_296) as u32
}

fn stage_of(rank: u64) -> u64 {
    rank % 8
}

fn is_doomed(rank: u64) -> bool {
    rank % 16 >= 8
}

/// Two epochs as numbers: the greatest that the worker may have been shown at this anchor before an answer, and the one that
/// the answer shows. A version that stands alone may come behind any epoch of it that a reader could have found. None: the
/// answer shows no epoch.
fn shown(answer: &str) -> Option<(u64, u64)> {
    let (first, second) = (word(answer, 1), word(answer, 2));
    match word(answer, 0) {
        "STORED" => Some((rank(first, 0, 3)?, rank(first, 0, 3)?)),
        "DOOMED" => Some((rank(first, 8, 7)?, rank(first, 8, 3)?)),
        "HIT" | "OPEN" => Some((rank(first, 0, 3)?, rank(first, 0, 2)?)),
        "BEGUN" => Some((rank(first, 0, 1)?, rank(first, 0, 1)?)),
        "PART" | "PURGED" | "WIPED" | "LATER" => Some((rank_of(first)?, rank_of(first)?)),
        "MISS" | "NONE" => Some((rank_of(second)?, rank_of(second)?)),
        "BUSY" => Some((
            rank_of(first.split_once('/')?.0)?,
            rank_of(second.split_once('/')?.0)?,
        )),
        _ => None,
    }
}

/// Whether a request may have an answer of this name. In a script that fits none is answered FULL.
fn may_answer(kind: Kind, name: &str, fits: bool) -> bool {
    match kind {
        Kind::Put | Kind::Save => {
            name == "STORED" || name == "DOOMED" || name == "BUSY" || (name == "FULL" && !fits)
        }
        Kind::Get => name == "HIT" || name == "PART" || name == "MISS" || name == "HALTED",
        Kind::Purge => name == "PURGED" || name == "NONE",
        Kind::Wipe => name == "WIPED" || name == "LATER" || name == "NONE",
        Kind::Begin => name == "BEGUN" || name == "BUSY",
        Kind::Add => name == "ADDED" || name == "TAB" || (name == "FULL" && !fits),
        Kind::Drop => name == "DROPPED" || name == "TAB",
        Kind::Open => name == "OPEN" || name == "MISS",
        Kind::More => name == "PART" || name == "END" || name == "HALTED" || name == "TAB",
        Kind::Close => name == "CLOSED" || name == "TAB",
        Kind::Mark => name == "MARKED",
        Kind::Await => name == "MET",
    }
}

/// How many slots of 512 bytes the response that the line of this number offers takes. A slot has room for 472 bytes, and
/// metadata with the URL have 43.
fn slots_for(number: u32) -> u64 {
    let (length, _) = body_of(number);
    (u64::from(length) + 43 + 471) / 472
}

/// Whether a script of these lines fits into a file of so many slots that has no entry.
fn fits_into(alloc: Global, lines: &[Asked], anchors: u32, slots: u32) -> Result<bool, AllocError> {
    let mut most = vec![in alloc; 0u64; anchors as usize]?;
    for (number, asked) in (1u32..).zip(lines) {
        if matches!(asked.kind, Kind::Put | Kind::Save | Kind::Begin) {
            let url = url_of(alloc, *asked)?;
            let anchor = anchor_of(&key_of(url.as_bytes()), anchors.max(1));
            if let Some(held) = most.get_mut(anchor as usize) {
                *held = (*held).max(slots_for(number));
            }
        }
    }
    let mut all: u64 = 0;
    for held in &most {
        all = all.wrapping_add(*held);
    }
    Ok(all <= u64::from(slots))
}

/// The numbers of the lines, and the lines: those of the first worker, then those of the second, and so on.
fn by_worker(alloc: Global, lines: &[Asked]) -> Result<Vec<(u32, Asked)>, AllocError> {
    let mut sorted = Vec::new(alloc);
    for (number, asked) in (1u32..).zip(lines) {
        sorted.push((number, *asked))?;
    }
    sorted.sort_by_key(|(number, asked)| (asked.worker, *number))?;
    Ok(sorted)
}

/// Each printed line is that of one line of the script, the first worker's in front.
fn answers<'a>(
    alloc: Global,
    lines: &[Asked],
    printed: &'a str,
) -> Result<Vec<Answered<'a>>, Fail> {
    let sorted = by_worker(alloc, lines)?;
    if printed.lines().count() != sorted.len() {
        return Err(Fail::new("there is a printed line for each line"));
    }
    let mut answers = Vec::new(alloc);
    for ((number, asked), line) in sorted.into_iter().zip(printed.lines()) {
        let front = format!(in alloc; "{} {number} ", asked.worker)?;
        let Some(answer) = line.strip_prefix(front.as_str()) else {
            return Err(Fail::new("a line is missing"));
        };
        answers.push(Answered {
            number,
            asked,
            answer,
        })?;
    }
    Ok(answers)
}

/// What is printed of versions. Each is begun by one line, and wiped by one at most.
fn told_of<'a>(
    alloc: Global,
    lines: &'a [Asked],
    anchors: u32,
    fits: bool,
    answers: &[Answered<'_>],
) -> Result<Told<'a>, Fail> {
    let mut begun: Vec<(u32, u32)> = Vec::new(alloc);
    let (mut purged, mut wiped) = (Vec::new(alloc), Vec::new(alloc));
    let (mut given_up, mut untold) = (Vec::new(alloc), Vec::new(alloc));
    let mut full: u32 = 0;
    for Answered {
        number,
        asked,
        answer,
    } in answers {
        let version = version_of(shown(answer).map_or(0, |(_, rank)| rank));
        match word(answer, 0) {
            "STORED" | "DOOMED" | "BEGUN" => {
                let is_new = begun.iter().all(|(other, _)| *other != version);
                if !is_new || version == 0 {
                    return Err(broken(*number, answer));
                }
                begun.push((version, *number))?;
            }
            "WIPED" if wiped.contains(&version) => return Err(broken(*number, answer)),
            "WIPED" => {
                wiped.push(version)?;
                purged.push(version)?;
            }
            "PURGED" | "LATER" => purged.push(version)?,
            "FULL" => full = full.wrapping_add(1),
            _ => {}
        }
        match (asked.kind, word(answer, 0)) {
            (Kind::Begin, "BEGUN") => given_up.push(*number)?,
            (Kind::Put | Kind::Save, "FULL") => {
                given_up.push(*number)?;
                untold.push(*number)?;
            }
            _ => {}
        }
    }
    Ok(Told {
        lines,
        anchors,
        begun,
        purged,
        given_up,
        untold,
        fits,
        full,
    })
}

/// The URL that a line is about.
fn url_of(alloc: Global, asked: Asked) -> Result<String, AllocError> {
    format!(in alloc; "http://a/{:02}", asked.about)
}

impl Told<'_> {
    /// The line that began a version, and its number.
    pub(crate) fn beginning(&self, version: u32) -> Option<(u32, Asked)> {
        let (_, number) = self.begun.iter().find(|(begun, _)| *begun == version)?;
        Some((*number, self.line(*number)?))
    }

    /// The line of this number.
    fn line(&self, number: u32) -> Option<Asked> {
        let asked = self.lines.get((number as usize).checked_sub(1)?)?;
        Some(*asked)
    }

    /// Whether the line of this number is about this URL.
    fn names(&self, number: u32, about: u32) -> bool {
        match self.line(number) {
            Some(asked) => asked.about == about,
            None => false,
        }
    }

    /// Whether an answer gives the whole body, or a first part of it, of the line that began this version, which was about
    /// the same URL. What was given up is never given whole.
    fn gives(&self, alloc: Global, one: Answered<'_>, version: u32) -> Result<bool, AllocError> {
        let Some(given) = given_in(one.answer, 0) else {
            return Ok(false);
        };
        let is_whole = word(one.answer, 0) == "HIT";
        let Some((number, asked)) = self.beginning(version) else {
            return Ok(!is_whole && self.gives_untold(alloc, given, one.asked.about)?);
        };
        let (length, _) = body_of(number);
        let may_come = !is_whole || (given.count == length && asked.kind != Kind::Begin);
        Ok(may_come && asked.about == one.asked.about && given.is_of(alloc, number)?)
    }

    /// Whether an answer of a get gives the front of the body of a line about the same URL, whose entry was given up.
    fn halts(&self, alloc: Global, one: Answered<'_>) -> Result<bool, AllocError> {
        let Some(given) = given_in(one.answer, 0) else {
            return Ok(false);
        };
        for number in &self.given_up {
            if self.names(*number, one.asked.about) && given.is_of(alloc, *number)? {
                return Ok(true);
            }
        }
        Ok(false)
    }

    /// Whether an answer gives bytes of the body of a line about this URL that was answered FULL.
    pub(crate) fn gives_untold(
        &self,
        alloc: Global,
        given: Given<'_>,
        about: u32,
    ) -> Result<bool, AllocError> {
        for number in &self.untold {
            if self.names(*number, about) && given.is_of(alloc, *number)? {
                return Ok(true);
            }
        }
        Ok(false)
    }

    /// Whether the line that began this version was about the same URL. One that was answered FULL may have been.
    fn is_about(&self, one: Answered<'_>, version: u32) -> bool {
        match self.beginning(version) {
            Some((_, asked)) => asked.about == one.asked.about,
            None => {
                self.untold
                    .iter()
                    .any(|number| self.names(*number, one.asked.about))
            }
        }
    }

    /// Whether an epoch that was found is a cause not to hit, and the one that is told.
    fn is_cause(&self, alloc: Global, one: Answered<'_>, found: u64) -> Result<bool, AllocError> {
        let (stage, is_doomed) = (stage_of(found), is_doomed(found));
        let is_leaving = is_doomed || stage == 4 || stage == 5;
        match word(one.answer, 1) {
            "absent" => Ok(stage == 0 || stage == 6),
            "writing" => Ok(stage == 1 && !is_doomed),
            "leaving" => Ok(stage != 0 && stage != 6 && stage != 1 && is_leaving),
            "other" => self.is_other(alloc, one, found),
            _ => Ok(false),
        }
    }

    /// Whether the key told is that of the line that began the version, and not that of the URL that is asked for.
    fn is_other(&self, alloc: Global, one: Answered<'_>, found: u64) -> Result<bool, AllocError> {
        let Some((_, asked)) = self.beginning(version_of(found)) else {
            return Ok(!self.untold.is_empty());
        };
        let text = format!(in alloc; "KEY({})", url_of(alloc, asked)?)?;
        let mut key = Vec::new(alloc);
        push_text(alloc, &mut key, text.as_str(), 1)?;
        let is_readable = stage_of(found) == 2 || stage_of(found) == 3;
        let is_other = asked.about != one.asked.about
            && word(one.answer, 3).as_bytes() == key.as_slice();
        Ok(is_readable && !is_doomed(found) && is_other)
    }

    /// Whether an answer may stand where this epoch is shown.
    fn allows(&self, alloc: Global, one: Answered<'_>, found: u64) -> Result<bool, AllocError> {
        match word(one.answer, 0) {
            "HIT" => self.gives(alloc, one, version_of(found)),
            "OPEN" => Ok(self.is_about(one, version_of(found))),
            "PART" if one.asked.kind == Kind::More => Ok(stage_of(found) == 2),
            "PART" => Ok(stage_of(found) == 2 && self.gives(alloc, one, version_of(found))?),
            "MISS" | "NONE" => self.is_cause(alloc, one, found),
            "BUSY" => Ok(is_busy(one.answer)),
            "PURGED" | "WIPED" | "LATER" | "DOOMED" => Ok(is_doomed(found)),
            _ => Ok(true),
        }
    }

    /// Whether the entry of a doomed epoch was purged.
    fn was_purged(&self, rank: u64) -> bool {
        !is_doomed(rank) || self.purged.contains(&version_of(rank))
    }

    /// Whether an entry at this epoch was given up or evicted, was not purged, and is none of those that a worker began on a
    /// tab, all of which it gives up.
    fn gave_way(&self, rank: u64) -> bool {
        let was_begun = match self.beginning(version_of(rank)) {
            Some((_, asked)) => asked.kind == Kind::Begin,
            None => false,
        };
        !is_doomed(rank) && stage_of(rank) >= 4 && !was_begun
    }

    /// Whether an entry at this epoch is not at HALTED, or was given up.
    fn was_given_up(&self, rank: u64) -> bool {
        match self.beginning(version_of(rank)) {
            Some((_, asked)) => stage_of(rank) != 4 || asked.kind == Kind::Begin,
            None => stage_of(rank) != 4 || !self.untold.is_empty(),
        }
    }

    /// Whether this epoch may be shown. In a script that fits no entry gives way, and none but those that were begun on tabs
    /// is given up, since no line is answered FULL.
    fn may_show(&self, rank: u64) -> bool {
        self.was_purged(rank) && self.was_given_up(rank) && (!self.fits || !self.gave_way(rank))
    }
}

/// A writer is refused by the word that it looked at, which is the one that it found, or by another one that it found behind
/// a word that it could have taken.
fn is_busy(answer: &str) -> bool {
    let (looked, found) = (word(answer, 1), word(answer, 2));
    let Some((epoch, readers)) = looked.split_once('/') else {
        return false;
    };
    let rank = rank_of(epoch).unwrap_or(0);
    let stage = stage_of(rank);
    let is_free = stage == 0 || stage == 6 || (stage == 3 && !is_doomed(rank));
    (is_free && readers == "0") == (looked != found)
}

/// The failure of a test by an answer that may not stand at the line of this number.
fn broken(number: u32, answer: &str) -> Fail {
    Fail::new(format_args!("{number}: {answer}"))
}

/// Judges an answer, and tells whether it shows an entry that gave way. `seen` has the greatest epoch that the worker was
/// shown at each anchor, and `tabs` what its lines so far left of its tabs.
fn judge_one(
    alloc: Global,
    told: &Told<'_>,
    one: Answered<'_>,
    seen: &mut [u64],
    tabs: &mut Tabs,
) -> Result<bool, Fail> {
    let Answered {
        number,
        asked,
        answer,
    } = one;
    if !may_answer(asked.kind, word(answer, 0), told.fits) || !tabs.judge(alloc, told, one)? {
        return Err(broken(number, answer));
    }
    if asked.kind == Kind::Get && word(answer, 0) == "HALTED" && !told.halts(alloc, one)? {
        return Err(broken(number, answer));
    }
    let Some((most, found)) = shown(answer) else {
        return Ok(false);
    };
    if !told.allows(alloc, one, found)? || !told.may_show(most) || !told.may_show(found) {
        return Err(broken(number, answer));
    }
    let url = url_of(alloc, asked)?;
    let anchor = anchor_of(&key_of(url.as_bytes()), told.anchors.max(1));
    let Some(before) = seen.get_mut(anchor as usize) else {
        return Err(Fail::new("there is an anchor for each URL"));
    };
    if *before > most {
        return Err(Fail::new(format_args!("{number}: {answer} behind {before}")));
    }
    *before = (*before).max(found);
    Ok(told.gave_way(most) || told.gave_way(found))
}

/// Judges what was printed of a run over a file of so many slots that had no entry.
pub fn judge<'a>(
    alloc: Global,
    lines: &[Asked],
    anchors: u32,
    slots: u32,
    printed: &'a str,
) -> Result<Judged<'a>, Fail> {
    let answers = answers(alloc, lines, printed)?;
    let fits = fits_into(alloc, lines, anchors, slots)?;
    let told = told_of(alloc, lines, anchors, fits, &answers)?;
    let mut seen = vec![in alloc; 0u64; anchors as usize]?;
    let mut tabs = NO_TABS;
    let mut worker: u32 = 0;
    let mut last = "";
    let mut gave_way: u32 = 0;
    for one in &answers {
        if one.asked.worker != worker {
            seen.fill(0);
            tabs = NO_TABS;
            worker = one.asked.worker;
        }
        if judge_one(alloc, &told, *one, &mut seen, &mut tabs)? {
            gave_way = gave_way.wrapping_add(1);
        }
        if worker == 1 {
            last = one.answer;
        }
    }
    if word(last, 0) != "HIT" {
        return Err(Fail::new(last));
    }
    Ok(Judged {
        last,
        full: told.full,
        gave_way,
    })
}
