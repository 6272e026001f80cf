// Answers are counted, and told in a line.
ghost use Rattle.std.specs.Prelude.{◌≡◌, sum_by, string_bytes, IfOk};
ghost use Rattle.workload.specs.Kinds.{hit_bytes};
ghost use Rattle.workload.specs.Counts.{count_of, kinds_in, summary_of};
ghost use Rattle.workload.specs.Text.{first_part, second_part, third_part, last_part, summary_line};

use crate::kind::{Kind, hit_bytes};
use rock_io::Memory;
use script_text::Answer;
use std::alloc::{AllocError, Global};

/// How many answers there were of each kind.
#[derive(Clone, Copy, Debug, PartialEq, Eq)]
pub struct Summary {
    pub requests: u64,
    pub hits: u64,
    pub misses: u64,
    pub stored: u64,
    pub purged: u64,
    /// How often nothing was there to be purged.
    pub none: u64,
    /// Answers of any other kind.
    pub other: u64,
    /// How many bytes of bodies the hits gave.
    pub bytes: u128,
}

/// How many answers are of a kind.
fn count_of(kind: Kind, answers: &[Answer]) -> u64
    ensures { result ≡ count_of kind answers.now }
{
    answers.iter().filter(|answer| kind.has(answer)).count() as u64
}

/// How many bytes the hits give.
fn bytes_of(answers: &[Answer]) -> u128
    ensures { result ≡ sum_by hit_bytes answers.now }
{
    let mut bytes = 0u128;
    'answers: for answer in answers {
        bytes += u128::from(hit_bytes(answer));
    }
    bytes
}

/// Counts answers. The bytes of all hits together are counted in 128 bits, which suffice for any list of answers.
pub fn summary_of(answers: &[Answer]) -> Summary
    ensures counts { result ≡ summary_of answers.now }
    ensures whole { result.requests ≡ kinds_in result }
{
    Summary {
        requests: answers.len() as u64,
        hits: count_of(Kind::Hit, answers),
        misses: count_of(Kind::Miss, answers),
        stored: count_of(Kind::Stored, answers),
        purged: count_of(Kind::Purged, answers),
        none: count_of(Kind::NoEntry, answers),
        other: count_of(Kind::Other, answers),
        bytes: bytes_of(answers),
    }
}

/// The first counts.
fn first_part(alloc: Global, requests: u64, hits: u64) -> Result<String, AllocError>
    ensures { IfOk result (λ text. string_bytes text ≡ first_part requests hits) }
{
    let text = format!(in alloc; "requests={requests} hits={hits}")?;
    Ok(text)
}

/// What follows it.
fn second_part(alloc: Global, misses: u64, stored: u64) -> Result<String, AllocError>
    ensures { IfOk result (λ text. string_bytes text ≡ second_part misses stored) }
{
    let text = format!(in alloc; " misses={misses} stored={stored}")?;
    Ok(text)
}

/// What follows that.
fn third_part(alloc: Global, purged: u64, none: u64) -> Result<String, AllocError>
    ensures { IfOk result (λ text. string_bytes text ≡ third_part purged none) }
{
    let text = format!(in alloc; " purged={purged} none={none}")?;
    Ok(text)
}

/// The end of the line, with its line feed.
fn last_part(alloc: Global, other: u64, bytes: u128) -> Result<String, AllocError>
    ensures { IfOk result (λ text. string_bytes text ≡ last_part other bytes) }
{
    let text = format!(in alloc; " other={other} bytes={bytes}\n")?;
    Ok(text)
}

/// The line of a summary, with its line feed.
///
/// # Errors
///
/// [`Memory`] where memory runs out.
pub fn summary_line(alloc: Global, summary: &Summary) -> Result<Vec<u8>, Memory>
    ensures { IfOk result (λ line. line.items ≡ summary_line summary.now) }
{
    let first = first_part(alloc, summary.requests, summary.hits)?;
    let second = second_part(alloc, summary.misses, summary.stored)?;
    let third = third_part(alloc, summary.purged, summary.none)?;
    let last = last_part(alloc, summary.other, summary.bytes)?;
    let mut line = Vec::new(alloc);
    line.extend_from_slice(b"bench ")?;
    line.extend_from_slice(first.as_bytes())?;
    line.extend_from_slice(second.as_bytes())?;
    line.extend_from_slice(third.as_bytes())?;
    line.extend_from_slice(last.as_bytes())?;
    Ok(line)
}
