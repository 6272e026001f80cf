// A script is read from a source.
ghost use Rattle.std.specs.Prelude.{◌≡◌, ◌≤◌, ℕ, ◌<◌, ◌++◌, List, length, vec_len, IfOk, IfErr, IsErrOf, IsTrue, MatchResult};
ghost use Rattle.rock_io.specs.Faults.{Rose};
ghost use Rattle.script_text.specs.Script.{IsScript, IsBadScript, GivesScript, GivesBadLine, Explains, IsTakenFrom};
ghost use Rattle.script_text.specs.declared.line.Line.{Line};

use crate::fault::ScriptFault;
use crate::line::Script;
use crate::reading::Reading;
use rock_io::{Memory, Source};
use std::alloc::Global;

/// How many bytes are asked of a source at once.
const CHUNK: usize = 8192;

fn buffer(alloc: Global) -> Result<Vec<u8>, Memory>
    ensures { IfOk result (λ buf. vec_len buf ≡ 8192) }
{
    Ok(vec![in alloc; 0; CHUNK]?)
}

/// Reads a script to its end, for so many workers. The first bad line ends the reading, and so does the
/// first byte of a line, or of a script, past its limits: the source is not read behind the piece in
/// which that line ends. A call that fails is not tried again, and is told as what it is.
pub fn read_script<S: Source>(
    alloc: Global,
    src: &mut S,
    workers: u32,
) -> Result<Script, ScriptFault>
    ensures script { IfOk result (λ script. GivesScript S.tells workers (S.left src.old) (S.left src.new) script.lines) }
    ensures refused { IfErr result (Explains (GivesBadLine S.tells workers (S.left src.old)) (Rose (S.faults src.old) (S.faults src.new))) }
    ensures good { (lines : List Line) → IsTrue S.tells → IsScript workers (S.left src.old) lines
        → MatchResult result (λ script. script.lines ≡ lines) (Explains (λ _ _. ⊥) (Rose (S.faults src.old) (S.faults src.new))) }
    ensures bad { (line cause : ℕ) → IsTrue S.tells → IsBadScript workers (S.left src.old) line cause
        → MatchResult result (λ _. ⊥) (Explains (λ l c. (l ≡ line) × (c ≡ cause)) (Rose (S.faults src.old) (S.faults src.new))) }
    ensures taken { IsTakenFrom S.tells (S.left src.old) (S.left src.new) }
    ensures faults { S.faults src.old ≤ S.faults src.new }
    ensures unfailed { (IsErrOf result ScriptFault.Failed → ⊥) → S.faults src.new ≡ S.faults src.old }
{
    let mut buf = buffer(alloc)?;
    let mut reading = Reading::new(alloc, workers)?;
    'script: loop {
        let count = src.read(&mut buf)?;
        if count == 0 {
            break;
        }
        reading.take_bytes(alloc, &buf[..count])?;
    }
    reading.finish(alloc)
}
