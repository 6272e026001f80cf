// A command line is carried out.
ghost use Rattle.std.specs.Prelude.{IsTrue};
ghost use Rattle.rock_disk.specs.File.{NoneAway};

use rock_commands::rock;
use rock_disk::Volume;
use rock_io::Memory;
use std::alloc::Global;
use std::sync::Wait;
use std::thread::Threads;
use test_stories::{Ended, Pipes, words_of};

/// Carries out a command line over a volume and a script.
pub(super) fn call<R: Threads + Wait + Sync, V: Volume>(
    rt: &R,
    alloc: Global,
    volume: &mut V,
    pipes: &Pipes,
    line: &str,
    script: &[u8],
) -> Result<Ended, Memory>
where
    V::St: Send,
    requires home { IsTrue V.tells → NoneAway (V.files volume.old) }
    ensures back { IsTrue V.tells → NoneAway (V.files volume.new) }
{
    let words = words_of(alloc, line)?;
    let mut source = pipes.source(alloc, script)?;
    let mut out = pipes.sink(alloc)?;
    let status = rock(rt, alloc, &words, volume, &mut source, &mut out);
    Ended::new(alloc, status, &out)
}
