ghost use Rattle.std.specs.Prelude.{◌≡◌, ℕ, ◌<◌, ◌≤◌, Bool, IsTrue, List, ◌++◌, length, take, IfOk, OnOk, OnErr};
ghost use Rattle.rock_io.specs.Faults.{Rose};
ghost use Rattle.rock_io.specs.Sink.{TakesPrefix};

use crate::Failed;

/// Takes bytes, in order.
pub trait Sink {
    /// Whether sinks of this type tell their bytes. Where they don't, no clause on bytes says
    /// anything of them.
    ghost tells: { Bool };

    /// The bytes that were taken.
    ghost taken: { Self → List ℕ };

    /// How many of its calls have failed.
    ghost faults: { Self → ℕ };

    /// Takes bytes from the front of `bytes`, and answers how many: at least one, where there is
    /// one.
    fn write(&mut self, bytes: &[u8]) -> Result<usize, Failed>
        ensures count { IfOk result (λ n. n ≤ length bytes.now) }
        ensures some { IfOk result (λ n. 0 < length bytes.now → 0 < n) }
        ensures taken { IfOk result (λ n. IsTrue tells → taken self.new ≡ taken self.old ++ take n bytes.now) }
        ensures kept { OnErr result (taken self.new ≡ taken self.old) }
        ensures faults { faults self.old ≤ faults self.new }
        ensures unfailed { OnOk result (faults self.new ≡ faults self.old) }
        ensures failed { OnErr result (Rose (faults self.old) (faults self.new)) };
}

/// Writes all of `bytes`, in as many calls as that takes, and in none where there is no byte. It
/// fails at the first call that fails, and a first part of `bytes` may then have been taken.
pub fn write_all<K: Sink>(out: &mut K, bytes: &[u8]) -> Result<(), Failed>
    ensures all { OnOk result (IsTrue K.tells → K.taken out.new ≡ K.taken out.old ++ bytes.now) }
    ensures prefix { IsTrue K.tells → TakesPrefix (K.taken out.old) (K.taken out.new) bytes.now }
    ensures no_call { length bytes.now ≡ 0 → out.new ≡ out.old }
    ensures faults { K.faults out.old ≤ K.faults out.new }
    ensures unfailed { OnOk result (K.faults out.new ≡ K.faults out.old) }
    ensures failed { OnErr result (Rose (K.faults out.old) (K.faults out.new)) }
{
    let mut done = 0;
    while done < bytes.len() {
        done += out.write(&bytes[done..])?;
    }
    Ok(())
}
