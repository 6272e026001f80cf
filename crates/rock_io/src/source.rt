ghost use Rattle.std.specs.Prelude.{◌≡◌, ℕ, ◌<◌, ◌≤◌, Bool, IsTrue, List, [], ◌++◌, length, take, IfOk, OnOk, OnErr};
ghost use Rattle.rock_io.specs.Faults.{Rose};

use crate::Failed;

/// Gives bytes, in order.
pub trait Source {
    /// Whether sources of this type tell their bytes. Where they don't, no clause on bytes says
    /// anything of them.
    ghost tells: { Bool };

    /// The bytes that are still to come.
    ghost left: { Self → List ℕ };

    /// How many of its calls have failed.
    ghost faults: { Self → ℕ };

    /// Puts the next bytes into the front of `buf`, and answers how many. 0 for a `buf` with room
    /// says that none is left.
    fn read(&mut self, buf: &mut [u8]) -> Result<usize, Failed>
        ensures count { IfOk result (λ n. n ≤ length buf.old) }
        ensures given { IfOk result (λ n. IsTrue tells → left self.old ≡ take n buf.new ++ left self.new) }
        ensures end { IfOk result (λ n. IsTrue tells → n ≡ 0 → 0 < length buf.old → left self.old ≡ []) }
        ensures kept { OnErr result (left self.new ≡ left self.old) }
        ensures faults { faults self.old ≤ faults self.new }
        ensures unfailed { OnOk result (faults self.new ≡ faults self.old) }
        ensures failed { OnErr result (Rose (faults self.old) (faults self.new)) };
}
