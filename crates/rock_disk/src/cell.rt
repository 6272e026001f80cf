ghost use Rattle.std.specs.Prelude.{◌≡◌, Bool, IsTrue, length, Contains};
ghost use Rattle.rock_disk.specs.Cell.{CellState};

/// The number of a header area. No slot has it, since there are fewer of them.
pub const HEADER_NUMBER: u32 = 4_294_967_295;

/// One slot of a file, or its header area. The cells of a volume can move between threads.
pub trait Cell: Drop {
    /// Whether cells of this type tell what they hold. Where they don't, no clause on contents says
    /// anything of them.
    ghost tells: { Bool };

    /// Its number, its width in bytes, what a read gives, and what a crash may leave. No call changes
    /// the number or the width.
    ghost state: { Self → CellState };

    /// The number of its slot, or [`HEADER_NUMBER`] for a header area.
    fn number(&self) -> u32
        ensures { result ≡ (state self.now).number };

    ghost as_wide: { (cell : Self) → IsTrue tells → length (state cell).now ≡ (state cell).width };

    ghost now_may_stay: { (cell : Self) → IsTrue tells → Contains (state cell).possible (state cell).now };
}
