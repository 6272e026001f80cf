use rock_io::Octets;

/// The body of a response that a script offers.
#[derive(Debug, Drop)]
pub enum Body {
    /// These bytes.
    Text(Octets),
    /// `length` bytes, which are not spelled out: byte i, from 0, is 0x61 + (i + shift) mod 26, a letter
    /// from `a` to `z`. A body of no bytes is one of these.
    Made { length: u32, shift: u8 },
}
