// The numbers by which a caller names a step, as docs/STATE-MACHINE.md has them.

pub const LOOK: u8 = 1;

pub const ENTER: u8 = 2;

pub const LEAVE: u8 = 3;

pub const COUNT: u8 = 4;

pub const DRAW: u8 = 5;

/// An anchor is taken for the version that is the value, or evicted where that is 0.
pub const CHANGE: u8 = 6;

pub const RAISE: u8 = 7;

pub const DOOM: u8 = 8;

/// A word beside an anchor is loaded, or stored.
pub const SIDE: u8 = 9;

pub const OWN: u8 = 10;

pub const DISOWN: u8 = 11;

/// A slot is published with the link word that is the value, or loosened where that is 0.
pub const LINK: u8 = 12;

pub const GET_LINK: u8 = 13;

/// A piece is logged, durable where the value is 1.
pub const LOG_PIECE: u8 = 14;

pub const TRY_TURN: u8 = 15;

pub const END_TURN: u8 = 16;

/// What comes with the end of a turn: nothing, a reading tab goes on, or the slot was wiped.
pub const NOTHING_MORE: u64 = 0;

pub const WIPED: u64 = 2;

/// No end of a turn has this number.
pub const THEN_END: u32 = 3;

pub const CELL_OUT: u8 = 17;

pub const CELL_IN: u8 = 18;

pub const NOTE: u8 = 19;

pub const LEARN: u8 = 20;

pub const WRITE: u8 = 21;

pub const SYNC: u8 = 22;

pub const LOOK_MAP: u8 = 25;

/// One more than the greatest kind. A crash and a rebuild, 23 and 24, are no steps of a pass.
pub const KIND_END: u32 = 26;

/// The words beside an anchor, by the numbers that load them.
pub const KEY0: u32 = 0;

pub const KEY1: u32 = 1;

pub const OFFER: u32 = 2;

pub const START: u32 = 3;

/// From this number on a word beside an anchor is stored.
pub const STORES: u32 = 4;

pub const STORE_KEY0: u32 = 4;

pub const STORE_KEY1: u32 = 5;

pub const STORE_OFFER: u32 = 6;

pub const STORE_START: u32 = 7;

pub const SIDE_END: u32 = 8;

/// The stages to which an anchor is raised.
pub const APPENDING: u64 = 2;

pub const CLOSED: u64 = 3;

pub const HALTED: u64 = 4;

pub const GONE: u64 = 6;

/// No stage has this number.
pub const STAGE_END: u32 = 7;

/// How a write of a cell ends: it fails, it is kept, a crash may leave it, or both of these.
pub const NOTHING: u64 = 0;

pub const KEPT: u64 = 1;

pub const UNSURE: u64 = 2;

pub const KEPT_UNSURE: u64 = 3;

pub const WRITE_END: u32 = 4;
