// How many rows the work tables of a program that answers sheets have: enough for every sheet (proofs/Rooms).
ghost use Rattle.std.specs.Prelude.{◌≡◌};
ghost use Rattle.answers.specs.SheetRooms.{sheet_rooms, rooms_within};

use filling::lent::Rooms;
use sheet::kinds::{B, S, TABLE, U};
use table_text::write::{GAP_LINE, GAP_SEGMENT_LINE, LINK_LINE, USE_LINE};

pub const USE_ROWS: usize = TABLE[U].limit + 2;

pub const GAP_ROWS: usize = TABLE[U].limit + TABLE[B].limit + 2;

pub const GAP_SEGMENT_ROWS: usize = TABLE[U].limit + TABLE[B].limit + TABLE[S].limit + 2;

pub const LINK_ROWS: usize = TABLE[B].limit;

// No answer has more bytes (proofs/Rooms).
pub const ANSWER_BYTES: usize = 81;

// The bytes of the tables' text where every row is used: no job's is longer (proofs/FitTables).
pub const TABLE_BYTES: usize = LINK_LINE * LINK_ROWS
    + USE_LINE * USE_ROWS
    + GAP_LINE * GAP_ROWS
    + GAP_SEGMENT_LINE * GAP_SEGMENT_ROWS;

// The rows of the four tables.
pub fn sheet_rooms() -> Rooms
    ensures { result ≡ sheet_rooms }
{
    Rooms {
        uses: USE_ROWS,
        gaps: GAP_ROWS,
        gap_segments: GAP_SEGMENT_ROWS,
        links: LINK_ROWS,
    }
}

// The rows that are lent where so many are asked for: no more than there are.
pub(crate) fn rooms_lent(asked: Rooms) -> Rooms
    ensures { result ≡ rooms_within asked }
{
    Rooms {
        uses: asked.uses.min(USE_ROWS),
        gaps: asked.gaps.min(GAP_ROWS),
        gap_segments: asked.gap_segments.min(GAP_SEGMENT_ROWS),
        links: asked.links.min(LINK_ROWS),
    }
}
