// How long the parts of a sheet are in bytes, the most of them that it may have, and room for the largest sheet and one byte more.
ghost use Rattle.std.specs.Prelude.{◌≡◌, length};
ghost use Rattle.sheet_bytes.specs.Room.{room};

// The bytes of a header, of a row's mark and label, and of a value.
pub(crate) const HEAD_SIZE: usize = 20;

pub(crate) const ROW_FIXED: usize = 3;

pub(crate) const VALUE_SIZE: usize = 8;

// The most rows and values that a sheet may have here, and so the least that is lent.
pub const MOST_READ: usize = 2048;

pub const MOST_CELLS: usize = 8192;

const LARGEST_SHEET: usize = HEAD_SIZE + ROW_FIXED * MOST_READ + VALUE_SIZE * MOST_CELLS;

// One byte more, so that a longer input is seen to be longer.
const ROOM: usize = LARGEST_SHEET + 1;

// A function of its own, so that a proof need not go through so many zeros.
pub fn empty_room() -> [u8; ROOM]
    ensures { room ≡ length result }
{
    [0; ROOM]
}
