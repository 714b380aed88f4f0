// Where the parts of a table's body stand. specs/Layout.antt has the same numbers for the contracts.
ghost use Rattle.std.specs.Prelude.{◌≡◌, ◌<◌, ◌^◌};
ghost use Rattle.file_bodies.specs.Layout.{row_place};

use table_row::limits::ROWS;

// "m, x, the row count and a zero byte".
pub const HEAD: usize = 4;

// "T, C, D of each row, 2 bytes each".
pub const FIELD: usize = 2;

pub const ROW: usize = 6;

// The longest body.
pub const BODY: usize = HEAD + ROW * ROWS;

// Where row i begins, and so where a body of i rows ends.
pub fn row_place(i: u16) -> usize
    ensures same { result ≡ row_place i }
    ensures below { result < 2 ^ 19 }
{
    HEAD + ROW * i as usize
}
