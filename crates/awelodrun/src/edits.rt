// Adding and removing a row for C.
ghost use Rattle.table_edit.specs.Edit.{add_of, remove_of};
ghost use Rattle.c_numbers.specs.Lent.{lent_table};
ghost use Rattle.awelodrun.specs.Outcomes.{Edits};

use crate::given;
use c_numbers::lent;
use c_numbers::lent::NUMBERS;
use table_row::Row;

// Puts a row at the end of a table: the table that comes back, and no, entry, row.
#[unsafe(no_mangle)]
pub extern "C" fn awelodrun_raw_add(
    table: &[u16; NUMBERS],
    row: Row,
    res: &mut [u16; NUMBERS],
    answer: &mut [u32; 3],
)
    ensures { Edits (add_of (lent_table table.now) row) res.new answer.new }
{
    let t = lent::read_table(table);
    given::give(table_edit::add(t, row), t, res, answer);
}

// Takes the row at an index out of a table: the table that comes back, and no, entry, row.
#[unsafe(no_mangle)]
pub extern "C" fn awelodrun_raw_remove(
    table: &[u16; NUMBERS],
    index: u32,
    res: &mut [u16; NUMBERS],
    answer: &mut [u32; 3],
)
    ensures { Edits (remove_of (lent_table table.now) index) res.new answer.new }
{
    let t = lent::read_table(table);
    given::give(table_edit::remove(t, index), t, res, answer);
}
