// A table in plain numbers, as it is lent and as it is given back.
ghost use Rattle.std.specs.Prelude.{◌≡◌, ◌<◌};
ghost use Rattle.table_row.specs.Limits.{most_rows};
ghost use Rattle.c_numbers.specs.Lent.{lent_row, lent_table, numbers_of};

use std::array;
use table::Table;
use table_row::Row;
use table_row::limits::ROWS;

// How many numbers stand before the rows: m, x and the count; and how many a row has: T, C and D.
const HEAD: usize = 3;

const FIELDS: usize = 3;

// How many numbers a table has.
pub const NUMBERS: usize = HEAD + FIELDS * ROWS;

#[tactic(auto, unfolding(crate::specs::Lent::lent_row))]
fn read_row(l: &[u16; NUMBERS], i: usize) -> Row
    requires { i < most_rows }
    ensures { result ≡ lent_row l.now i }
{
    let at = HEAD + FIELDS * i;
    Row {
        period: l[at],
        execution: l[at + 1],
        deadline: l[at + 2],
        ..table_row::no_row()
    }
}

// The table that is lent.
pub fn read_table(l: &[u16; NUMBERS]) -> Table
    ensures { result ≡ lent_table l.now }
{
    Table {
        processors: l[0],
        depth: l[1],
        count: l[2],
        rows: array::from_fn(|i| read_row(l, i)),
        ..table::no_table()
    }
}

// The numbers of a table: m, x, count, then T, C, D of each row.
pub fn numbers(t: Table) -> [u16; NUMBERS]
    ensures { result ≡ numbers_of t }
{
    let mut all = [0; NUMBERS];
    all[0] = t.processors;
    all[1] = t.depth;
    all[2] = t.count;
    for (i, row) in t.rows.iter().enumerate() {
        let at = HEAD + FIELDS * i;
        all[at] = row.period;
        all[at + 1] = row.execution;
        all[at + 2] = row.deadline;
    }
    all
}
