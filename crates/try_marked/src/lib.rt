// The ten marked tables as one constant, each with the answer that the rules give.
#![tactic(auto)]

ghost use Rattle.std.specs.Prelude.{◌≡◌, ◌≤◌};
ghost use Rattle.try_marked.specs.Rows.{row_from, table_from};
ghost use Rattle.try_marked.specs.Case.{case_table};
ghost use Rattle.try_marked.specs.Paper.{Kept};

use sets::Set;
use table::Table;
use table_row::Row;

// The first words of both lists.
#[derive(Clone, Copy)]
pub struct Lists {
    pub map: [Set; 4],
    pub pins: [Set; 4],
}

// A table of up to four rows (T, C and D of each, and zeros past the count); its frame; t, work and supply of an infeasible one; and
// both lists where they are told.
#[derive(Clone, Copy)]
pub struct Case {
    pub processors: u16,
    pub depth: u16,
    pub count: u16,
    pub rows: [[u16; 3]; 4],
    pub frame: u32,
    pub line: Option<[u32; 3]>,
    pub lists: Option<Lists>,
}

const MARKED: [Case; 10] = [
    // 1. A longer length fails too, 11 (20 against 19); the least decides.
    Case {
        processors: 2,
        depth: 1,
        count: 3,
        rows: [[2, 1, 1], [3, 2, 2], [4, 2, 3], [0, 0, 0]],
        frame: 12,
        line: Some([8, 14, 13]),
        lists: None,
    },
    // 2.
    Case {
        processors: 2,
        depth: 1,
        count: 4,
        rows: [[2, 1, 1], [3, 2, 2], [4, 2, 3], [8, 1, 6]],
        frame: 24,
        line: None,
        lists: None,
    },
    // 3.
    Case {
        processors: 2,
        depth: 2,
        count: 4,
        rows: [[2, 1, 1], [3, 2, 2], [4, 2, 3], [8, 1, 6]],
        frame: 24,
        line: Some([8, 15, 14]),
        lists: None,
    },
    // 4.
    Case {
        processors: 1,
        depth: 1,
        count: 1,
        rows: [[1, 1, 1], [0, 0, 0], [0, 0, 0], [0, 0, 0]],
        frame: 1,
        line: None,
        lists: None,
    },
    // 5.
    Case {
        processors: 2,
        depth: 1,
        count: 3,
        rows: [[1, 1, 1], [1, 1, 1], [1, 1, 1], [0, 0, 0]],
        frame: 1,
        line: Some([1, 3, 2]),
        lists: None,
    },
    // 6.
    Case {
        processors: 1,
        depth: 1,
        count: 2,
        rows: [[2, 1, 1], [2, 1, 1], [0, 0, 0], [0, 0, 0]],
        frame: 2,
        line: Some([1, 2, 1]),
        lists: None,
    },
    // 7.
    Case {
        processors: 2,
        depth: 1,
        count: 3,
        rows: [[3, 2, 3], [3, 2, 3], [3, 2, 3], [0, 0, 0]],
        frame: 3,
        line: None,
        lists: None,
    },
    // 8.
    Case {
        processors: 2,
        depth: 1,
        count: 3,
        rows: [[2, 2, 2], [2, 2, 2], [2, 2, 2], [0, 0, 0]],
        frame: 2,
        line: Some([2, 6, 4]),
        lists: None,
    },
    // 9.
    Case {
        processors: 1,
        depth: 1,
        count: 1,
        rows: [[4, 1, 3], [0, 0, 0], [0, 0, 0], [0, 0, 0]],
        frame: 4,
        line: None,
        lists: Some(Lists {
            map: [1, 1, 1, 0],
            pins: [0, 0, 0, 0],
        }),
    },
    // 10.
    Case {
        processors: 1,
        depth: 2,
        count: 1,
        rows: [[4, 1, 3], [0, 0, 0], [0, 0, 0], [0, 0, 0]],
        frame: 4,
        line: None,
        lists: Some(Lists {
            map: [1, 0, 0, 0],
            pins: [1, 0, 0, 0],
        }),
    },
];

fn row_from(l: [u16; 3]) -> Row
    ensures { result ≡ row_from l }
{
    let [period, execution, deadline] = l;
    Row {
        period,
        execution,
        deadline,
        ..table_row::no_row()
    }
}

// A table from T, C and D of four rows, with zeros past them.
pub fn table_from(processors: u16, depth: u16, count: u16, rows: [[u16; 3]; 4]) -> Table
    ensures { result ≡ table_from processors depth count rows }
{
    let [a, b, c, d] = rows;
    let mut room = table::no_rows();
    room[..4].copy_from_slice(&[row_from(a), row_from(b), row_from(c), row_from(d)]);
    Table {
        processors,
        depth,
        count,
        rows: room,
        ..table::no_table()
    }
}

// The table of a case.
pub fn case_table(c: Case) -> Table
    ensures { result ≡ case_table c }
{
    table_from(c.processors, c.depth, c.count, c.rows)
}

// The marked tables. The rules give every entry's answer.
pub fn marked() -> [Case; 10]
    ensures { Kept result }
{
    MARKED
}
