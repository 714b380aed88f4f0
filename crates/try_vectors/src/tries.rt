// The tables that are tried by the judge or by the ladder.
use Lent::{All, Both, Map, Pins};
use table::Table;
use table_row::limits::SLOTS;

// What is lent of the two lists: all of both, or so many words of the one that is named, or of both.
#[derive(Clone, Copy)]
pub enum Lent {
    All,
    Map(usize),
    Pins(usize),
    Both(usize),
}

// m, x and the row count; T, C and D of up to four rows, and zeros past them; what is lent; and how many words of each list are told.
#[derive(Clone, Copy)]
pub struct Try(
    pub u16,
    pub u16,
    pub u16,
    pub [[u16; 3]; 4],
    pub Lent,
    pub usize,
);

impl Try {
    pub fn table(&self) -> Table {
        let Try(processors, depth, count, rows, ..) = *self;
        try_marked::table_from(processors, depth, count, rows)
    }
}

// The longest period.
const MAX: u16 = SLOTS as u16;

// Past the rows of a table.
const NONE: [u16; 3] = [0; 3];

// The rows that come most often, and one more.
const THREE: [[u16; 3]; 4] = [[2, 1, 1], [3, 2, 2], [4, 2, 3], NONE];

const FOUR: [[u16; 3]; 4] = [[2, 1, 1], [3, 2, 2], [4, 2, 3], [8, 1, 6]];

// For the judge: unmarked tables, wrong turns, refusals, and verdicts that turn.
pub const JUDGED: &[Try] = &[
    // Infeasible, with a word past the frame of both lists.
    Try(2, 1, 3, THREE, All, 13),
    // A fourth row: undecided at depth 1, infeasible at depth 2.
    Try(2, 1, 4, FOUR, All, 25),
    Try(2, 2, 4, FOUR, All, 25),
    // Slot T - 1 where D is below T: no window reaches it.
    Try(2, 1, 3, [[2, 1, 1], [2, 2, 2], [2, 1, 1], NONE], All, 3),
    // No demand is forced forward.
    Try(2, 1, 3, [[2, 1, 2], [4, 2, 2], [4, 3, 3], NONE], All, 0),
    // The first row is pinned in slot 7 at depth 1, and in 5 and 6 at depth 2.
    Try(1, 2, 2, [[5, 2, 4], [4, 1, 3], NONE, NONE], All, 20),
    Try(1, 3, 2, [[5, 2, 4], [4, 1, 3], NONE, NONE], All, 20),
    // The longest period alone, and with a period that takes the frame over the most.
    Try(1, 1, 1, [[MAX, MAX, MAX], NONE, NONE, NONE], All, 1),
    Try(1, 1, 2, [[MAX, 1, 1], [3, 1, 1], NONE, NONE], All, 1),
    // C above D, D above T, and no C.
    Try(1, 1, 1, [[4, 3, 2], NONE, NONE, NONE], All, 1),
    Try(1, 1, 1, [[4, 1, 5], NONE, NONE, NONE], All, 1),
    Try(1, 1, 1, [[4, 0, 4], NONE, NONE, NONE], All, 1),
    // Wrong turns: pinning where more than m rows are available; pinning on at C, or only below m; only earlier pins counted; only the frame's end looked at.
    Try(1, 2, 2, [[2, 1, 1], [2, 1, 2], NONE, NONE], All, 3),
    Try(2, 2, 3, [[2, 1, 2], [4, 2, 2], [4, 3, 3], NONE], All, 5),
    Try(2, 3, 3, [[8, 5, 5], [2, 1, 2], [4, 3, 4], NONE], All, 9),
    Try(1, 1, 2, [[1, 1, 1], [2, 1, 1], NONE, NONE], All, 3),
    // Refusals 1, 2 and 3, in this order.
    Try(0, 0, 0, [NONE; 4], All, 1),
    Try(17, 1, 1, [[1, 1, 1], NONE, NONE, NONE], All, 1),
    Try(1, 0, 0, [NONE; 4], All, 1),
    Try(1, 9, 1, [[1, 1, 1], NONE, NONE, NONE], All, 1),
    Try(1, 1, 0, [NONE; 4], All, 1),
    Try(1, 1, 33, [[1, 1, 1], NONE, NONE, NONE], All, 1),
    // T, then D, then C, of each row; all rows before the frame.
    Try(1, 1, 1, [NONE; 4], All, 1),
    Try(1, 1, 1, [[MAX + 1, 1, 1], NONE, NONE, NONE], All, 1),
    Try(1, 1, 1, [[4, 9, 5], NONE, NONE, NONE], All, 1),
    Try(1, 1, 3, [[MAX, 1, 1], [3, 1, 1], NONE, NONE], All, 1),
    // Either list too short, and just long enough; 4 before 8.
    Try(2, 1, 3, THREE, Map(11), 1),
    Try(2, 1, 3, THREE, Pins(11), 1),
    Try(2, 1, 3, THREE, Both(12), 13),
    Try(1, 1, 1, [NONE; 4], Both(0), 1),
    // Verdicts turn more than once as one C grows.
    Try(
        2,
        3,
        4,
        [[12, 6, 6], [2, 1, 2], [12, 3, 12], [6, 3, 3]],
        All,
        0,
    ),
    Try(
        2,
        3,
        4,
        [[12, 6, 6], [2, 1, 2], [12, 4, 12], [6, 3, 3]],
        All,
        0,
    ),
    Try(
        2,
        3,
        4,
        [[12, 6, 6], [2, 1, 2], [12, 6, 12], [6, 3, 3]],
        All,
        0,
    ),
];

// For the ladder.
pub const CLIMBED: &[Try] = &[
    // Undecided at depth 1 only.
    Try(2, 1, 4, FOUR, All, 25),
    // The table's own depth is not used.
    Try(1, 8, 2, [[5, 2, 4], [4, 1, 3], NONE, NONE], All, 21),
    Try(2, 1, 3, [[8, 5, 5], [2, 1, 2], [4, 3, 4], NONE], All, 9),
    // But it is checked.
    Try(2, 9, 4, FOUR, All, 1),
    // Either list too short.
    Try(2, 1, 3, THREE, Map(11), 1),
    Try(2, 1, 3, THREE, Pins(11), 1),
];
