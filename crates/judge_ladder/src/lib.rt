// The ladder: the lines of the depths 1 to 8 of a table, or its refusal.
#![tactic(auto)]

ghost use Rattle.std.specs.Prelude.{◌≡◌, map};
ghost use Rattle.judge_climb.specs.Core.{to_line};
ghost use Rattle.judge_ladder.specs.Ladder.{no_lines, Laddered};

use judge_scan::Line;
use refusal::Refusal;
use sets::Set;
use table::Table;
use table_row::limits::DEPTHS;

// The public answer keeps eight small structs beside the refusal, as document 01 asks: a line for each depth from 1 to 8, zeros where
// the table is refused.
#[derive(Clone, Copy)]
pub struct Square {
    pub refusal: Result<(), Refusal>,
    pub lines: [Line; DEPTHS],
}

// A line from its three numbers.
fn line(a: [u32; 3]) -> Line
    ensures { result ≡ to_line a }
{
    Line {
        t: a[0],
        work: a[1],
        supply: a[2],
    }
}

// The square's lines as small structs.
fn lines(square: [[u32; 3]; 8]) -> [Line; DEPTHS]
    ensures { result ≡ map to_line square }
{
    square.map(line)
}

// Eight small structs of zeros.
fn zeros() -> [Line; DEPTHS]
    ensures { result ≡ no_lines }
{
    [Line {
        t: 0,
        work: 0,
        supply: 0,
    }; DEPTHS]
}

// The lines of all depths of a table, with the sets of depth 8 in the lists that are lent for them.
pub fn ladder(t: Table, map: &mut [Set], pins: &mut [Set]) -> Square
    ensures { Laddered t map.old pins.old map.new pins.new result }
{
    match judge_admit::admit(t, map.len(), pins.len()) {
        Ok(a) => Square {
            refusal: Ok(()),
            lines: lines(judge_climb::climb(a, map, pins)),
        },
        Err(r) => Square {
            refusal: Err(r),
            lines: zeros(),
        },
    }
}
