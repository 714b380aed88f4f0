// The square of numbers of the depths 1 to 8, each depth worked out from the one before.
#![tactic(auto)]

ghost use Rattle.std.specs.Prelude.{◌≡◌, ◌≤◌, length};
ghost use Rattle.table_row.specs.Limits.{most_depths};
ghost use Rattle.judge_scan.specs.Lines.{line_or_zeros};
ghost use Rattle.judge_climb.specs.Core.{three, Repeated, Measured, Begun, Climbed};

use judge_scan::Line;
use sets::Set;
use table::framed::Framed;
use table_row::limits::DEPTHS;

// "t, work and supply, or three zeros for undecided". Both types are of other crates, so this is no impl of From.
fn three(l: Option<Line>) -> [u32; 3]
    ensures { result ≡ three (line_or_zeros l) }
{
    match l {
        Some(l) => [l.t, l.work, l.supply],
        None => [0; 3],
    }
}

// The three numbers of the map that a list holds.
fn measure(a: Framed, map: &[Set]) -> [u32; 3]
    requires { a.frame ≤ length map.now }
    ensures { Measured a.table a.frame map.now result }
{
    three(judge_scan::scan(a, map))
}

// From a place on, every line is the one before that place.
fn repeated(square: [[u32; 3]; 8], from: usize) -> [[u32; 3]; 8]
    requires { (1 ≤ from) × (from ≤ most_depths) }
    ensures { Repeated from most_depths square result }
{
    let mut all = square;
    all[from..].fill(square[from - 1]);
    all
}

// Both lists at depth 1, and the numbers of that depth.
fn first(a: Framed, map: &mut [Set], pins: &mut [Set]) -> [u32; 3]
    requires { (a.frame ≤ length map.old) × (a.frame ≤ length pins.old) }
    ensures { Begun a.table a.frame map.old pins.old map.new pins.new result }
{
    judge_first::first_map(a, map);
    sets::clear(pins, a.frame as usize);
    measure(a, map)
}

// The square of an accepted table, one depth after another, with both lists at depth 8. A depth that changed nothing is as deep as any later one.
pub fn climb(a: Framed, map: &mut [Set], pins: &mut [Set]) -> [[u32; 3]; 8]
    requires { (a.frame ≤ length map.old) × (a.frame ≤ length pins.old) }
    ensures { Climbed a.table a.frame map.old pins.old map.new pins.new result }
{
    let mut square = [[0u32; 3]; 8];
    square[0] = first(a, map, pins);
    for y in 1..DEPTHS {
        if !judge_deepen::deepen(a, map, pins) {
            return repeated(square, y);
        }
        square[y] = measure(a, map);
    }
    square
}
