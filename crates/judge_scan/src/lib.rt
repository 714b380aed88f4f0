// The least length at which more work is due than the slots of a map supply.
#![tactic(auto)]

ghost use Rattle.std.specs.Prelude.{◌≡◌, MatchOption, ℕ, ◌+◌, ◌^◌, ◌≤◌, ◌<◌, min, length, get_or};
ghost use Rattle.std.specs.Int.Count.{ones};
ghost use Rattle.basics.specs.Over.{Over};
ghost use Rattle.table_row.specs.Limits.{most_processors, most_slots};
ghost use Rattle.judge_scan.specs.Dues.{falling, Falls, falling_in, most_due};
ghost use Rattle.judge_scan.specs.Totals.{Low, FailsAt, FailsNowhere};
ghost use Rattle.judge_scan.specs.Lines.{Scanned};

use basics::widths;
use sets::Set;
use table::framed::Framed;
use table_row::Row;
use table_row::limits::SLOTS;

// A length that fails, the work due in it and its supply.
#[derive(Clone, Copy)]
pub struct Line {
    pub t: u32,
    pub work: u32,
    pub supply: u32,
}

// The smaller of m and the size of the slot's set.
fn usable(w: Set, m: u32) -> u32
    ensures { result ≡ min m (ones w) }
{
    m.min(sets::size(w))
}

// What each slot of a map supplies, in a list of its own: no exit and no sum, so that it is done many slots at a time.
fn usables(map: &[Set], m: u32, h: usize, list: &mut [u32; SLOTS])
    requires { (h ≤ most_slots) × (h ≤ length map.now) × (h ≤ length list.old) }
    ensures { Over (λ s. min m (ones (get_or map.now s 0))) 0 h list.old list.new }
{
    for s in 0..h {
        list[s] = usable(map[s], m);
    }
}

// Adds a row's work to the slots in which its windows end.
fn row_dues(list: &mut [u32; SLOTS], row: Row, h: usize)
    requires row_fine { (0 < row.deadline) × (row.deadline ≤ row.period) × (h ≤ most_slots) × (h ≤ length list.old) }
    requires sums_fit { (s : ℕ) → s < h → get_or list.old s 0 + row.execution < 2 ^ 32 }
    ensures { Falls (falling row) h list.old list.new }
{
    let period = row.period as usize;
    let deadline = row.deadline as usize;
    for s in (deadline - 1..h).step_by(period) {
        list[s] += row.execution as u32;
    }
}

// Adds the work of all rows to the slots in which their windows end.
fn dues(a: Framed, list: &mut [u32; SLOTS])
    requires { (s : ℕ) → s < a.frame → get_or list.old s 0 ≡ 0 }
    ensures { Falls (falling_in a.table a.table.count) a.frame list.old list.new }
{
    for row in &a.table.rows[..a.table.count as usize] {
        row_dues(list, *row, a.frame as usize);
    }
}

// The least length at which the sum of the dues is greater than that of the usable supply.
fn least(dues: &[u32; SLOTS], usables: &[u32; SLOTS], h: usize) -> Option<Line>
    requires { (h ≤ most_slots) × Low most_due h dues.now × Low most_processors h usables.now }
    ensures { MatchOption result (FailsNowhere dues.now usables.now h) (FailsAt dues.now usables.now h) }
{
    let mut supply: u32 = 0;
    let mut work: u32 = 0;
    for k in 0..h {
        supply += usables[k];
        work += dues[k];
        if supply < work {
            return Some(Line {
                t: widths::word_of_size(k + 1),
                work,
                supply,
            });
        }
    }
    None
}

// The line of the map that a list holds, where some length fails there.
pub fn scan(a: Framed, map: &[Set]) -> Option<Line>
    requires { a.frame ≤ length map.now }
    ensures { Scanned a.table a.frame map.now result }
{
    let h = a.frame as usize;
    let mut due = [0u32; SLOTS];
    dues(a, &mut due);
    let mut usable = [0u32; SLOTS];
    usables(map, a.table.processors as u32, h, &mut usable);
    least(&due, &usable, h)
}
