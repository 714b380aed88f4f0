// What the jobs of a row do to the pins and to the map.
#![tactic(auto)]

ghost use Rattle.std.specs.Prelude.{◌≡◌, false, ◌+◌, ◌%◌, ◌≤◌, ◌<◌, length};
ghost use Rattle.basics.specs.Over.{Over};
ghost use Rattle.judge_jobs.specs.First.{in_slot, tally, first};
ghost use Rattle.judge_jobs.specs.Passes.{putting, Noticed, WindowDone, RowDone};

use sets::Set;
use table_row::Row;

// In how many slots of a window row i is. A sum, and not a count of those that pass a test: that took four times as long for the row.
fn count(pins: &[Set], i: usize) -> usize
    ensures { result ≡ tally (in_slot i pins.now) 0 (length pins.now) }
{
    pins.iter().map(|w| usize::from(sets::has(*w, i))).sum()
}

// Of the slots of a window that have row i, `total` of them, only the first c keep it. From the end, for few that lose it.
fn trim_back(pins: &mut [Set], i: usize, c: usize, total: usize)
    requires { (c ≤ total) × (total ≡ tally (in_slot i pins.old) 0 (length pins.old)) }
    ensures { Over (putting i (first c (in_slot i pins.old) 0) pins.old) 0 (length pins.old) pins.old pins.new }
{
    let mut left = total;
    for s in (0..pins.len()).rev() {
        if left <= c {
            return;
        }
        if sets::has(pins[s], i) {
            left -= 1;
        }
        pins[s] = sets::without(pins[s], i);
    }
}

// How many slots of a window it takes to have row i in c of them.
#[tactic(auto, using(crate::proofs::Tally::tally_zero, crate::proofs::Tally::tally_next))]
fn reach(pins: &[Set], i: usize, c: usize) -> usize
    requires { c ≤ tally (in_slot i pins.now) 0 (length pins.now) }
    ensures { (result ≤ length pins.now) × (tally (in_slot i pins.now) 0 result ≡ c) }
{
    let mut left = c;
    for (s, w) in pins.iter().enumerate() {
        if left == 0 {
            return s;
        }
        if sets::has(*w, i) {
            left -= 1;
        }
    }
    pins.len()
}

// Takes row i out of slots.
fn take_out(pins: &mut [Set], i: usize)
    ensures { Over (putting i (λ s. false) pins.old) 0 (length pins.old) pins.old pins.new }
{
    for w in pins.iter_mut() {
        *w = sets::without(*w, i);
    }
}

// Of the slots of a window that have row i, `total` of them, only the first c keep it.
fn trim(pins: &mut [Set], i: usize, c: usize, total: usize)
    requires { (c ≤ total) × (total ≡ tally (in_slot i pins.old) 0 (length pins.old)) }
    ensures { Over (putting i (first c (in_slot i pins.old) 0) pins.old) 0 (length pins.old) pins.old pins.new }
{
    if total - c <= c {
        trim_back(pins, i, c, total);
        return;
    }
    let n = reach(pins, i, c);
    take_out(&mut pins[n..], i);
}

// In the map's window, row i is left only where the pins have it. Whether that changes a word.
fn restrict(map: &mut [Set], pins: &[Set], i: usize) -> bool
    requires { length map.old ≤ length pins.now }
    ensures { Over (putting i (in_slot i pins.now) map.old) 0 (length map.old) map.old map.new × Noticed 0 (length map.old) map.old map.new result }
{
    let mut changed = false;
    for s in 0..map.len() {
        let old = map[s];
        let new = sets::taking(old, pins[s], i);
        changed |= new != old;
        map[s] = new;
    }
    changed
}

// A job of row i with execution c: its window in the map and in the pins. Whether that changes the map.
fn job(map: &mut [Set], pins: &mut [Set], i: usize, c: usize) -> bool
    requires { length map.old ≡ length pins.old }
    ensures { WindowDone i c pins.old pins.new map.old map.new result }
{
    let total = count(pins, i);
    if total < c {
        return false;
    }
    trim(pins, i, c, total);
    restrict(map, pins, i)
}

// All jobs of row i in the frame.
pub fn row_pass(map: &mut [Set], pins: &mut [Set], i: usize, row: Row, h: usize) -> bool
    requires { (0 < row.period) × (row.deadline ≤ row.period) × (h % row.period ≡ 0) × (h ≤ length map.old) × (h ≤ length pins.old) }
    ensures { RowDone i row h pins.old pins.new map.old map.new result }
{
    let period = row.period as usize;
    let execution = row.execution as usize;
    let deadline = row.deadline as usize;
    let mut changed = false;
    // "Job k of a row is released at k times T and its window is the D slots from there."
    for from in (0..h).step_by(period) {
        let to = from + deadline;
        changed |= job(&mut map[from..to], &mut pins[from..to], i, execution);
    }
    changed
}
