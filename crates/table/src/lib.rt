// A table of tasks and its check.
#![tactic(auto)]

ghost use Rattle.std.specs.Prelude.{◌≡◌};
ghost use Rattle.table.specs.Rows.{no_rows, beside_of, no_table};
ghost use Rattle.refusal.specs.Told.{told_in};
ghost use Rattle.table.specs.Check.{numbers, check_of, table_refusal};
ghost use Rattle.table.specs.Seen.{seen, none_seen, one_more, step_of, finish_of};

use basics::ranges;
use refusal::{Refusal, Rule};
use table_row::limits::{DEPTHS, PROCESSORS, ROWS, SLOTS};
use table_row::{Row, euclid};

pub mod framed;

// Processors m, depth x, and room for the rows, of which the first `count` matter: a value, with the rows in a fixed array beside their
// count, as the papers ask.
#[repr(C)]
#[derive(Clone, Copy)]
pub struct Table {
    pub processors: u16,
    pub depth: u16,
    pub count: u16,
    pub rows: [Row; ROWS],
}

// What stands beside the rows: m and x.
#[repr(C)]
#[derive(Clone, Copy)]
pub struct Beside {
    pub processors: u16,
    pub depth: u16,
}

impl From<Table> for Beside {
    ghost from_gives = { λ t b. b ≡ beside_of t };

    fn from(t: Table) -> Beside {
        Beside {
            processors: t.processors,
            depth: t.depth,
        }
    }
}

// What stands beside the rows, and what the rows seen so far come to: how many they are, one more than the most for all above it;
// the first refusal of a row by itself; and the multiple of their periods, which stops over the longest frame, with the last row that
// it took in.
#[derive(Clone, Copy)]
pub struct Seen {
    pub beside: Beside,
    pub count: u8,
    pub fault: Result<(), Refusal>,
    pub frame: u32,
    pub last: u8,
}

// The room for rows, with zeros in it.
pub fn no_rows() -> [Row; ROWS]
    ensures { result ≡ no_rows }
{
    [table_row::no_row(); ROWS]
}

// A table of zeros. No check accepts it, so it is no Default.
pub fn no_table() -> Table
    ensures { result ≡ no_table }
{
    Table {
        processors: 0,
        depth: 0,
        count: 0,
        rows: no_rows(),
    }
}

// No row yet.
pub fn start(beside: Beside) -> Seen
    ensures { seen result ≡ none_seen beside }
{
    Seen {
        beside,
        count: 0,
        fault: Ok(()),
        frame: 1,
        last: 0,
    }
}

// Stands for every count above the most.
const MANY: u8 = ROWS as u8 + 1;

#[tactic(auto, unfolding(crate::specs::Seen::one_more))]
fn one_more(n: u8) -> u8
    ensures { result ≡ one_more n }
{
    n.min(ROWS as u8) + 1
}

// One row more.
#[tactic(auto, using(basics::proofs::Range::range_passed, basics::proofs::Range::range_failed, basics::proofs::Range::inside_true), unfolding(crate::specs::Seen::step_of))]
pub fn step(s: Seen, row: Row) -> Seen
    ensures { seen result ≡ step_of (seen s) row }
{
    let mut u = s;
    u.count = one_more(s.count);
    if s.fault.is_err() {
        return u;
    }
    if let Err(rule) = table_row::row_refusal(row) {
        u.fault = Err(Refusal::in_row(rule, s.count));
        return u;
    }
    if !ranges::within(1, s.frame as usize, SLOTS) {
        return u;
    }
    u.frame = euclid::multiple(s.frame, row.period);
    u.last = s.count;
    u
}

// The frame of the rows seen, or their first refusal: 1, 2, 3, then the rows' 4, 5, 6, then 7.
#[tactic(auto, using(basics::proofs::Range::range_passed, basics::proofs::Range::range_failed, basics::proofs::Range::inside_true), unfolding(crate::specs::Seen::finish_of, crate::specs::Seen::ranges, crate::specs::Seen::seen_each))]
pub fn finish(s: Seen) -> Result<u32, Refusal>
    ensures { numbers result ≡ finish_of (seen s) }
{
    if !ranges::within(1, s.beside.processors as usize, PROCESSORS) {
        return Err(Rule::Processors.into());
    }
    if !ranges::within(1, s.beside.depth as usize, DEPTHS) {
        return Err(Rule::Depth.into());
    }
    if !ranges::within(1, s.count as usize, ROWS) {
        return Err(Rule::Count.into());
    }
    s.fault?;
    if SLOTS < s.frame as usize {
        return Err(Refusal::in_row(Rule::Frame, s.last));
    }
    Ok(s.frame)
}

// The frame of a table, or its first refusal.
pub fn check(t: Table) -> Result<u32, Refusal>
    ensures { numbers result ≡ check_of t }
{
    let n = t.count as usize;
    let mut s = start(t.into());
    if ROWS < n {
        s.count = MANY;
        return finish(s);
    }
    for row in &t.rows[..n] {
        s = step(s, *row);
    }
    finish(s)
}

// The refusal of a table, 1 to 7, or none.
pub fn refusal_of(t: Table) -> Result<(), Refusal>
    ensures { told_in result ≡ table_refusal t }
{
    check(t)?;
    Ok(())
}
