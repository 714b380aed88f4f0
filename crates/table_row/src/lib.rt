// A row of a table and its own check; the limits, and the multiple of periods.
#![tactic(auto)]

ghost use Rattle.std.specs.Prelude.{◌≡◌};
ghost use Rattle.refusal.specs.Told.{number_in};
ghost use Rattle.table_row.specs.Row.{no_row, row_refusal};

use basics::ranges;
use refusal::Rule;

pub mod euclid;
pub mod limits;

use limits::SLOTS;

// T, C and D of a task.
#[repr(C)]
#[derive(Clone, Copy)]
pub struct Row {
    pub period: u16,
    pub execution: u16,
    pub deadline: u16,
}

// A row of zeros, as it stands past a table's count. No check accepts it, so it is no Default.
pub fn no_row() -> Row
    ensures { result ≡ no_row }
{
    Row {
        period: 0,
        execution: 0,
        deadline: 0,
    }
}

// The rule that a row breaks by itself: T, then D, then C.
#[tactic(auto, using(basics::proofs::Range::range_passed, basics::proofs::Range::range_failed, basics::proofs::Range::inside_true), unfolding(crate::specs::Row::row_refusal))]
pub fn row_refusal(r: Row) -> Result<(), Rule>
    ensures { number_in result ≡ row_refusal r }
{
    let period = r.period as usize;
    if !ranges::within(1, period, SLOTS) {
        return Err(Rule::Period);
    }
    let deadline = r.deadline as usize;
    if !ranges::within(1, deadline, period) {
        return Err(Rule::Deadline);
    }
    if !ranges::within(1, r.execution as usize, deadline) {
        return Err(Rule::Execution);
    }
    Ok(())
}
