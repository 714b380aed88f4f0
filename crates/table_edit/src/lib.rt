// Adding and removing a row of a table.
#![tactic(auto)]

ghost use Rattle.std.specs.Prelude.{◌≡◌, ◌≤◌, ◌<◌};
ghost use Rattle.table_row.specs.Limits.{most_rows};
ghost use Rattle.table_edit.specs.Edit.{added, removed, edited_by, add_of, remove_of};

use refusal::{Refusal, Rule};
use table::Table;
use table_row::Row;
use table_row::limits::ROWS;

fn with_row(t: Table, row: Row) -> Table
    requires { t.count < most_rows }
    ensures { result ≡ added t row }
{
    let n = t.count as usize;
    let mut u = t;
    u.count = t.count + 1;
    u.rows[n] = row;
    u.rows[n + 1..].fill(table_row::no_row());
    u
}

fn without_row(t: Table, index: u32) -> Table
    requires { (index < t.count) × (t.count ≤ most_rows) }
    ensures { result ≡ removed t index }
{
    let n = t.count as usize;
    let at = index as usize;
    let mut u = t;
    u.count = t.count - 1;
    u.rows[at..n - 1].copy_from_slice(&t.rows[at + 1..n]);
    u.rows[n - 1..].fill(table_row::no_row());
    u
}

// Puts a row at the end. A refusal leaves the table as it came.
#[tactic(auto, unfolding(crate::specs::Edit::add_of, crate::specs::Edit::edited, refusal::specs::Order::first))]
pub fn add(t: Table, row: Row) -> Result<Table, Refusal>
    ensures { edited_by t result ≡ add_of t row }
{
    table::refusal_of(t)?;
    if ROWS <= t.count as usize {
        return Err(Rule::Count.into());
    }
    let more = with_row(t, row);
    table::refusal_of(more)?;
    Ok(more)
}

// Takes the row at an index, and moves later rows up by one. A refusal leaves the table as it came.
#[tactic(auto, unfolding(crate::specs::Edit::remove_of, crate::specs::Edit::edited, crate::specs::Edit::no_such_row, refusal::specs::Order::first))]
pub fn remove(t: Table, index: u32) -> Result<Table, Refusal>
    ensures { edited_by t result ≡ remove_of t index }
{
    table::refusal_of(t)?;
    if t.count as u32 <= index {
        return Err(Rule::NoRow.into());
    }
    let fewer = without_row(t, index);
    table::refusal_of(fewer)?;
    Ok(fewer)
}
