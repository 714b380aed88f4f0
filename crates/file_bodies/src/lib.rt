// The body of a table: read, refused and written.
#![tactic(auto)]

ghost use Rattle.std.specs.Prelude.{◌≡◌, ◌+◌, ◌≤◌, length, take, replicate};
ghost use Rattle.refusal.specs.Told.{told_in};
ghost use Rattle.table_row.specs.Limits.{most_rows};
ghost use Rattle.table.specs.Rows.{room_by};
ghost use Rattle.table.specs.Check.{table_refusal};
ghost use Rattle.file_bytes.specs.Over.{over};
ghost use Rattle.file_bodies.specs.Layout.{body_head, row_length, most_body};
ghost use Rattle.file_bodies.specs.Body.{row_of, body_table, table_at, row_bytes, rows_bytes, table_bytes};
ghost use Rattle.file_bodies.specs.Refusal.{body_refusal};

use refusal::{Refusal, Rule};
use table::Table;
use table_row::Row;
use table_row::limits::ROWS;

pub mod layout;

use layout::{BODY, FIELD, HEAD};

// As many rows as there is room for.
const ROOM: u16 = ROWS as u16;

#[tactic(auto, unfolding(crate::specs::Body::row_of))]
fn read_row(b: &[u8], i: u16) -> Row
    ensures { result ≡ row_of b.now i }
{
    let at = layout::row_place(i);
    Row {
        period: file_bytes::le16(b, at),
        execution: file_bytes::le16(b, at + FIELD),
        deadline: file_bytes::le16(b, at + 2 * FIELD),
        ..table_row::no_row()
    }
}

// The first n rows, and zeros after them.
#[tactic(auto, using(table::proofs::RowsBy::room_none, table::proofs::RowsBy::room_more))]
fn read_rows(b: &[u8], n: u16) -> [Row; ROWS]
    requires { n ≤ most_rows }
    ensures { result ≡ room_by (row_of b.now) n }
{
    let mut rows = table::no_rows();
    for i in 0..n {
        rows[i as usize] = read_row(b, i);
    }
    rows
}

// The table of a body.
#[tactic(auto, unfolding(crate::specs::Body::body_table))]
pub fn read_table(b: &[u8]) -> Table
    ensures { result ≡ body_table b.now }
{
    let count = file_bytes::byte_at(b, 2) as u16;
    Table {
        processors: file_bytes::byte_at(b, 0) as u16,
        depth: file_bytes::byte_at(b, 1) as u16,
        count,
        rows: read_rows(b, count.min(ROOM)),
        ..table::no_table()
    }
}

// The table in entry i of a file.
#[tactic(auto, unfolding(crate::specs::Body::table_at))]
pub fn table_at(s: &[u8], i: u16) -> Table
    ensures { result ≡ table_at s.now i }
{
    read_table(file_entries::body(s, i))
}

// The refusal of a table's body, 15 and 1 to 7, or none.
#[tactic(auto, using(basics::proofs::When::tests), unfolding(crate::specs::Refusal::body_refusal))]
pub fn body_refusal(b: &[u8]) -> Result<(), Refusal>
    ensures { told_in result ≡ body_refusal b.now }
{
    if b.len() < HEAD
        || file_bytes::byte_at(b, 3) != 0
        || b.len() != layout::row_place(file_bytes::byte_at(b, 2) as u16)
    {
        return Err(Rule::Body.into());
    }
    table::refusal_of(read_table(b))
}

fn put_row(out: &mut [u8], at: usize, r: Row)
    requires { at + row_length ≤ length out.old }
    ensures { out.new ≡ over out.old at (row_bytes r) }
{
    file_bytes::put16(out, at, r.period);
    file_bytes::put16(out, at + FIELD, r.execution);
    file_bytes::put16(out, at + 2 * FIELD, r.deadline);
}

// Writes a table's rows at their places.
#[tactic(auto, using(file_bytes::proofs::Overs::over_none, crate::proofs::Writing::row_next), unfolding(crate::specs::Body::rows_bytes))]
fn put_rows(out: &mut [u8], t: Table)
    requires { (t.count ≤ most_rows) × (length out.old ≡ most_body) }
    ensures { out.new ≡ over out.old body_head (rows_bytes (take t.count t.rows)) }
{
    for (i, row) in t.rows[..t.count as usize].iter().enumerate() {
        put_row(out, layout::row_place(i as u16), *row);
    }
}

// The body of an accepted table, and zeros after it.
#[tactic(auto, using(table::proofs::Accepted::accepted, crate::proofs::Writing::table_written))]
pub fn table_bytes(t: Table) -> [u8; BODY]
    requires { (table_refusal t).no ≡ 0 }
    ensures { result ≡ over (replicate most_body 0) 0 (table_bytes t) }
{
    let mut out = [0u8; BODY];
    let head = [t.processors as u8, t.depth as u8, t.count as u8, 0];
    file_bytes::put_bytes(&mut out, 0, &head);
    put_rows(&mut out, t);
    out
}
