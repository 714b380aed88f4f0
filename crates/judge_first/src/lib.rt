// The map of depth 1, slot by slot.
#![tactic(auto)]

ghost use Rattle.std.specs.Prelude.{◌≡◌, ℕ, ◌%◌, ◌≤◌, ◌<◌, ltb, length, get_or};
ghost use Rattle.basics.specs.Over.{Over};
ghost use Rattle.model.specs.Depths.{available};
ghost use Rattle.sets.specs.Word.{word, words};
ghost use Rattle.table_row.specs.Limits.{most_rows};
ghost use Rattle.table.specs.Meaning.{model_of};
ghost use Rattle.judge_first.specs.Spans.{span_by, no_span, SpansOf, in_windows};

use sets::Set;
use table::framed::Framed;
use table_row::Row;
use table_row::limits::ROWS;

// T and D of a row, in the width of a slot. The rows' stand in an array of their own: out of the table they took a third longer to read.
#[derive(Clone, Copy)]
struct Span {
    period: u32,
    deadline: u32,
}

fn span_of(row: Row) -> Span
    ensures { result ≡ span_by row }
{
    Span {
        period: row.period as u32,
        deadline: row.deadline as u32,
    }
}

// The spans of the rows that matter, and zeros past them: to fill all 32 took a small table longer than its map.
fn spans(a: Framed) -> [Span; ROWS]
    ensures { SpansOf a.table a.table.count result }
{
    let mut all = [Span {
        period: 0,
        deadline: 0,
    }; ROWS];
    for (i, row) in a.table.rows[..a.table.count as usize].iter().enumerate() {
        all[i] = span_of(*row);
    }
    all
}

// Whether slot s is in the window of a job of the row.
fn in_window(c: Span, s: u32) -> bool
    requires { 0 < c.period }
    ensures { result ≡ ltb (s % c.period) c.deadline }
{
    s % c.period < c.deadline
}

// The rows in whose windows slot s is, of those whose spans these are. By index: with an iterator the map took longer.
#[tactic(auto, using(crate::proofs::Next::word_zero))]
fn first_word(spans: &[Span], s: u32) -> Set
    requires few { length spans.now ≤ most_rows }
    requires positive { (i : ℕ) → i < length spans.now → 0 < (get_or spans.now i no_span).period }
    ensures { result ≡ word (length spans.now) (in_windows spans.now s) }
{
    let mut w: Set = 0;
    for i in 0..spans.len() {
        if in_window(spans[i], s) {
            w = sets::with(w, i);
        }
    }
    w
}

// The available sets of depth 1 in the slots of the frame.
#[tactic(auto, unfolding(model::specs::Depths::available))]
pub fn first_map(a: Framed, map: &mut [Set])
    requires { a.frame ≤ length map.old }
    ensures { Over (words (model_of a.table) (available (model_of a.table) 1)) 0 a.frame map.old map.new }
{
    let spans = spans(a);
    let used = &spans[..a.table.count as usize];
    for s in 0..a.frame {
        map[s as usize] = first_word(used, s);
    }
}
