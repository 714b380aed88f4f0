// Tables for C: the checks of a table and of a list of rows, the judge and the ladder.
ghost use Rattle.std.specs.Prelude.{◌≡◌};
ghost use Rattle.table.specs.Check.{check_of};
ghost use Rattle.table_list.specs.List.{check_list};
ghost use Rattle.c_numbers.specs.Lent.{lent_table};
ghost use Rattle.c_numbers.specs.Answers.{check_answer, answer_of};
ghost use Rattle.awelodrun.specs.Outcomes.{Judges, Ladders};

use c_numbers::answers::{Answer, SQUARE};
use c_numbers::lent::NUMBERS;
use c_numbers::{answers, lent};
use sets::Set;
use table::Beside;
use table_row::Row;

// The check of a table: no, entry, row, frame.
#[unsafe(no_mangle)]
pub extern "C" fn awelodrun_raw_check(table: &[u16; NUMBERS], answer: &mut [u32; 4])
    ensures { answer.new ≡ check_answer (check_of (lent_table table.now)) }
{
    *answer = answers::of_result(table::check(lent::read_table(table)));
}

// The check of a list of rows, as it is lent.
#[unsafe(no_mangle)]
pub extern "C" fn awelodrun_raw_check_list(beside: Beside, rows: &[Row]) -> Answer
    ensures { result ≡ answer_of (check_list beside rows.now) }
{
    let mut s = table::start(beside);
    for row in rows {
        s = table::step(s, *row);
    }
    answers::of_seen(s)
}

// The judge: no, entry, row, t, work, supply, frame.
#[unsafe(no_mangle)]
pub extern "C" fn awelodrun_raw_judge(
    table: &[u16; NUMBERS],
    map: &mut [Set],
    pins: &mut [Set],
    answer: &mut [u32; 7],
)
    ensures { Judges (lent_table table.now) map.old pins.old map.new pins.new answer.new }
{
    let t = lent::read_table(table);
    *answer = answers::of_verdict(judge::judge(t, map, pins));
}

// The ladder: no, entry, row; and the square, t, work, supply of each depth from 1 to 8.
#[unsafe(no_mangle)]
pub extern "C" fn awelodrun_raw_ladder(
    table: &[u16; NUMBERS],
    map: &mut [Set],
    pins: &mut [Set],
    square: &mut [u32; SQUARE],
    answer: &mut [u32; 3],
)
    ensures { Ladders (lent_table table.now) map.old pins.old map.new pins.new square.new answer.new }
{
    let t = lent::read_table(table);
    let given = judge_ladder::ladder(t, map, pins);
    *square = answers::of_lines(given.lines);
    *answer = answers::of_refusal(&given.refusal);
}
