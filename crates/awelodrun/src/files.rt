// Task files for C: the check, find and put.
ghost use Rattle.std.specs.Prelude.{◌≡◌};
ghost use Rattle.file_check.specs.Check.{check_file};
ghost use Rattle.file_check.specs.Find.{find_of};
ghost use Rattle.c_numbers.specs.Lent.{lent_table};
ghost use Rattle.c_numbers.specs.Answers.{file_answer};
ghost use Rattle.awelodrun.specs.Outcomes.{Finds, Writes};

use crate::given;
use c_numbers::lent::NUMBERS;
use c_numbers::{answers, lent};

// The check of a file: no, entry, row, entries.
#[unsafe(no_mangle)]
pub extern "C" fn awelodrun_raw_file_check(file: &[u8], answer: &mut [u32; 4])
    ensures { answer.new ≡ file_answer (check_file file.now) }
{
    *answer = answers::of_result(file_check::check_file(file));
}

// The table that has a number: the table, and no, entry, row.
#[unsafe(no_mangle)]
pub extern "C" fn awelodrun_raw_find(
    file: &[u8],
    number: u16,
    res: &mut [u16; NUMBERS],
    answer: &mut [u32; 3],
)
    ensures { Finds (find_of file.now number) res.new answer.new }
{
    given::give(
        file_check::find(file, number),
        table::no_table(),
        res,
        answer,
    );
}

// Writes the file with the table of a number put into it: no, entry, row, length.
#[unsafe(no_mangle)]
pub extern "C" fn awelodrun_raw_put(
    file: &[u8],
    number: u16,
    table: &[u16; NUMBERS],
    out: &mut [u8],
    answer: &mut [u32; 4],
)
    ensures { Writes file.now number (lent_table table.now) out.old out.new answer.new }
{
    let t = lent::read_table(table);
    *answer = answers::of_result(file_put::put(file, number, t, out));
}
