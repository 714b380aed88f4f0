// Each answer as its numbers, in the order in which they are given.
ghost use Rattle.std.specs.Prelude.{◌≡◌};
ghost use Rattle.refusal.specs.Told.{told_in};
ghost use Rattle.table.specs.Seen.{seen, finish_of};
ghost use Rattle.judge.specs.Judge.{numbers as judge_numbers};
ghost use Rattle.c_numbers.specs.Answers.{refusal_answer, Answered, answer_of, judge_answer, line_numbers, lines_answer};

use judge::Verdict;
use judge_scan::Line;
use refusal::Refusal;
use table::Seen;
use table_row::limits::DEPTHS;

// How many numbers the ladder's square has: three a depth.
pub const SQUARE: usize = 3 * DEPTHS;

// The refusal in an answer, or three zeros.
pub fn of_refusal<T>(r: &Result<T, Refusal>) -> [u32; 3]
    ensures { result ≡ refusal_answer (told_in r.now) }
{
    match r {
        Ok(_) => [0; 3],
        Err(r) => [r.rule as u32, r.entry as u32, r.row as u32],
    }
}

// The refusal in an answer, and the one number that it gives, 0 where it refuses.
pub fn of_result<T: Into<u32>>(r: Result<T, Refusal>) -> [u32; 4]
    ensures { Answered T.converts r result }
{
    let [no, entry, row] = of_refusal(&r);
    [no, entry, row, r.map_or(0, |n| n.into())]
}

// The numbers of a check.
#[repr(C)]
#[derive(Clone, Copy)]
pub struct Answer {
    pub no: u32,
    pub entry: u32,
    pub row: u32,
    pub frame: u32,
}

// What the rows seen come to.
pub fn of_seen(s: Seen) -> Answer
    ensures { result ≡ answer_of (finish_of (seen s)) }
{
    let [no, entry, row, frame] = of_result(table::finish(s));
    Answer {
        no,
        entry,
        row,
        frame,
    }
}

// The judge: the refusal, then t, work, supply and the frame.
pub fn of_verdict(v: Result<Verdict, Refusal>) -> [u32; 7]
    ensures { result ≡ judge_answer (judge_numbers v) }
{
    let [no, entry, row] = of_refusal(&v);
    let [t, work, supply, frame] = match v {
        Ok(
            Verdict::Infeasible {
                t,
                work,
                supply,
                frame,
            },
        ) => [t, work, supply, frame],
        Ok(Verdict::Undecided { frame }) => [0, 0, 0, frame],
        Err(_) => [0; 4],
    };
    [no, entry, row, t, work, supply, frame]
}

fn numbers_of_line(line: Line) -> [u32; 3]
    ensures { result ≡ line_numbers line }
{
    [line.t, line.work, line.supply]
}

// The ladder's square: t, work and supply of each line in turn.
#[tactic(auto, unfolding(crate::specs::Lent::threes))]
pub fn of_lines(lines: [Line; DEPTHS]) -> [u32; SQUARE]
    ensures { result ≡ lines_answer lines }
{
    let mut all = [0; SQUARE];
    all.copy_from_slice(lines.map(numbers_of_line).as_flattened());
    all
}
