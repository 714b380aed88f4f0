// The lines of the shift check: a table's by its verdict, and that of a refused file.
#![tactic(auto)]

ghost use Rattle.refusal.specs.Told.{told};
ghost use Rattle.text_decimal.specs.Put.{Written};
ghost use Rattle.text_lines.specs.Line.{part, longest, infeasible_line, undecided_line, refused_line};
ghost use Rattle.text_lines.specs.Told.{verdict_line, Told};

use judge::Verdict;
use refusal::Refusal;
use text_decimal::Output;

// No line is longer.
pub const LONGEST: usize = 64;

// Writes a word and a number after it.
fn put_part(output: &mut Output, word: &[u8], v: u32)
    ensures { Written output.old (part word.now v) output.new }
{
    output.put_text(word);
    output.put_decimal(v);
}

fn put_infeasible(output: &mut Output, number: u16, t: u32, work: u32, supply: u32)
    ensures { Told longest output.old (infeasible_line number t work supply) output.new }
{
    put_part(output, b"TABLE ", number as u32);
    put_part(output, b" INFEASIBLE ", t);
    put_part(output, b" ", work);
    put_part(output, b" ", supply);
    output.put_text(b"\n");
}

fn put_undecided(output: &mut Output, number: u16, h: u32)
    ensures { Told longest output.old (undecided_line number h) output.new }
{
    put_part(output, b"TABLE ", number as u32);
    put_part(output, b" UNDECIDED ", h);
    output.put_text(b"\n");
}

// Writes the line of a refused file.
pub fn put_refused(output: &mut Output, r: Refusal)
    ensures { Told longest output.old (refused_line (told r)) output.new }
{
    let no = u8::from(r.rule);
    put_part(output, b"REFUSED ", no as u32);
    put_part(output, b" ", r.entry as u32);
    put_part(output, b" ", r.row as u32);
    output.put_text(b"\n");
}

// Writes the line of a table with a number, by its verdict. No table of an accepted file is refused.
pub fn put_verdict(output: &mut Output, number: u16, v: Result<Verdict, Refusal>)
    ensures { Told longest output.old (verdict_line number v) output.new }
{
    match v {
        Ok(
            Verdict::Infeasible {
                t,
                work,
                supply,
                frame: _,
            },
        ) => put_infeasible(output, number, t, work, supply),
        Ok(Verdict::Undecided { frame }) => put_undecided(output, number, frame),
        Err(_) => put_undecided(output, number, 0),
    }
}
