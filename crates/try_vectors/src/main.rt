// Runs the judge and the ladder on tables tried by hand, and writes a line for each: the table, the answer, and words of both lists.
#![tactic(auto)]

use judge::Verdict;
use judge_ladder::Square;
use refusal::Refusal;
use sets::Set;
use std::io;
use table::Table;
use table_row::limits::SLOTS;

mod tries;

use tries::{CLIMBED, JUDGED, Lent, Try};

#[derive(Clone, Copy)]
enum Asked {
    Judge,
    Ladder,
}

// A table, with the four rows that a try has at the most.
fn table(rt: &impl Print, t: Table) -> io::Result<()> {
    print!(rt; " {} {} {} rows", t.processors, t.depth, t.count)?;
    for row in &t.rows[..4] {
        print!(rt; " {} {} {}", row.period, row.execution, row.deadline)?;
    }
    Ok(())
}

fn refusal(rt: &impl Print, r: Refusal) -> io::Result<()> {
    print!(rt; " {} {} {}", r.rule as u8, r.entry, r.row)
}

fn verdict(rt: &impl Print, v: Result<Verdict, Refusal>) -> io::Result<()> {
    match v {
        Ok(
            Verdict::Infeasible {
                t,
                work,
                supply,
                frame,
            },
        ) => print!(rt; " INFEASIBLE {t} {work} {supply} {frame}"),
        Ok(Verdict::Undecided { frame }) => print!(rt; " UNDECIDED {frame}"),
        Err(r) => {
            print!(rt; " REFUSED")?;
            refusal(rt, r)
        }
    }
}

// The refusal of the ladder, or three zeros; and its lines.
fn square(rt: &impl Print, given: Square) -> io::Result<()> {
    print!(rt; " refusal")?;
    match given.refusal {
        Ok(()) => print!(rt; " 0 0 0")?,
        Err(r) => refusal(rt, r)?,
    }
    print!(rt; " lines")?;
    for line in &given.lines {
        print!(rt; " {} {} {}", line.t, line.work, line.supply)?;
    }
    Ok(())
}

// A table, and the answer on it.
fn answer(
    rt: &impl Print,
    asked: Asked,
    t: Table,
    map: &mut [Set],
    pins: &mut [Set],
) -> io::Result<()> {
    match asked {
        Asked::Judge => {
            print!(rt; "judge")?;
            table(rt, t)?;
            verdict(rt, judge::judge(t, map, pins))
        }
        Asked::Ladder => {
            print!(rt; "ladder")?;
            table(rt, t)?;
            square(rt, judge_ladder::ladder(t, map, pins))
        }
    }
}

// The first n words of a list, after its name; nothing where n is 0.
fn list(rt: &impl Print, name: &str, words: &[Set], n: usize) -> io::Result<()> {
    if n == 0 {
        return Ok(());
    }
    print!(rt; " {name}")?;
    for word in words.iter().take(n) {
        print!(rt; " {word}")?;
    }
    Ok(())
}

// One try. Both lists hold 7 everywhere before, so that what is left alone shows.
fn tried(rt: &impl Print, asked: Asked, u: &Try) -> io::Result<()> {
    let mut map: [Set; SLOTS] = [7; SLOTS];
    let mut pins: [Set; SLOTS] = [7; SLOTS];
    let Try(.., lent, told) = *u;
    let (a, b) = match lent {
        Lent::All => (SLOTS, SLOTS),
        Lent::Map(n) => (n, SLOTS),
        Lent::Pins(n) => (SLOTS, n),
        Lent::Both(n) => (n, n),
    };
    answer(
        rt,
        asked,
        u.table(),
        &mut map[..a.min(SLOTS)],
        &mut pins[..b.min(SLOTS)],
    )?;
    list(rt, "map", &map, told)?;
    list(rt, "pins", &pins, told)?;
    println!(rt)
}

fn main(rt: HostRuntime) -> io::Result<()> {
    for u in JUDGED {
        tried(&rt, Asked::Judge, u)?;
    }
    for u in CLIMBED {
        tried(&rt, Asked::Ladder, u)?;
    }
    Ok(())
}
