// The judge of a table: whether some length of the frame has more work due than its slots supply.
#![tactic(auto)]

ghost use Rattle.std.specs.Prelude.{◌≡◌, ◌≤◌, length};
ghost use Rattle.judge.specs.Judge.{Judged};
ghost use Rattle.judge.specs.Passes.{Lined, verdict_of};

use judge_scan::Line;
use refusal::Refusal;
use sets::Set;
use table::Table;
use table::framed::Framed;

// Infeasible with the least length that fails, its work and its supply; or undecided.
#[derive(Clone, Copy)]
pub enum Verdict {
    Infeasible {
        t: u32,
        work: u32,
        supply: u32,
        frame: u32,
    },
    Undecided {
        frame: u32,
    },
}

// Both lists at the table's depth, and the line of its map.
fn line(a: Framed, map: &mut [Set], pins: &mut [Set]) -> Option<Line>
    requires { (a.frame ≤ length map.old) × (a.frame ≤ length pins.old) }
    ensures { Lined a.table a.frame map.old pins.old map.new pins.new result }
{
    judge_first::first_map(a, map);
    judge_deepen::deep(a, map, pins);
    judge_scan::scan(a, map)
}

fn verdict_of(l: Option<Line>, frame: u32) -> Verdict
    ensures { result ≡ verdict_of l frame }
{
    match l {
        None => Verdict::Undecided { frame },
        Some(l) => Verdict::Infeasible {
            t: l.t,
            work: l.work,
            supply: l.supply,
            frame,
        },
    }
}

// The verdict on a table, with the sets of its depth in the lists that are lent for them.
pub fn judge(t: Table, map: &mut [Set], pins: &mut [Set]) -> Result<Verdict, Refusal>
    ensures { Judged t map.old pins.old map.new pins.new result }
{
    let a = judge_admit::admit(t, map.len(), pins.len())?;
    let l = line(a, map, pins);
    Ok(verdict_of(l, a.frame))
}
