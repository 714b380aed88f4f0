// One depth further, in place: the pins of a depth and the map of the next.
#![tactic(auto)]

ghost use Rattle.std.specs.Prelude.{◌≤◌, length, get_or};
ghost use Rattle.basics.specs.Over.{Over, Holds};
ghost use Rattle.model.specs.Depths.{available};
ghost use Rattle.sets.specs.Word.{up_to, words};
ghost use Rattle.table.specs.Meaning.{model_of};
ghost use Rattle.judge_deepen.specs.Step.{Deepened};
ghost use Rattle.judge_deepen.specs.Reached.{Reached};

use sets::Set;
use table::framed::Framed;

// The sets of the slots in which no more than m rows are available, and no row in the others.
fn few_enough(map: &[Set], pins: &mut [Set], h: usize, m: u32)
    requires { (h ≤ length map.now) × (h ≤ length pins.old) }
    ensures { Over (λ s. up_to m (get_or map.now s 0)) 0 h pins.old pins.new }
{
    for s in 0..h {
        pins[s] = sets::up_to(map[s], m);
    }
}

// One depth further: the pins of the map's depth, the map of the next, and whether the map changed. The two lists are lent one by one,
// here and in all passes: each contract speaks of each list before and after, and some passes take one list alone.
pub fn deepen(a: Framed, map: &mut [Set], pins: &mut [Set]) -> bool
    requires { (a.frame ≤ length map.old) × (a.frame ≤ length pins.old) }
    ensures { Deepened (model_of a.table) a.frame map.old pins.old map.new pins.new result }
{
    let h = a.frame as usize;
    few_enough(map, pins, h, a.table.processors as u32);
    let mut changed = false;
    for (i, row) in a.table.rows[..a.table.count as usize].iter().enumerate() {
        changed |= judge_jobs::row_pass(map, pins, i, *row, h);
    }
    changed
}

// From depth 1 to the table's depth. A depth that changed nothing is as deep as any later one.
pub fn deep(a: Framed, map: &mut [Set], pins: &mut [Set])
    requires room { (a.frame ≤ length map.old) × (a.frame ≤ length pins.old) }
    requires holds { Holds (words (model_of a.table) (available (model_of a.table) 1)) a.frame map.old }
    ensures { Reached (model_of a.table) a.table.depth a.frame map.old pins.old map.new pins.new }
{
    sets::clear(pins, a.frame as usize);
    for _y in 1..a.table.depth {
        if !deepen(a, map, pins) {
            return;
        }
    }
}
