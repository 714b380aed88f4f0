// Whether a table is judged: its frame, where both lent lists have room for it, or the first refusal.
#![tactic(auto)]

ghost use Rattle.std.specs.Prelude.{◌≡◌, IfOk};
ghost use Rattle.judge_admit.specs.Admit.{admission, admit_of};

use refusal::{Refusal, Rule};
use table::Table;
use table::framed::Framed;

// The table with its frame, or the first refusal: the table's own, then 8. The lists are given by their lengths.
#[tactic(auto, unfolding(crate::specs::Admit::admit_of))]
pub fn admit(t: Table, map: usize, pins: usize) -> Result<Framed, Refusal>
    ensures told { admission result ≡ admit_of t map pins }
    ensures same { IfOk result (λ a. a.table ≡ t) }
{
    let frame = table::check(t)?;
    let h = frame as usize;
    if map < h || pins < h {
        return Err(Rule::Lists.into());
    }
    Ok(Framed { table: t, frame })
}
