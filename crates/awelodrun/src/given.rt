// A table that is given, as C has it.
ghost use Rattle.refusal.specs.Told.{told_in};
ghost use Rattle.awelodrun.specs.Outcomes.{Gives, given_or};

use c_numbers::lent::NUMBERS;
use c_numbers::{answers, lent};
use refusal::Refusal;
use table::Table;

// The table, or the other one where it is refused; and no, entry, row. Inlined, and arm by arm: as a call, with the table chosen first,
// it took a tenth more instructions for an add.
#[inline(always)]
pub fn give(
    given: Result<Table, Refusal>,
    other: Table,
    res: &mut [u16; NUMBERS],
    answer: &mut [u32; 3],
)
    ensures { Gives (given_or given other) (told_in given) res.new answer.new }
{
    match given {
        Ok(t) => {
            *res = lent::numbers(t);
            *answer = answers::of_refusal(&given);
        }
        Err(_) => {
            *res = lent::numbers(other);
            *answer = answers::of_refusal(&given);
        }
    }
}
