// The check of a task file, and the table that it has under a number.
#![tactic(auto)]

ghost use Rattle.std.specs.Prelude.{◌≡◌, ◌≤◌};
ghost use Rattle.refusal.specs.Refusal.{in_entry};
ghost use Rattle.refusal.specs.Told.{told_in};
ghost use Rattle.refusal.specs.Order.{in_turn};
ghost use Rattle.file_entries.specs.Limits.{most_entries};
ghost use Rattle.file_check.specs.Check.{part_refusal, file_refusal, numbers, check_file};
ghost use Rattle.file_check.specs.Find.{found, find_of};

use file_kinds::Kind;
use refusal::{Refusal, Rule};
use table::Table;

// The refusal of the body of entry i: 14 and, for a table, 15 and 1 to 7; or none.
#[tactic(auto, using(basics::proofs::When::tests, file_kinds::proofs::Tests::table_said), unfolding(crate::specs::Check::part_refusal))]
fn part_refusal(s: &[u8], i: u16) -> Result<(), Refusal>
    ensures { told_in result ≡ part_refusal s.now i }
{
    let b = file_entries::body(s, i);
    if file_bytes::body_sum(b) != file_entries::sum_at(s, i) {
        return Err(Rule::Sum.into());
    }
    if file_kinds::kind_of(file_entries::kind_at(s, i)) == Some(Kind::Table) {
        return file_bodies::body_refusal(b);
    }
    Ok(())
}

// The first refusal of n bodies in turn, with its entry, or none.
#[tactic(auto, using(refusal::proofs::Order::turn_fine, crate::proofs::Steps::parts_refused))]
fn parts_refusal(s: &[u8], n: u16) -> Result<(), Refusal>
    requires { n ≤ most_entries }
    ensures { told_in result ≡ in_turn (λ i. in_entry i (part_refusal s.now i)) n }
{
    for i in 0..n {
        if let Err(r) = part_refusal(s, i) {
            return Err(r.in_entry(i as u8));
        }
    }
    Ok(())
}

// The refusal of a file, or none.
#[tactic(auto, using(file_contents::proofs::Fine::contents_are_fine, refusal::proofs::Order::first_next, refusal::proofs::Order::first_here), unfolding(crate::specs::Check::file_refusal))]
pub fn file_refusal(s: &[u8]) -> Result<(), Refusal>
    ensures { told_in result ≡ file_refusal s.now }
{
    file_contents::contents_refusal(s)?;
    parts_refusal(s, file_entries::count(s))
}

// The number of entries of a file, or its refusal.
#[tactic(auto, using(crate::proofs::Fine::file_is_fine), unfolding(crate::specs::Check::check_file))]
pub fn check_file(s: &[u8]) -> Result<u8, Refusal>
    ensures { numbers result ≡ check_file s.now }
{
    file_refusal(s)?;
    Ok(file_entries::count(s) as u8)
}

// The table that has the number; or the file's refusal, then 17.
#[tactic(auto, using(file_kinds::proofs::Tests::table_said, crate::proofs::Steps::find_file_refused, crate::proofs::Steps::find_missing, crate::proofs::Steps::find_note, crate::proofs::Steps::find_table))]
pub fn find(s: &[u8], number: u16) -> Result<Table, Refusal>
    ensures { found result ≡ find_of s.now number }
{
    file_refusal(s)?;
    let i = file_entries::seek_of(s, number).ok_or(Rule::NoTable)?;
    if file_kinds::kind_of(file_entries::kind_at(s, i)) == Some(Kind::Table) {
        return Ok(file_bodies::table_at(s, i));
    }
    Err(Rule::NoTable.into())
}
