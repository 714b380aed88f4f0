// The contents of a task file and their refusals, 9 to 13 and 16.
#![tactic(auto)]

ghost use Rattle.std.specs.Prelude.{◌≡◌, ◌≤◌, length};
ghost use Rattle.refusal.specs.Told.{number_in, told_in};
ghost use Rattle.file_entries.specs.Limits.{most_bytes};
ghost use Rattle.file_entries.specs.Entries.{place_of};
ghost use Rattle.file_contents.specs.Contents.{head_refusal, entry_refusal, entries_refusal, contents_refusal};

use basics::ranges;
use file_entries::limits::{BYTES, ENTRIES, FORM, HEAD};
use refusal::{Refusal, Rule};

// 9, 10 or 11 of the file's length and its first four bytes.
#[tactic(auto, using(basics::proofs::Range::range_passed, basics::proofs::Range::range_failed), unfolding(crate::specs::Contents::head_refusal, basics::specs::When::unless))]
fn head_refusal(s: &[u8]) -> Result<(), Rule>
    ensures { number_in result ≡ head_refusal s.now }
{
    if !ranges::within(HEAD, s.len(), BYTES) {
        return Err(Rule::Bytes);
    }
    if file_entries::form(s) != FORM {
        return Err(Rule::Form);
    }
    let n = file_entries::count(s);
    if !ranges::within(1, n as usize, ENTRIES) {
        return Err(Rule::Entries);
    }
    if s.len() < file_entries::after_entries(n) {
        return Err(Rule::Entries);
    }
    Ok(())
}

// 12, 13 or 16 of entry i, whose body must start at a place.
#[tactic(auto, unfolding(crate::specs::Contents::entry_refusal, basics::specs::When::when, basics::specs::When::unless, file_entries::specs::Entries::sought))]
fn entry_refusal(s: &[u8], i: u16, place: usize) -> Result<(), Rule>
    requires placed { place ≡ place_of s.now i }
    requires reached { place ≤ length s.now }
    requires most { length s.now ≤ most_bytes }
    ensures { number_in result ≡ entry_refusal s.now i }
{
    if file_kinds::kind_of(file_entries::kind_at(s, i)).is_none() {
        return Err(Rule::Kind);
    }
    if file_entries::start_at(s, i) as usize != place {
        return Err(Rule::Place);
    }
    if s.len() < place + file_entries::length_at(s, i) as usize {
        return Err(Rule::Place);
    }
    if file_entries::seek(s, file_entries::number_at(s, i), i).is_some() {
        return Err(Rule::Twice);
    }
    Ok(())
}

// The first refusal of the entries in turn, or 13 for bytes left over.
fn entries_refusal(s: &[u8]) -> Result<(), Refusal>
    requires { head_refusal s.now ≡ 0 }
    ensures { told_in result ≡ entries_refusal s.now }
{
    let n = file_entries::count(s);
    let mut place = file_entries::after_entries(n);
    for i in 0..n {
        if let Err(rule) = entry_refusal(s, i, place) {
            return Err(Refusal::from(rule).in_entry(i as u8));
        }
        place += file_entries::length_at(s, i) as usize;
    }
    if place != s.len() {
        return Err(Refusal::from(Rule::Place).in_entry((n - 1) as u8));
    }
    Ok(())
}

// The refusal of the contents of a file.
#[tactic(auto, using(crate::proofs::Steps::head_refused, crate::proofs::Steps::head_passed))]
pub fn contents_refusal(s: &[u8]) -> Result<(), Refusal>
    ensures { told_in result ≡ contents_refusal s.now }
{
    head_refusal(s)?;
    entries_refusal(s)
}
