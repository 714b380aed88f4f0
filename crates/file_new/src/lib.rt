// The file that put makes: its entries and where each comes from, and when it is refused.
#![tactic(auto)]

ghost use Rattle.std.specs.Prelude.{◌≡◌};
ghost use Rattle.refusal.specs.Told.{told_in};
ghost use Rattle.file_new.specs.Steps.{source_of, Sources, count_with, new_count, early_refusal, length_refusal};

use file_entries::limits::{BYTES, ENTRIES};
use file_kinds::Kind;
use file_write::Source;
use refusal::{Refusal, Rule};
use std::array;
use table::Table;

// The number of entries with entry i replaced, or added after n.
pub fn count_with(n: u16, i: u16) -> usize
    ensures { result ≡ count_with n i }
{
    if i < n { n as usize } else { n as usize + 1 }
}

// The same of a place that may be none: n where there is one, whatever it is, and else one more.
pub fn new_count(n: u16, place: Option<u16>) -> usize
    ensures { result ≡ new_count n place }
{
    match place {
        Some(_) => n as usize,
        None => count_with(n, n),
    }
}

// The refusals that come before the new file's length: the file, the table, 17 and 11.
#[tactic(auto, using(file_kinds::proofs::Tests::note_said, crate::proofs::Steps::told_file, crate::proofs::Steps::told_table, crate::proofs::Steps::told_note, crate::proofs::Steps::told_full, crate::proofs::Steps::told_fine))]
pub fn early_refusal(s: &[u8], number: u16, t: Table) -> Result<(), Refusal>
    ensures { told_in result ≡ early_refusal s.now number t }
{
    file_check::file_refusal(s)?;
    table::refusal_of(t)?;
    if file_entries::kind_under(s, number) == Some(Kind::Note) {
        return Err(Rule::NoTable.into());
    }
    let count = file_entries::count(s);
    let place = file_entries::seek_of(s, number).unwrap_or(count);
    let n = count_with(count, place);
    if ENTRIES < n {
        return Err(Rule::Entries.into());
    }
    Ok(())
}

// 9 for a file too long, 19 for an output too short.
#[tactic(auto, using(basics::proofs::When::tests), unfolding(crate::specs::Steps::length_refusal))]
pub fn length_refusal(len: usize, room: usize) -> Result<(), Refusal>
    ensures { told_in result ≡ length_refusal len room }
{
    if BYTES < len {
        return Err(Rule::Bytes.into());
    }
    if room < len {
        return Err(Rule::Output.into());
    }
    Ok(())
}

// The source of entry j of the new file, whose entry i is the new one.
fn source_of(i: u16, j: u16) -> Source
    ensures { result ≡ source_of i j }
{
    if j == i { Source::New } else { Source::Old(j) }
}

// The sources of as many entries as a file may have, of which entry i is the new one. No memory is allocated, so the list has room
// for all, and put lends its first ones.
pub fn sources(i: u16) -> [Source; ENTRIES]
    ensures { Sources i result }
{
    array::from_fn(|j| source_of(i, j as u16))
}

#[cfg(test)]
mod tests {
    use super::*;

    // The count stays where there is a place, also one past the last entry, and is one more where there is none, past 16 bits too.
    #[test]
    fn counts_the_new_entry(rt: HostRuntime) {
        for (n, place, want) in [
            (3, Some(0), 3),
            (3, Some(2), 3),
            (3, Some(7), 3),
            (0, Some(0), 0),
            (3, None, 4),
            (65_535, None, 65_536),
        ] {
            assert_eq!(rt; new_count(n, place), want, "of {n} entries");
        }
    }
}
