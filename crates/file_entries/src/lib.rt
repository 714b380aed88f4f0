// What stands in the contents of a file. Every function answers for every file and every entry number.
#![tactic(auto)]

ghost use Rattle.std.specs.Prelude.{◌≡◌, ◌<◌, ◌^◌};
ghost use Rattle.file_entries.specs.Limits.{after_entries};
ghost use Rattle.file_entries.specs.Entries.{count_of, form_of, kind_at, number_at, start_at, length_at, sum_at, entry_read, body_at, sought, seek_in, seek_of, kind_under};

use basics::ranges;
use file_bytes::le16;
use file_kinds::Kind;

pub mod limits;

use limits::{ENTRY, HEAD};

// The twelve bytes of an entry.
#[derive(Clone, Copy, Debug, PartialEq, Eq)]
pub struct Entry {
    pub kind: u16,
    pub number: u16,
    pub start: u16,
    pub length: u16,
    pub sum: u32,
}

#[tactic(auto, unfolding(crate::specs::Entries::count_of))]
pub fn count(s: &[u8]) -> u16
    ensures { result ≡ count_of s.now }
{
    le16(s, 0)
}

#[tactic(auto, unfolding(crate::specs::Entries::form_of))]
pub fn form(s: &[u8]) -> u16
    ensures { result ≡ form_of s.now }
{
    le16(s, 2)
}

// Where the first n entries end, and so where entry n begins.
pub fn after_entries(n: u16) -> usize
    ensures same { result ≡ after_entries n }
    ensures below { result < 2 ^ 20 }
{
    HEAD + ENTRY * n as usize
}

// The parts of entry i, each read alone: most callers want one or two of the five.
#[tactic(auto, unfolding(crate::specs::Entries::kind_at))]
pub fn kind_at(s: &[u8], i: u16) -> u16
    ensures { result ≡ kind_at s.now i }
{
    le16(s, after_entries(i))
}

#[tactic(auto, unfolding(crate::specs::Entries::number_at))]
pub fn number_at(s: &[u8], i: u16) -> u16
    ensures { result ≡ number_at s.now i }
{
    le16(s, after_entries(i) + 2)
}

#[tactic(auto, unfolding(crate::specs::Entries::start_at))]
pub fn start_at(s: &[u8], i: u16) -> u16
    ensures { result ≡ start_at s.now i }
{
    le16(s, after_entries(i) + 4)
}

#[tactic(auto, unfolding(crate::specs::Entries::length_at))]
pub fn length_at(s: &[u8], i: u16) -> u16
    ensures { result ≡ length_at s.now i }
{
    le16(s, after_entries(i) + 6)
}

#[tactic(auto, unfolding(crate::specs::Entries::sum_at, file_bytes::specs::Number::at32))]
pub fn sum_at(s: &[u8], i: u16) -> u32
    ensures { result ≡ sum_at s.now i }
{
    let at = after_entries(i) + 8;
    le16(s, at) as u32 + 65536 * le16(s, at + 2) as u32
}

impl Entry {
    // Entry i as it stands in the contents.
    pub fn read(s: &[u8], i: u16) -> Entry
        ensures { result ≡ entry_read s.now i }
    {
        Entry {
            kind: kind_at(s, i),
            number: number_at(s, i),
            start: start_at(s, i),
            length: length_at(s, i),
            sum: sum_at(s, i),
        }
    }
}

// The bytes that entry i calls its body, as far as the file has them.
#[tactic(auto, using(crate::proofs::Parts::cut), unfolding(crate::specs::Entries::body_at))]
pub fn body(s: &[u8], i: u16) -> &[u8]
    ensures { result.now ≡ body_at s.now i }
{
    let start = start_at(s, i) as usize;
    let end = start + length_at(s, i) as usize;
    &s[ranges::lesser(start, s.len())..ranges::lesser(end, s.len())]
}

// The first of n entries that has a number.
pub fn seek(s: &[u8], number: u16, n: u16) -> Option<u16>
    ensures { result ≡ sought (seek_in s.now number n) n }
{
    (0..n).find(|i| number_at(s, *i) == number)
}

// The entry of the file that has a number.
pub fn seek_of(s: &[u8], number: u16) -> Option<u16>
    ensures { result ≡ sought (seek_of s.now number) (count_of s.now) }
{
    seek(s, number, count(s))
}

// The kind of the entry that has a number; None where no entry has it, or its kind is refused.
#[tactic(auto, using(crate::proofs::Under::under_found, crate::proofs::Under::under_missing))]
pub fn kind_under(s: &[u8], number: u16) -> Option<Kind>
    ensures { result ≡ kind_under s.now number }
{
    let i = seek_of(s, number)?;
    file_kinds::kind_of(kind_at(s, i))
}
