// A file with a table put into it.
#![tactic(auto)]

ghost use Rattle.std.specs.Prelude.{◌≤◌, length};
ghost use Rattle.file_entries.specs.Limits.{most_bytes};
ghost use Rattle.file_contents.specs.File.{encode};
ghost use Rattle.file_write.specs.Sources.{entries_in};
ghost use Rattle.file_put.specs.Put.{written, Puts};
ghost use Rattle.file_put.specs.Writing.{Writes};

use file_write::{Entry, Parts};
use refusal::Refusal;
use table::Table;

// Writes the file of the parts, where there is room for it, and gives its length.
#[tactic(auto, using(file_new::proofs::Steps::length_most, file_new::proofs::Steps::length_room))]
fn write(out: &mut [u8], parts: Parts) -> Result<u32, Refusal>
    requires old_short { length parts.old.now ≤ most_bytes }
    requires new_short { length parts.new.body.now ≤ most_bytes }
    ensures { Writes (encode (entries_in parts.entry)) out.old out.new (written result) }
{
    let len = parts.file_length();
    file_new::length_refusal(len, out.len())?;
    parts.write_file(out);
    Ok(len as u32)
}

// Writes to out the file with the table of the number replaced in its place, or added as the last entry, and gives its length.
pub fn put(s: &[u8], number: u16, t: Table, out: &mut [u8]) -> Result<u32, Refusal>
    ensures { Puts s.now number t out.old out.new (written result) }
{
    file_new::early_refusal(s, number, t)?;
    let bytes = file_bodies::table_bytes(t);
    let body = &bytes[..file_bodies::layout::row_place(t.count)];
    let new = Entry {
        kind: file_kinds::TABLE,
        number,
        body,
    };
    let count = file_entries::count(s);
    let place = file_entries::seek_of(s, number).unwrap_or(count);
    let list = file_new::sources(place);
    let sources = &list[..file_new::count_with(count, place)];
    write(out, Parts::new(s, new, sources))
}
