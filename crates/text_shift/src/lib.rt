// The text of the shift check: one line for each table of a file, or the line of its refusal.
#![tactic(auto)]

ghost use Rattle.text_shift.specs.Shift.{Shifted};
ghost use Rattle.text_shift.specs.Steps.{Entered, Through};

use file_entries::Entry;
use file_entries::limits::ENTRIES;
use file_kinds::Kind;
use sets::Set;
use table_row::limits::SLOTS;
use text_decimal::Output;
use text_lines::LONGEST;

// Every text has room in so many bytes: the lines of as many entries as a file may have.
pub const TEXT: usize = LONGEST * ENTRIES;

// Writes the line of entry i, if it is a table, and leaves its sets in the lists.
fn put_entry(
    file: &[u8],
    i: u16,
    map: &mut [Set; SLOTS],
    pins: &mut [Set; SLOTS],
    output: &mut Output,
)
    ensures { Entered file.now i map.old pins.old output.old map.new pins.new output.new }
{
    let entry = Entry::read(file, i);
    if file_kinds::kind_of(entry.kind) == Some(Kind::Table) {
        let t = file_bodies::table_at(file, i);
        let v = judge::judge(t, map, pins);
        text_lines::put_verdict(output, entry.number, v);
    }
}

// Writes the lines of the first n entries, in the order of the contents.
fn put_lines(
    file: &[u8],
    n: u16,
    map: &mut [Set; SLOTS],
    pins: &mut [Set; SLOTS],
    output: &mut Output,
)
    ensures { Through file.now n map.old pins.old output.old map.new pins.new output.new }
{
    for i in 0..n {
        put_entry(file, i, map, pins, output);
    }
}

// Writes the text of a file from the start of the output on, and tells its length. Every text has room there.
pub fn shift_text(
    file: &[u8],
    map: &mut [Set; SLOTS],
    pins: &mut [Set; SLOTS],
    out: &mut [u8; TEXT],
) -> usize
    ensures { Shifted file.now map.old pins.old out.old map.new pins.new out.new result }
{
    let mut output = Output { bytes: out, at: 0 };
    match file_check::file_refusal(file) {
        Ok(()) => put_lines(file, file_entries::count(file), map, pins, &mut output),
        Err(r) => {
            text_lines::put_refused(&mut output, r);
            return output.at;
        }
    }
    output.at
}
