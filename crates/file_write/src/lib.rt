// Writes a file from its sources: its first four bytes, the heads of its entries, and their bodies.
#![tactic(auto)]

ghost use Rattle.std.specs.Prelude.{◌≡◌, ◌+◌, ◌≤◌, length};
ghost use Rattle.file_bytes.specs.Over.{over};
ghost use Rattle.file_entries.specs.Limits.{most_entries, most_bytes, after_entries};
ghost use Rattle.file_contents.specs.File.{head_of, encode};

use file_entries::limits::FORM;

// Where an entry comes from: it is the new one, or the old file's of that number.
#[derive(Clone, Copy, Debug, PartialEq, Eq)]
pub enum Source {
    New,
    Old(u16),
}

// An entry with its body: its kind, its number and the bytes.
#[derive(Clone, Copy)]
pub struct Entry<'a> {
    pub kind: u16,
    pub number: u16,
    pub body: &'a [u8],
}

// What a file is written from: an old file, a new entry, and the source of each entry in turn.
#[derive(Clone, Copy)]
pub struct Parts<'a> {
    pub old: &'a [u8],
    pub new: Entry<'a>,
    pub sources: &'a [Source],
    ghost few: { length sources.now ≤ most_entries },
}

impl<'a> Parts<'a> {
    ghost use Rattle.file_write.specs.Sources.{held, entry_in, entries_in};

    pub fn new(old: &'a [u8], new: Entry<'a>, sources: &'a [Source]) -> Parts<'a>
        requires { length sources.now ≤ most_entries }
        ensures old { result.old.now ≡ old.now }
        ensures new { held result.new ≡ held new.entry }
        ensures sources { result.sources.now ≡ sources.now }
    {
        Parts { old, new, sources }
    }

    // A source's entry.
    #[tactic(auto, unfolding(file_contents::specs::File::entry_at))]
    fn entry(self, source: Source) -> Entry<'a>
        ensures { held result ≡ entry_in self.entry source }
    {
        match source {
            Source::New => self.new,
            Source::Old(i) => Entry {
                kind: file_entries::kind_at(self.old, i),
                number: file_entries::number_at(self.old, i),
                body: file_entries::body(self.old, i),
            },
        }
    }

    // How long the file is.
    pub fn file_length(self) -> usize
        requires old_short { length self.old.now ≤ most_bytes }
        requires new_short { length self.new.body.now ≤ most_bytes }
        ensures { result ≡ length (encode (entries_in self.entry)) }
    {
        let mut len = file_entries::after_entries(self.sources.len() as u16);
        for source in self.sources {
            len += self.entry(*source).body.len();
        }
        len
    }

    // Writes a source's entry as entry j: its head, and its body at a place. Gives where the next body starts.
    fn write_entry(self, out: &mut [u8], j: u16, source: Source, start: usize) -> usize
        requires head { after_entries (j + 1) ≤ length out.old }
        requires short { start + length (entry_in self source).body ≤ most_bytes }
        requires room { start + length (entry_in self source).body ≤ length out.old }
        ensures written { let e = entry_in self.entry source in out.new ≡ over (over out.old (after_entries j) (head_of start e)) start e.body }
        ensures next { result ≡ start + length (entry_in self.entry source).body }
    {
        let entry = self.entry(source);
        let at = file_entries::after_entries(j);
        let sum = file_bytes::body_sum(entry.body);
        file_bytes::put16(out, at, entry.kind);
        file_bytes::put16(out, at + 2, entry.number);
        file_bytes::put16(out, at + 4, start as u16);
        file_bytes::put16(out, at + 6, entry.body.len() as u16);
        file_bytes::put16(out, at + 8, (sum % 65536) as u16);
        file_bytes::put16(out, at + 10, (sum / 65536) as u16);
        file_bytes::put_bytes(out, start, entry.body);
        start + entry.body.len()
    }

    // Writes the file.
    pub fn write_file(self, out: &mut [u8])
        requires short { length (encode (entries_in self)) ≤ most_bytes }
        requires room { length (encode (entries_in self)) ≤ length out.old }
        ensures { out.new ≡ over out.old 0 (encode (entries_in self.entry)) }
    {
        file_bytes::put16(out, 0, self.sources.len() as u16);
        file_bytes::put16(out, 2, FORM);
        let mut start = file_entries::after_entries(self.sources.len() as u16);
        for (j, source) in self.sources.iter().enumerate() {
            start = self.write_entry(out, j as u16, *source, start);
        }
    }
}
