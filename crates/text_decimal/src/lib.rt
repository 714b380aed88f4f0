// Text in bytes: words and decimal numbers, written at the place of a lent output. Where there is no room nothing is written.
#![tactic(auto)]

ghost use Rattle.std.specs.Prelude.{◌≡◌, ◌+◌, ◌≤◌, ◌<◌, length};
ghost use Rattle.file_bytes.specs.Over.{over};
ghost use Rattle.text_decimal.specs.Decimal.{decimal};
ghost use Rattle.text_decimal.specs.Put.{PutIn};

// A lent output, and the place in it where the next text goes.
// It is no `fmt::Write`, and numbers are spelled by hand: what `write!` promises of its text it promises for an `Ok` alone, and no
// clause of it excludes an `Err`.
#[derive(Drop)]
pub struct Output<'a> {
    pub bytes: &'a mut [u8],
    pub at: usize,
}

impl Output<'_> {
    // Writes a text and goes on after it, where there is room for it.
    pub fn put_text(&mut self, text: &[u8])
        ensures { PutIn self.old text.now self.new }
    {
        file_bytes::put_bytes(self.bytes, self.at, text);
        let n = text.len();
        if file_bytes::has_room(self.bytes.len(), self.at, n) {
            self.at += n;
        }
    }

    // Writes a number in decimal and goes on after it, where there is room for it.
    #[tactic(auto, using(crate::proofs::Puts::digit_by_digit))]
    pub fn put_decimal(&mut self, v: u32)
        ensures { PutIn self.old (decimal v) self.new }
    {
        let mut digits = [0u8; 10];
        let n = spell(&mut digits, v);
        self.put_text(&digits[..n]);
    }
}

// Writes the digits of a number from the start on, and tells how many they are.
#[tactic(auto, using(crate::proofs::Puts::digit_by_digit))]
fn spell(out: &mut [u8], v: u32) -> usize
    requires { length (decimal v) ≤ length out.old }
    ensures digits { out.new ≡ over out.old 0 (decimal v) }
    ensures count { result ≡ length (decimal v) }
{
    if v < 10 {
        out[0] = b'0' + v as u8;
        return 1;
    }
    let n = spell(out, v / 10);
    out[n] = b'0' + (v % 10) as u8;
    n + 1
}
