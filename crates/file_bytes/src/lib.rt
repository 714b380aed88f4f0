// The bytes of a task file: numbers, the sum of a body, and writing. Every function answers for every place.
#![tactic(auto)]

ghost use Rattle.std.specs.Prelude.{◌≡◌, ◌+◌, nat_le, slice_index};
ghost use Rattle.file_bytes.specs.Number.{at16, bytes16};
ghost use Rattle.file_bytes.specs.Sum.{sum_of};
ghost use Rattle.file_bytes.specs.Over.{over};

// The byte at a place, or 0 past the end.
pub fn byte_at(s: &[u8], at: usize) -> u8
    ensures { result ≡ slice_index s.now at }
{
    s.get(at).copied().unwrap_or(0)
}

// The two-byte number at a place.
#[tactic(auto, using(crate::proofs::Numbers::past_end), unfolding(crate::specs::Number::at16))]
pub fn le16(s: &[u8], at: usize) -> u16
    ensures { result ≡ at16 s.now at }
{
    if at < s.len() {
        u16::from_le_bytes([s[at], byte_at(s, at + 1)])
    } else {
        0
    }
}

// The sum of a body: a grows by each byte and then b by a, both rolling over at 65,536.
#[tactic(auto, using(crate::proofs::Sums::sum_step, crate::proofs::Sums::sum_end), unfolding(crate::specs::Sum::sum_of))]
pub fn body_sum(s: &[u8]) -> u32
    ensures { result ≡ sum_of s.now }
{
    let mut a: u16 = 0;
    let mut b: u16 = 0;
    for x in s {
        a = a.wrapping_add(*x as u16);
        b = b.wrapping_add(a);
    }
    a as u32 + 65536 * b as u32
}

// Whether n bytes fit from a place on.
pub fn has_room(room: usize, at: usize, n: usize) -> bool
    ensures { result ≡ nat_le (at + n) room }
{
    n <= room && at <= room - n
}

// Writes a two-byte number at a place, where there is room for it.
pub fn put16(out: &mut [u8], at: usize, v: u16)
    ensures { out.new ≡ over out.old at (bytes16 v) }
{
    put_bytes(out, at, &v.to_le_bytes());
}

// Writes bytes at a place, where there is room for them. One by one: `copy_from_slice` would take memmove from the C library.
#[tactic(auto, using(crate::proofs::Overs::over_full))]
pub fn put_bytes(out: &mut [u8], at: usize, src: &[u8])
    ensures { out.new ≡ over out.old at src.now }
{
    if has_room(out.len(), at, src.len()) {
        for k in 0..src.len() {
            out[at + k] = src[k];
        }
    }
}
