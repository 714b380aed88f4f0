// Sets of rows as words, one bit for each row. Every function answers for every word and every row number.
#![tactic(auto)]

ghost use Rattle.std.specs.Prelude.{◌≡◌, false};
ghost use Rattle.std.specs.Int.Count.{ones};
ghost use Rattle.basics.specs.Over.{Over};
ghost use Rattle.sets.specs.Word.{width, member, put, adding, up_to};

use basics::ranges;

// How many rows a set can have.
pub const WIDTH: usize = 32;

// "Each slot's set of rows is one 32-bit word, bit i for row i".
pub type Set = u32;

// Whether row i is in w.
pub fn has(w: Set, i: usize) -> bool
    ensures { result ≡ member i w }
{
    i < WIDTH && (w >> i) & 1 == 1
}

// w with row i.
pub fn with(w: Set, i: usize) -> Set
    ensures { result ≡ adding width i w }
{
    taking(w, Set::MAX, i)
}

// w without row i.
#[tactic(auto, using(crate::proofs::Digits::member_none))]
pub fn without(w: Set, i: usize) -> Set
    ensures { result ≡ put i false w }
{
    taking(w, 0, i)
}

// w, with row i in it if and only if it is in v.
pub fn taking(w: Set, v: Set, i: usize) -> Set
    ensures { result ≡ put i (member i v) w }
{
    if WIDTH <= i {
        return w;
    }
    let row: Set = 1 << i;
    (w & !row) | (v & row)
}

// How many rows are in w.
pub fn size(w: Set) -> u32
    ensures { result ≡ ones w }
{
    w.count_ones()
}

// w where it has at most m rows, else the empty set.
#[tactic(auto, unfolding(crate::specs::Word::up_to))]
pub fn up_to(w: Set, m: u32) -> Set
    ensures { result ≡ up_to m w }
{
    if size(w) <= m { w } else { 0 }
}

// The empty set in the first h places, as far as the list has them.
pub fn clear(list: &mut [Set], h: usize)
    ensures { Over (λ s. 0) 0 h list.old list.new }
{
    let end = ranges::lesser(h, list.len());
    list[..end].fill(0);
}
