// The smaller of two numbers, and whether a number is in a range.
ghost use Rattle.std.specs.Prelude.{◌≡◌, min};
ghost use Rattle.basics.specs.Range.{inside};

// The smaller of two: how much of a list is meant, where it may be shorter than the places that are asked for.
pub fn lesser(a: usize, b: usize) -> usize
    ensures { result ≡ min a b }
{
    a.min(b)
}

// Whether x is low to high.
#[tactic(auto, unfolding(crate::specs::Range::inside))]
pub fn within(low: usize, x: usize, high: usize) -> bool
    ensures { result ≡ inside low x high }
{
    low <= x && x <= high
}
