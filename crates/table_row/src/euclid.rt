// The common multiple of periods, by Euclid's divisor.
ghost use Rattle.std.specs.Prelude.{◌≡◌, ◌≤◌, ◌<◌};
ghost use Rattle.table_row.specs.Limits.{most_slots};
ghost use Rattle.table_row.specs.Divisor.{divisor, multiple};

// The divisor of (a, b) is that of (b, a mod b), until b is 0: a recursion, as the papers ask.
#[tactic(auto, using(crate::proofs::Divisor::divisor_zero, crate::proofs::Divisor::divisor_step))]
fn gcd(a: u32, b: u32) -> u32
    ensures { result ≡ divisor a b }
{
    if b == 0 { a } else { gcd(b, a % b) }
}

// The least common multiple of the frame so far and a period.
#[tactic(auto, using(crate::proofs::Divisor::divisor_pos), unfolding(crate::specs::Divisor::multiple))]
pub fn multiple(h: u32, period: u16) -> u32
    requires { (0 < h) × (h ≤ most_slots) }
    ensures { result ≡ multiple h period }
{
    let p = period as u32;
    h / gcd(h, p) * p
}
