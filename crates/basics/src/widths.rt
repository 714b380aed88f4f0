// A size in 32 bits.
ghost use Rattle.std.specs.Prelude.{◌≡◌, ◌%◌, ◌^◌};

// The lower 32 bits of a size: the size itself where it fits.
pub fn word_of_size(x: usize) -> u32
    ensures { result ≡ x % 2 ^ 32 }
{
    (x % 4294967296) as u32
}
