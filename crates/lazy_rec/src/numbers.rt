//! Binary digits of numbers. Dues, steps and the sizes of heaps and finger trees are made of them.

ghost use Rattle.std.specs.Prelude.{◌≡◌};
ghost use Rattle.lazy_rec.specs.Numbers.{bits, ones, zeros, trailing_ones};

/// The number of binary digits, without leading zeros; 0 has none.
pub fn bits(n: u64) -> u32
    ensures { result ≡ bits n }
{
    u64::BITS - n.leading_zeros()
}

/// The number of binary digits that are 1.
pub fn ones(n: u64) -> u32
    ensures { result ≡ ones n }
{
    n.count_ones()
}

/// The number of binary digits that are 0, without leading zeros.
pub fn zeros(n: u64) -> u32
    ensures { result ≡ zeros n }
{
    bits(n) - ones(n)
}

/// The number of binary digits 1 below the lowest 0.
pub fn trailing_ones(n: u64) -> u32
    ensures { result ≡ trailing_ones n }
{
    n.trailing_ones()
}
