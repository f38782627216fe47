//! Sums of positions. A position is a number of 64 bits, and where a sum would pass it stays at the greatest: so no picture is too great to be
//! drawn, and none that a screen can show comes near.

ghost use Rattle.sl_drawing.specs.Sums as sums;
ghost use Rattle.std.specs.Prelude.{◌≡◌};

/// The sum, or the greatest number of 64 bits.
pub fn plus(a: u64, b: u64) -> u64
    ensures { result ≡ sums.plus a b }
{
    a.saturating_add(b)
}

/// The difference, or 0.
pub fn minus(a: u64, b: u64) -> u64
    ensures { result ≡ sums.minus a b }
{
    a.saturating_sub(b)
}

/// The product, or the greatest number of 64 bits.
pub fn times(a: u64, b: u64) -> u64
    ensures { result ≡ sums.times a b }
{
    a.saturating_mul(b)
}

/// How wide so many letters are: five and a half each.
pub fn letters(count: usize) -> u64
    ensures { result ≡ sums.letters count }
{
    times(count as u64, 11) / 2
}
