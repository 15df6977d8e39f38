// Products and quotients of bytes and words: each function serves both widths.
ghost use Rattle.std.specs.Prelude.{◌≡◌, ◌+◌, ◌*◌, ◌/◌, ◌%◌, ◌<◌};
ghost use Rattle.rules.specs.Arithmetic;
ghost use Rattle.rules.specs.Arithmetic.{span};

use crate::sums::half;

// A number of two widths, or a quotient and its rest.
#[derive(Clone, Copy)]
pub struct Halves {
    pub high: u16,
    pub low: u16,
}

// The product, of two widths.
pub fn times(wide: bool, a: u16, b: u16) -> Halves
    requires { (a < span (Arithmetic.half wide)) × (b < span (Arithmetic.half wide)) }
    ensures { (result.high ≡ a * b / span (Arithmetic.half wide)) × (result.low ≡ a * b % span (Arithmetic.half wide)) }
{
    let all = half(wide) * 2;
    let p = a as u32 * b as u32;
    let high = (p / all) as u16;
    let low = (p % all) as u16;
    Halves { high, low }
}

// A number of two widths by another of one: the quotient, and the rest.
pub fn divide(wide: bool, upper: u16, lower: u16, b: u16) -> Halves
    requires { (upper < b) × (b < span (Arithmetic.half wide)) × (lower < span (Arithmetic.half wide)) }
    ensures { (result.high ≡ (upper * span (Arithmetic.half wide) + lower) / b) × (result.low ≡ (upper * span (Arithmetic.half wide) + lower) % b) }
{
    let all = half(wide) * 2;
    let top = upper as u32 * all;
    let n = top + lower as u32;
    let d = b as u32;
    let high = (n / d) as u16;
    let low = (n % d) as u16;
    Halves { high, low }
}
