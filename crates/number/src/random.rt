// The random number.
ghost use Rattle.std.specs.Prelude.{◌≡◌};
ghost use Rattle.rules.specs.Arithmetic;

// The seed that comes after.
pub fn next_seed(s: u16) -> u16
    ensures { result ≡ Arithmetic.next_seed s }
{
    s.wrapping_mul(28645).wrapping_add(31417)
}

// The random number of a seed, at most the limit.
pub fn random_of(s: u16, limit: u8) -> u8
    ensures { result ≡ Arithmetic.random_of s limit }
{
    let high = s % 256 * 256;
    let swapped = high + s / 256;
    let n = limit as u16 + 1;
    let r = swapped % n;
    r as u8
}
