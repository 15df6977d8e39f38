// Hex digits, two for a byte.
ghost use Rattle.std.specs.Prelude.{◌≡◌, ◌+◌, ◌<◌, ◌%◌, SomeIff, length, get_or};
ghost use Rattle.intelhex.specs.Records;

use lines::digits::{byte_of, digit};

// A small letter from a to f as its capital.
fn capital(c: u8) -> u8
    ensures { result ≡ Records.capital c }
{
    match c {
        b'a'..=b'f' => c - 32,
        _ => c,
    }
}

// What a digit says: `None` where the character is none; a small letter is read as its capital.
pub fn value(c: u8) -> Option<u8>
    ensures { SomeIff result (Records.value c < 16) (Records.value c) }
{
    digit(capital(c))
}

// Whether all are digits: of either case, so not as `lines` has it.
pub fn all_digits(s: &[u8]) -> bool
    ensures { result ≡ Records.all_digits s.now }
{
    s.iter().all(|c| value(*c).is_some())
}

// The byte that two characters say: one that is no digit counts 16.
pub fn pair(s: &[u8], at: usize) -> u8
    requires { at + 1 < length s.now }
    ensures { result ≡ Records.pair (get_or s.now at 0) (get_or s.now (at + 1) 0) }
{
    byte_of(capital(s[at]), capital(s[at + 1]))
}

// The sum of the bytes that the characters say, modulo 256.
pub fn sum(s: &[u8]) -> u8
    ensures { result ≡ Records.total (Records.pairs s.now) % 256 }
{
    let mut t: u8 = 0;
    for digits in s.chunks_exact(2) {
        t = t.wrapping_add(pair(digits, 0));
    }
    t
}
