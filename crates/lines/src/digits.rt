// Digits, and the numbers that they say. Not by `to_digit` and `from_str_radix`: those take small letters too, and a sign.
ghost use Rattle.std.specs.Prelude.{◌≡◌, ◌<◌, ◌≤◌, SomeIff};
ghost use Rattle.lines.specs.Digits;
ghost use Rattle.lines.specs.Digits.{up_to, numeral};

const CAPITALS: [u8; 16] = *b"0123456789ABCDEF";

// What a digit says: `None` where the character is none.
pub fn digit(c: u8) -> Option<u8>
    ensures { SomeIff result (Digits.digit c < 16) (Digits.digit c) }
{
    match c {
        b'0'..=b'9' => Some(c - b'0'),
        b'A'..=b'F' => Some(c - b'A' + 10),
        _ => None,
    }
}

// The character of a digit.
pub fn glyph(n: usize) -> u8
    requires { n < 16 }
    ensures { result ≡ Digits.glyph n }
{
    CAPITALS[n]
}

// The number that digits say, if it is at most `limit`.
pub fn number_of(s: &[u8], base: u64, limit: u64) -> Option<u64>
    requires { (1 ≤ base) × (base ≤ 16) × (limit ≤ 4294967295) }
    ensures { result ≡ up_to limit (numeral base s.now) }
{
    if s.is_empty() {
        return None;
    }
    let mut v = 0;
    for c in s {
        let d = u64::from(digit(*c)?);
        if base <= d {
            return None;
        }
        v = v * base + d;
        if limit < v {
            return None;
        }
    }
    Some(v)
}

// Whether all are hex digits.
fn all_hex(s: &[u8]) -> bool
    ensures { result ≡ Digits.all_hex s.now }
{
    s.iter().all(|c| digit(*c).is_some())
}

// How many bytes of two digits: `None` where they are not such bytes, or there is none.
pub fn count_bytes(s: &[u8]) -> Option<usize>
    ensures { SomeIff result (1 ≤ Digits.byte_count s.now) (Digits.byte_count s.now) }
{
    if s.is_empty() || s.len() % 2 != 0 || !all_hex(s) {
        return None;
    }
    Some(s.len() / 2)
}

// The byte that two digits say: a character that is none counts 16.
pub fn byte_of(high: u8, low: u8) -> u8
    ensures { result ≡ Digits.byte_of high low }
{
    let h = u32::from(digit(high).unwrap_or(16));
    let l = u32::from(digit(low).unwrap_or(16));
    let n = h * 16 + l;
    (n % 256) as u8
}
