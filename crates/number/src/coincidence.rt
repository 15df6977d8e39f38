// COINC: the sums of rows and columns, which may lie below 0, and the table's bits.
ghost use Rattle.std.specs.Prelude.{◌≡◌, ◌-◌, ◌%◌, ◌<◌};
ghost use Rattle.rules.specs.Machine;
ghost use Rattle.rules.specs.Coincidence;

use crate::bits;

// A byte as a signed one.
fn signed(b: u8) -> i16
    ensures { result ≡ Coincidence.signed b }
{
    if b < 128 {
        return b as i16;
    }
    let r = b as i16 - 256;
    r
}

// Source minus destination, as a signed byte.
fn difference(s: u8, d: u8) -> i16
    ensures { result ≡ Coincidence.difference s d }
{
    signed(s.wrapping_sub(d))
}

// The difference shifted down, and a size added.
pub fn along(g: u16, s: u8, d: u8, size: u8) -> i16
    requires { g < 8 }
    ensures { result ≡ Coincidence.along g s d size }
{
    let shifted = difference(s, d) >> g;
    let r = shifted + size as i16;
    r
}

// From 0 to the limit.
pub fn inside(sum: i16, limit: u8) -> bool
    ensures { result ≡ Coincidence.inside sum limit }
{
    0 <= sum && sum <= limit as i16
}

// The number of a bit, row by row.
pub fn bit_number(columns: u8, y: u8, x: u8) -> u16
    ensures { result ≡ Coincidence.bit_number columns y x }
{
    let wide = columns as u16 + 1;
    let above = y as u16 * wide;
    let r = above + x as u16;
    r
}

// Bit n of the table in its byte, counted from the left.
pub fn bit_of(n: u16, b: u8) -> bool
    ensures { result ≡ Machine.bit (7 - n % 8) b }
{
    let place = 7 - n as u32 % 8;
    bits::bit(place, b)
}
