// Sums, compares and status of bytes and words: each function serves both widths.
ghost use Rattle.std.specs.Prelude.{◌≡◌, ◌%◌, ◌<◌, ◌≤◌, nat_le};
ghost use Rattle.rules.specs.Arithmetic;

// Half of the numbers of a width.
pub fn half(wide: bool) -> u32
    ensures { result ≡ Arithmetic.half wide }
{
    if wide { 0x8000 } else { 0x80 }
}

// How many numbers a width has.
fn all(wide: bool) -> u32
    ensures { (result ≡ Arithmetic.span (Arithmetic.half wide)) × (1 ≤ result) × (result ≤ 65536) }
{
    let h = half(wide);
    let n = h * 2;
    n
}

// A number, brought within the width.
fn wrapped(wide: bool, s: u32) -> u16
    ensures { result ≡ s % Arithmetic.span (Arithmetic.half wide) }
{
    let n = all(wide);
    let r = s % n;
    r as u16
}

// The sum, within the width.
pub fn sum(wide: bool, a: u16, b: u16) -> u16
    ensures { result ≡ Arithmetic.sum (Arithmetic.half wide) a b }
{
    let s = a as u32 + b as u32;
    wrapped(wide, s)
}

// The two's complement.
pub fn complement(wide: bool, x: u16) -> u16
    requires { x < Arithmetic.span (Arithmetic.half wide) }
    ensures { result ≡ Arithmetic.complement (Arithmetic.half wide) x }
{
    let d = all(wide) - x as u32;
    wrapped(wide, d)
}

// The sign bit.
pub fn negative(wide: bool, x: u16) -> bool
    ensures { result ≡ Arithmetic.negative (Arithmetic.half wide) x }
{
    half(wide) <= x as u32
}

// Where a number stands in the order of signed numbers.
fn rank(wide: bool, x: u16) -> u16
    ensures { result ≡ Arithmetic.rank (Arithmetic.half wide) x }
{
    let s = x as u32 + half(wide);
    wrapped(wide, s)
}

// The first is above the second, signed.
pub fn above(wide: bool, a: u16, b: u16) -> bool
    ensures { result ≡ Arithmetic.above (Arithmetic.half wide) a b }
{
    rank(wide, b) < rank(wide, a)
}

// The first is at least the second, signed.
pub fn at_least(wide: bool, a: u16, b: u16) -> bool
    ensures { result ≡ nat_le (Arithmetic.rank (Arithmetic.half wide) b) (Arithmetic.rank (Arithmetic.half wide) a) }
{
    rank(wide, b) <= rank(wide, a)
}

// The sum leaves the width.
pub fn carries(wide: bool, a: u16, b: u16) -> bool
    ensures { result ≡ Arithmetic.carries (Arithmetic.half wide) a b }
{
    let s = a as u32 + b as u32;
    all(wide) <= s
}

// The numbers have like signs, and their sum another.
pub fn overflows(wide: bool, a: u16, b: u16) -> bool
    ensures { result ≡ Arithmetic.overflows (Arithmetic.half wide) a b }
{
    let sign = negative(wide, sum(wide, a, b));
    negative(wide, a) != sign && negative(wide, b) != sign
}

// A status bit, where the test holds.
fn flag(test: bool, n: u8) -> u8
    ensures { (result ≡ Arithmetic.flag test n) × (result ≤ n) }
{
    if test { n } else { 0 }
}

// The five tests as a status byte.
fn status_byte(high: bool, greater: bool, equal: bool, carry: bool, overflow: bool) -> u8
    ensures { result ≡ Arithmetic.status_byte high greater equal carry overflow }
{
    let two = flag(high, 0x80) + flag(greater, 0x40);
    let three = two + flag(equal, 0x20);
    let four = three + flag(carry, 0x10);
    let five = four + flag(overflow, 0x08);
    five
}

// The status of one number against another.
pub fn compared(wide: bool, a: u16, b: u16, carry: bool, overflow: bool) -> u8
    ensures { result ≡ Arithmetic.compared (Arithmetic.half wide) a b carry overflow }
{
    status_byte(b < a, above(wide, a, b), a == b, carry, overflow)
}

// The byte that the listing tested last: a byte's result, or a word's width flag.
fn tested_last(wide: bool, res: u16) -> u16
    ensures { result ≡ Arithmetic.tested_last wide res }
{
    if wide { 1 } else { res }
}

fn odd_ones(b: u16) -> bool
    ensures { result ≡ Arithmetic.odd_ones b }
{
    b.count_ones() % 2 == 1
}

// The status of a sum.
pub fn sum_status(wide: bool, a: u16, b: u16) -> u8
    ensures { result ≡ Arithmetic.sum_status wide a b }
{
    let r = sum(wide, a, b);
    let carry = carries(wide, a, b);
    let overflow = overflows(wide, a, b);
    let upper = compared(wide, r, 0, carry, overflow);
    let parity = odd_ones(tested_last(wide, r));
    let s = upper + flag(parity, 0x04);
    s
}

// A status byte with another condition bit.
pub fn with_condition(c: bool, s: u8) -> u8
    ensures { result ≡ Arithmetic.with_condition c s }
{
    let top = s / 64 * 64;
    let set = top + flag(c, 0x20);
    let r = set + s % 32;
    r
}

// The number without its sign.
pub fn absolute(wide: bool, x: u16) -> u16
    requires { x < Arithmetic.span (Arithmetic.half wide) }
    ensures { result ≡ Arithmetic.absolute (Arithmetic.half wide) x }
{
    if negative(wide, x) {
        return complement(wide, x);
    }
    x
}

// Every bit the other way.
pub fn inverse(wide: bool, x: u16) -> u16
    requires { x < Arithmetic.span (Arithmetic.half wide) }
    ensures { result ≡ Arithmetic.inverse (Arithmetic.half wide) x }
{
    let last = all(wide) - 1;
    let r = last - x as u32;
    r as u16
}

// The number as a word of the same sign.
pub fn extended(wide: bool, x: u16) -> u16
    requires { x < Arithmetic.span (Arithmetic.half wide) }
    ensures { result ≡ Arithmetic.extended wide x }
{
    if wide {
        return x;
    }
    if x < 0x80 {
        return x;
    }
    let r = x + 0xFF00;
    r
}
