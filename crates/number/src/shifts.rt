// The shifts, on 16 bits.
ghost use Rattle.std.specs.Prelude.{◌≡◌, ◌<◌, ◌≤◌};
ghost use Rattle.rules.specs.Arithmetic;

// How far a shift goes: the low 4 bits, where 0 means 16.
pub fn shift_count(b: u16) -> u32
    ensures { (result ≡ Arithmetic.shift_count b) × (1 ≤ result) × (result ≤ 16) }
{
    let n = b as u32 % 16;
    if n == 0 {
        return 16;
    }
    n
}

// To the right; the sign bit comes in from the left.
pub fn arithmetic(x: u16, n: u32) -> u16
    requires { (1 ≤ n) × (n ≤ 16) }
    ensures { result ≡ Arithmetic.arithmetic x n }
{
    if x < 0x8000 {
        return rightward(x, n);
    }
    let y = 0xFFFF - x;
    let r = 0xFFFF - rightward(y, n);
    r
}

// To the left.
pub fn leftward(x: u16, n: u32) -> u16
    requires { (1 ≤ n) × (n ≤ 16) }
    ensures { result ≡ Arithmetic.leftward x n }
{
    let s = (x as u32) << n;
    let r = s % 65536;
    r as u16
}

// To the right; zeros come in from the left.
pub fn rightward(x: u16, n: u32) -> u16
    requires { (1 ≤ n) × (n ≤ 16) }
    ensures { result ≡ Arithmetic.rightward x n }
{
    let r = (x as u32) >> n;
    r as u16
}

// To the right; what leaves there comes in from the left.
pub fn circular(x: u16, n: u32) -> u16
    requires { (1 ≤ n) × (n ≤ 16) }
    ensures { result ≡ Arithmetic.circular x n }
{
    let back = 16 - n;
    let high = ((x as u32) << back) % 65536;
    let r = ((x as u32) >> n) + high;
    r as u16
}

// A byte in both halves of a word; a word as it stands.
pub fn repeated(wide: bool, x: u16) -> u16
    requires { x < Arithmetic.span (Arithmetic.half wide) }
    ensures { result ≡ Arithmetic.repeated wide x }
{
    if wide {
        return x;
    }
    let high = x * 256;
    let r = high + x;
    r
}
