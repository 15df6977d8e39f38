// The screen position, and row and column from it.
ghost use Rattle.std.specs.Prelude.{◌≡◌, ◌+◌, ◌*◌, ◌/◌, ◌%◌};
ghost use Rattle.rules.specs.Format;

pub fn position_of(row: u8, column: u8) -> u16
    ensures { result ≡ row * 32 + column % 32 }
{
    (row as u16) * 32 + (column as u16) % 32
}

pub fn row_of(p: u16) -> u8
    ensures { result ≡ p / 32 % 256 }
{
    (p / 32 % 256) as u8
}

pub fn column_of(p: u16) -> u8
    ensures { result ≡ p % 32 }
{
    (p % 32) as u8
}

// Past the last line, back to the first.
pub fn wrap_show(p: u16) -> u16
    ensures { result ≡ Format.wrap_show p }
{
    if p < 0x300 {
        return p;
    }
    if p < 0x320 {
        return p - 0x300;
    }
    p
}

// A skip past the last line.
pub fn wrap_skip(p: u16) -> u16
    ensures { result ≡ Format.wrap_skip p }
{
    if p < 0x300 {
        return p;
    }
    p - 0x300
}
